//! What comes of a call, step by step. The first step that refuses ends it.

ghost use Rattle.std.specs.Prelude.{◌≡◌, ◌≤◌, ◌*◌, [], ℕ, List, length, map, Some, Ok, true, false};
ghost use Rattle.std.specs.String.{string_bytes};
ghost use Rattle.dactl_model.specs.Programs.{IsValid};
ghost use Rattle.dactl_settings.specs.Limits.{IsWithinLimits};
ghost use Rattle.dactl_settings.specs.Reading.{settings_of};
ghost use Rattle.dactl_top.specs.Calls.{HasNothing, IsEmpty};
ghost use Rattle.dactl_settings.specs.declared.settings.Settings.{Settings};
ghost use Rattle.dactl_top.specs.Devices.{source_change};
ghost use Rattle.dactl_top.specs.Given.{given};
ghost use Rattle.dactl_top.specs.Input.{longest};
ghost use Rattle.dactl_top.specs.Outcomes.{ComesOf, HasBadGraph, HasCause, HasVerdict};
ghost use Rattle.dactl_top.specs.Outcomes.{IsMeant, IsRefused, IsToRun};
ghost use Rattle.dactl_top.specs.Parts.{IsParted, marker_of};
ghost use Rattle.dactl_top.specs.Telling.{IsTellable};
ghost use Rattle.dactl_top.specs.Running.{limits_of, start_room, IsTooSmall};

use crate::compile::compile_input;
use crate::input::{Input, take_text};
use crate::kept::Kept;
use crate::lines::{bad_graph_line, refused_line, small_line, verdict_line};
use crate::outcome::Outcome;
use crate::parting::{InputParts, part_input};
use crate::prepare::{Prepared, Unprepared, prepare};
use dactl_base::refusal::{Refusal, TextFault};
use dactl_base::source::Source;
use dactl_model::graph::{Entry, Room};
use dactl_model::program::Program;
use dactl_resume::fault::NotResumed;
use dactl_resume::resuming::resumed;
use dactl_settings::{Settings, UsageFault, read_settings};
use dactl_verify::{Verdict, verify};
use dactl_workers::Gate;
use std::alloc::Global;
use std::sync::Wait;
use std::thread::Threads;

// A text that is refused.
fn refused(alloc: Global, refusal: Refusal) -> Outcome
    ensures comes { (settings : Settings) (input : List ℕ) → IsRefused settings input refusal
        → ComesOf settings input result }
    ensures tellable { IsTellable result }
{
    match refused_line(alloc, refusal) {
        Ok(line) => Outcome::Refused { refusal, line },
        Err(_) => Outcome::Memory,
    }
}

// A program whose first graph does not fit: it needs so much.
fn small(alloc: Global, settings: Settings, program: Program, needed: Room) -> Outcome
    requires check { settings.check ≡ false }
    requires unasked { settings.verify ≡ false }
    requires needed { needed ≡ start_room program }
    requires above { IsTooSmall (limits_of settings) program }
    ensures comes { (input : List ℕ) → IsToRun settings input program
        → ComesOf settings input result }
    ensures tellable { IsTellable result }
{
    match small_line(alloc, needed) {
        Ok(line) => Outcome::Small { program, line },
        Err(_) => Outcome::Memory,
    }
}

// Runs a program, if there is room and memory for it. The run itself takes no memory.
fn run<R: Threads + Wait + Sync, G: Gate + Sync>(
    rt: &R,
    alloc: Global,
    settings: Settings,
    program: Program,
    gate: &G,
) -> Outcome
    requires limits { IsWithinLimits settings }
    requires check { settings.check ≡ false }
    requires unasked { settings.verify ≡ false }
    requires valid { IsValid program }
    ensures comes { (input : List ℕ) → IsToRun settings input program
        → ComesOf settings input result }
    ensures tellable { IsTellable result }
{
    match prepare(alloc, settings, program) {
        Ok(Prepared { crew, numbering }) => Outcome::Ran {
            run: crew.run(rt, gate),
            trace: settings.trace,
            numbering,
        },
        Err(Unprepared::Small { program, needed }) => small(alloc, settings, program, needed),
        Err(Unprepared::Memory) => Outcome::Memory,
    }
}

// A program that was to go on from a graph of which a line is bad.
fn bad_graph(alloc: Global, program: Program, bad: u32) -> Outcome
    ensures comes { (settings : Settings) (input : List ℕ)
        → HasBadGraph settings input program bad → ComesOf settings input result }
    ensures tellable { IsTellable result }
{
    match bad_graph_line(alloc, bad) {
        Ok(line) => Outcome::BadGraph { program, bad, line },
        Err(_) => Outcome::Memory,
    }
}

// Runs the program from a printed graph in place of its start.
fn go_on<R: Threads + Wait + Sync, G: Gate + Sync>(
    rt: &R,
    alloc: Global,
    settings: Settings,
    program: Program,
    graph: &[u8],
    gate: &G,
) -> Outcome
    requires limits { IsWithinLimits settings }
    requires check { (settings.check ≡ false) × (settings.verify ≡ false) }
    requires asked { settings.resume ≡ true }
    requires valid { IsValid program }
    requires short { length graph.now ≤ longest }
    ensures comes { (input : List ℕ) → IsMeant settings input graph.now program
        → ComesOf settings input result }
    ensures tellable { IsTellable result }
{
    match resumed(alloc, program, graph) {
        Ok(program) => run(rt, alloc, settings, program, gate),
        Err(NotResumed::Bad { program, line }) => bad_graph(alloc, program, line),
        Err(NotResumed::Memory) => Outcome::Memory,
    }
}

// The room in which a trace is checked: four arcs for each node.
fn room_of(settings: Settings) -> Room
    requires { IsWithinLimits settings }
    ensures { result ≡ record { nodes = settings.nodes; arcs = 4 * settings.nodes } }
{
    Room {
        nodes: settings.nodes,
        arcs: 4 * settings.nodes,
    }
}

// What the check of a trace against the program found, after these entries.
fn judged(alloc: Global, program: Program, verdict: Verdict, journal: Vec<Entry>) -> Outcome
    ensures comes { (settings : Settings) (input : List ℕ)
        → HasVerdict settings input program verdict journal.items
        → ComesOf settings input result }
    ensures tellable { IsTellable result }
{
    match verdict_line(alloc, verdict, journal.len() as u64) {
        Ok(line) => Outcome::Judged {
            program,
            verdict,
            journal,
            line,
        },
        Err(_) => Outcome::Memory,
    }
}

// Checks a trace against the program.
fn judge(alloc: Global, settings: Settings, program: Program, trace: &[u8]) -> Outcome
    requires limits { IsWithinLimits settings }
    requires check { settings.check ≡ false }
    requires asked { settings.verify ≡ true }
    requires valid { IsValid program }
    requires short { length trace.now ≤ longest }
    ensures comes { (input : List ℕ) → IsMeant settings input trace.now program
        → ComesOf settings input result }
    ensures tellable { IsTellable result }
{
    let mut journal = Vec::new(alloc);
    match verify(alloc, &program, trace, room_of(settings), &mut journal) {
        Ok(verdict) => judged(alloc, program, verdict, journal),
        Err(_) => Outcome::Memory,
    }
}

// What comes of the parts of an input.
fn answer_parts<R: Threads + Wait + Sync, G: Gate + Sync>(
    rt: &R,
    alloc: Global,
    settings: Settings,
    text: &[u8],
    rest: &[u8],
    gate: &G,
) -> Outcome
    requires limits { IsWithinLimits settings }
    requires short { (length text.now ≤ longest) × (length rest.now ≤ longest) }
    ensures comes { (input : List ℕ) → IsParted (marker_of settings) input text.now rest.now
        → ComesOf settings input result }
    ensures tellable { IsTellable result }
{
    match compile_input(alloc, settings.fun, text) {
        Ok(program) if settings.check => Outcome::Checked(program),
        Ok(program) if settings.verify => judge(alloc, settings, program, rest),
        Ok(program) if settings.resume => go_on(rt, alloc, settings, program, rest, gate),
        Ok(program) => run(rt, alloc, settings, program, gate),
        Err(TextFault::Refused(refusal)) => refused(alloc, refusal),
        Err(TextFault::Memory) => Outcome::Memory,
    }
}

// What comes of an input that is there whole.
fn answer_input<R: Threads + Wait + Sync, G: Gate + Sync>(
    rt: &R,
    alloc: Global,
    settings: Settings,
    input: &[u8],
    gate: &G,
) -> Outcome
    requires limits { IsWithinLimits settings }
    requires short { length input.now ≤ longest }
    ensures comes { ComesOf settings input.now result }
    ensures tellable { IsTellable result }
{
    match part_input(settings, input) {
        Some(InputParts { text, rest }) => answer_parts(rt, alloc, settings, text, rest, gate),
        None => Outcome::NoPart,
    }
}

// Takes the text that the settings ask for, and answers to it.
fn answer_settings<R: Threads + Wait + Sync, S: Source, G: Gate + Sync>(
    rt: &R,
    alloc: Global,
    settings: Settings,
    source: &mut S,
    gate: &G,
    text: &mut Vec<u8>,
) -> Outcome
    requires limits { IsWithinLimits settings }
    requires empty { text.old.items ≡ [] }
    ensures cause { (words : List (List ℕ)) → settings_of words ≡ Ok settings
        → HasCause (given words (source_change S.left S.faults source.old source.new)
        (Some settings) text.new.items) result }
    ensures tellable { IsTellable result }
{
    match take_text(alloc, settings, source, text) {
        Input::Whole => answer_input(rt, alloc, settings, text.as_slice(), gate),
        Input::Failed => Outcome::ReadFault,
        Input::TooLong => Outcome::TooLong,
        Input::Short => Outcome::Memory,
    }
}

/// What comes of a call. The settings and the text are kept, and nothing else yet.
pub fn answer_words<R: Threads + Wait + Sync, S: Source, G: Gate + Sync>(
    rt: &R,
    alloc: Global,
    words: &[String],
    source: &mut S,
    gate: &G,
    kept: &mut Kept,
) -> Outcome
    requires { IsEmpty kept.old }
    ensures cause { HasCause (given (map string_bytes words.now)
        (source_change S.left S.faults source.old source.new)
        kept.new.settings kept.new.text.items) result }
    ensures tellable { IsTellable result }
    ensures nothing { HasNothing kept.new }
{
    match read_settings(alloc, words) {
        Ok(settings) => {
            kept.settings = Some(settings);
            answer_settings(rt, alloc, settings, source, gate, &mut kept.text)
        }
        Err(UsageFault::Words) => Outcome::Usage,
        Err(UsageFault::Number) => Outcome::Usage,
        Err(UsageFault::Both) => Outcome::Usage,
        Err(UsageFault::Memory) => Outcome::Memory,
    }
}
