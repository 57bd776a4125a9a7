//! A whole call over a text in memory, and what is asked of its answer.

ghost use Rattle.std.specs.Prelude.{IfSome};
ghost use Rattle.dactl_model.specs.Programs.{IsValid};

use dactl_base::memory::{MemorySink, SteadySource};
use dactl_model::graph::Entry;
use dactl_model::program::Program;
use dactl_model::validity::is_valid;
use dactl_plain::replay;
use dactl_top::dactl;
use dactl_top::kept::Kept;
use dactl_top::status::Status;
use dactl_workers::{Gate, OpenGate};
use std::alloc::{AllocError, Global};
use std::sync::Wait;
use std::thread::Threads;

/// What a call answered and kept, and what its sink holds.
#[derive(Drop)]
pub(crate) struct Answered {
    pub status: Status,
    pub kept: Kept,
    pub sink: MemorySink,
}

// The program's name, and the words.
fn words_of(alloc: Global, words: &str) -> Result<Vec<String>, AllocError> {
    let mut given = vec![in alloc; String::from_str(alloc, "dactl")?]?;
    for word in words.split(' ') {
        given.push(String::from_str(alloc, word)?)?;
    }
    Ok(given)
}

/// Calls with these words, a space between any two, over the text, with workers that pass the gate.
///
/// # Errors
///
/// `AllocError` where there is not the memory for the words, the source or the sink. A call that
/// itself lacks memory answers so.
pub(crate) fn called<R: Threads + Wait + Sync, G: Gate + Sync>(
    rt: &R,
    alloc: Global,
    words: &str,
    text: &str,
    gate: &G,
) -> Result<Answered, AllocError> {
    let words = words_of(alloc, words)?;
    let mut source = SteadySource::new(Vec::from_slice(alloc, text.as_bytes())?);
    let mut sink = MemorySink::new(alloc, 4_096, 4_096, Vec::new(alloc))?;
    let mut kept = Kept::empty(alloc);
    let status = dactl(rt, alloc, &words, &mut source, &mut sink, gate, &mut kept);
    Ok(Answered { status, kept, sink })
}

/// The program that the text means, where it means one.
pub(crate) fn compiled<R: Threads + Wait + Sync>(
    rt: &R,
    alloc: Global,
    text: &str,
) -> Option<Program>
    ensures { IfSome result IsValid }
{
    let mut answered = called(rt, alloc, "--check", text, &OpenGate).ok()?;
    let program = answered.kept.program.take()?;
    if is_valid(&program) {
        Some(program)
    } else {
        None
    }
}

/// Whether the journal is, step by step, a run of the program.
pub(crate) fn is_run(alloc: Global, program: &Program, journal: &[Entry]) -> bool {
    is_valid(program) && matches!(replay(alloc, program, journal), Ok(Some(_)))
}
