mod programs;
mod showing;

ghost use Rattle.std.specs.Prelude.{◌≡◌, ◌≤◌, [], ◌∷◌, IfSome};
ghost use Rattle.dactl_model.specs.declared.reading.Reading.{Reading};
ghost use Rattle.dactl_model.specs.Versions.{IsShown};

use crate::{Answer, NotBegun, State};
use dactl_model::footprint::{Attempt, Footprint, Woken};
use dactl_model::graph::{End, Entry, Event, Limits, NodeId, Room};
use dactl_model::program::Program;
use dactl_model::reading::Reading;
use dactl_model::validity::is_valid;
use dactl_store::BeginCause;
use programs::{program, suspending};
use showing::{shows_fire, shows_note};
use std::alloc::Global;
use std::test::Fail;

fn id(number: u32) -> NodeId
    ensures { result.number ≡ number }
{
    NodeId { number }
}

fn fire(number: u32) -> Event {
    Event::Fire {
        node: id(number),
        rule: 5,
    }
}

fn note(number: u32) -> Event {
    Event::Note { node: id(number) }
}

fn limits(nodes: u32, arcs: u32, budget: u32) -> Limits {
    Limits {
        nodes,
        arcs,
        budget,
    }
}

/// A state of the program, and a list that has room for all its nodes.
fn begin(alloc: Global, program: &Program, limits: Limits) -> Option<(State, Woken)>
    ensures { IfSome result (λ s. (s.0.program ≡ program.now) × (s.0.limits.nodes ≤ s.1.room)) }
{
    if !is_valid(program) {
        return None;
    }
    let copy = program.copy(alloc).ok()?;
    let woken = Woken::with_room(alloc, limits.nodes).ok()?;
    let state = State::begin(alloc, copy, limits).ok()?;
    Some((state, woken))
}

/// The attempt of this reading alone, without bindings.
fn attempt(alloc: Global, reading: Reading, event: Event) -> Option<Attempt>
    ensures { IfSome result (λ a.
        (a.event ≡ event) × (a.footprint.readings ≡ reading ∷ []) × (a.footprint.bindings ≡ [])) }
{
    let mut footprint = Footprint::with_room(alloc, 1).ok()?;
    footprint.push_reading(reading);
    Some(Attempt { event, footprint })
}

/// What is read of the node of this number.
fn read(state: &State, number: u32) -> Option<Reading>
    ensures { IfSome result (IsShown state.now.program state.now.journal) }
{
    if number >= state.count() {
        return None;
    }
    Some(state.read(id(number)))
}

/// What the state answers to worker 2, who fires rule 5 at the node of the reading.
fn fires(
    alloc: Global,
    state: &mut State,
    program: &Program,
    reading: Reading,
    woken: &mut Woken,
) -> Option<Answer>
    requires program { state.old.program ≡ program.now }
    requires shown { IsShown state.old.program state.old.journal reading }
    requires room { state.old.limits.nodes ≤ woken.old.room }
    ensures program { state.new.program ≡ program.now }
    ensures shown { (r : Reading) →
        IsShown state.old.program state.old.journal r →
        IsShown state.new.program state.new.journal r }
    ensures room { state.new.limits.nodes ≤ woken.new.room }
{
    if !shows_fire(program, &reading, 5) {
        return None;
    }
    let event = Event::Fire {
        node: reading.node,
        rule: 5,
    };
    let attempt = attempt(alloc, reading, event)?;
    Some(state.commit(&attempt, 2, woken))
}

/// What the state answers to worker 3, who says that no rule matches at the node of the reading.
fn notes(
    alloc: Global,
    state: &mut State,
    program: &Program,
    reading: Reading,
    woken: &mut Woken,
) -> Option<Answer>
    requires program { state.old.program ≡ program.now }
    requires shown { IsShown state.old.program state.old.journal reading }
    requires room { state.old.limits.nodes ≤ woken.old.room }
    ensures program { state.new.program ≡ program.now }
    ensures shown { (r : Reading) →
        IsShown state.old.program state.old.journal r →
        IsShown state.new.program state.new.journal r }
    ensures room { state.new.limits.nodes ≤ woken.new.room }
{
    if !shows_note(program, &reading) {
        return None;
    }
    let attempt = attempt(alloc, reading, Event::Note { node: reading.node })?;
    Some(state.commit(&attempt, 3, woken))
}

/// The firing of node 1 is committed, and makes node 2. What was read of node 0 is stale then, since its arc
/// leads there, and node 1 is idle.
fn answers_by_versions(
    alloc: Global,
    state: &mut State,
    program: &Program,
    woken: &mut Woken,
) -> bool
    requires program { state.old.program ≡ program.now }
    requires room { state.old.limits.nodes ≤ woken.old.room }
    ensures program { state.new.program ≡ program.now }
    ensures room { state.new.limits.nodes ≤ woken.new.room }
{
    let (Some(cell), Some(call)) = (read(state, 0), read(state, 1)) else {
        return false;
    };
    let stale = Answer::Stale {
        node: id(0),
        was: 0,
        now: 1,
    };
    fires(alloc, state, program, call, woken) == Some(Answer::Committed)
        && woken.list() == [id(2)].as_slice()
        && notes(alloc, state, program, cell, woken) == Some(stale)
        && woken.list().is_empty()
        && fires(alloc, state, program, call, woken) == Some(Answer::Passive)
}

/// The firing of node 2, in a room of three nodes and one arc.
const FULL: End = End::Full {
    node: NodeId { number: 2 },
    rule: 5,
    needed: Room { nodes: 1, arcs: 0 },
    left: Room { nodes: 0, arcs: 0 },
};

/// Then node 0 is read again and notifies, and there is no room for another node.
fn answers_to_the_end(
    alloc: Global,
    state: &mut State,
    program: &Program,
    woken: &mut Woken,
) -> bool
    requires program { state.old.program ≡ program.now }
    requires room { state.old.limits.nodes ≤ woken.old.room }
{
    let (Some(cell), Some(call)) = (read(state, 0), read(state, 2)) else {
        return false;
    };
    let full = Answer::Full {
        node: id(2),
        rule: 5,
        needed: Room { nodes: 1, arcs: 0 },
        left: Room { nodes: 0, arcs: 0 },
    };
    notes(alloc, state, program, cell, woken) == Some(Answer::Committed)
        && state.end().is_none()
        && fires(alloc, state, program, call, woken) == Some(full)
        && fires(alloc, state, program, call, woken) == Some(Answer::Ended(FULL))
}

/// Whether the journal has the firing of worker 2 and the notification of worker 3, and the end is kept.
fn leaves_all(state: State) -> bool {
    let left = state.finish();
    let entries = [
        Entry {
            worker: 2,
            event: fire(1),
        },
        Entry {
            worker: 3,
            event: note(0),
        },
    ];
    left.end == Some(FULL) && left.journal.as_slice() == entries.as_slice()
}

fn runs(alloc: Global, program: &Program) -> bool {
    let Some((mut state, mut woken)) = begin(alloc, program, limits(3, 1, 9)) else {
        return false;
    };
    answers_by_versions(alloc, &mut state, program, &mut woken)
        && answers_to_the_end(alloc, &mut state, program, &mut woken)
        && leaves_all(state)
}

/// Each answer of a commit, in the order of a short run.
#[test]
fn a_commit_has_five_answers(rt: HostRuntime) -> Result<(), Fail> {
    let program = program(rt.alloc())?;
    assert!(&rt; runs(rt.alloc(), &program));
    Ok(())
}

/// Whether the two active nodes have their turns, and the budget of one entry ends the run.
fn ends_by_the_budget(alloc: Global, program: &Program) -> bool {
    let Some((mut state, mut woken)) = begin(alloc, program, limits(9, 9, 1)) else {
        return false;
    };
    let Some(call) = read(&state, 1) else {
        return false;
    };
    state.limits().budget == 1
        && state.next_active() == Some(id(0))
        && state.next_active() == Some(id(1))
        && state.next_active() == Some(id(0))
        && fires(alloc, &mut state, program, call, &mut woken) == Some(Answer::Committed)
        && state.end() == Some(End::Budget)
}

/// The active nodes have their turns.
#[test]
fn a_budget_of_one_ends_after_one(rt: HostRuntime) -> Result<(), Fail> {
    let program = program(rt.alloc())?;
    assert!(&rt; ends_by_the_budget(rt.alloc(), &program));
    Ok(())
}

/// Whether node 1, which has no arc to wait along, stays active where its rule fires, and may fire again by
/// what was read of it before.
fn stays_active(alloc: Global, program: &Program) -> bool {
    let Some((mut state, mut woken)) = begin(alloc, program, limits(2, 1, 2)) else {
        return false;
    };
    let Some(call) = read(&state, 1) else {
        return false;
    };
    fires(alloc, &mut state, program, call, &mut woken) == Some(Answer::Committed)
        && woken.list() == [id(1)].as_slice()
        && fires(alloc, &mut state, program, call, &mut woken) == Some(Answer::Committed)
        && woken.list() == [id(1)].as_slice()
        && state.end() == Some(End::Budget)
}

/// No version grows where a node waits again.
#[test]
fn a_root_may_stay_active(rt: HostRuntime) -> Result<(), Fail> {
    let program = suspending(rt.alloc())?;
    assert!(&rt; stays_active(rt.alloc(), &program));
    Ok(())
}

/// Whether the start is too large for these limits, as both counts tell.
fn is_small(alloc: Global, program: Program, limits: Limits) -> bool {
    if !is_valid(&program) {
        return false;
    }
    let Err(NotBegun { program, cause }) = State::begin(alloc, program, limits) else {
        return false;
    };
    let BeginCause::Small { needed, left } = cause else {
        return false;
    };
    program.rules.len() == 6
        && needed == Room { nodes: 2, arcs: 1 }
        && left.nodes == limits.nodes
        && left.arcs == limits.arcs
}

#[test]
fn a_start_may_be_too_large(rt: HostRuntime) -> Result<(), Fail> {
    assert!(&rt; is_small(rt.alloc(), program(rt.alloc())?, limits(1, 9, 9)));
    assert!(&rt; is_small(rt.alloc(), program(rt.alloc())?, limits(9, 0, 9)));
    Ok(())
}
