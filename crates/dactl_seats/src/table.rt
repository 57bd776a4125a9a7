//! A store with seats, from the text of its program to what is left of the run.

ghost use Rattle.std.specs.Prelude.{◌≡◌, ◌<◌, ◌≤◌, [], All, IfSome};
ghost use Rattle.std.specs.Coded.{Coded-set};
ghost use Rattle.dactl_model.specs.contracts.program.Program as program;
ghost use Rattle.dactl_model.specs.Graphs.{IsWellFormed};
ghost use Rattle.dactl_model.specs.Programs.{IsValid};
ghost use Rattle.dactl_print.specs.Lines.{HasSymbolsOf};
ghost use Rattle.dactl_shared.specs.Stores.{IsFresh, program_of, rejoined, workers_of};

use crate::calling::compiled;
use dactl_decide::{Deciders, compile};
use dactl_model::graph::Limits;
use dactl_shared::{SharedStore, WorkerSeat};
use dactl_state::{Finished, State};
use std::alloc::Global;
use std::sync::Wait;
use std::thread::Threads;

/// A store, and the deciders of its program.
#[derive(Drop)]
pub(crate) struct Table {
    pub store: SharedStore,
    pub deciders: Deciders,
    ghost same: { deciders.program ≡ program_of store } by { Coded-set program.the_row.coded
        deciders.program (program_of store) },
}

/// A store over the start of the text's program, and its seats.
pub(crate) fn laid<R: Threads + Wait + Sync>(
    rt: &R,
    alloc: Global,
    text: &str,
    limits: Limits,
    workers: u8,
) -> Option<(Table, Vec<WorkerSeat>)>
    requires { (0 < workers) × (workers ≤ 16) }
    ensures many { IfSome result (λ r. workers_of r.0.store ≡ workers) }
    ensures none { IfSome result (λ r. rejoined r.0.store ≡ []) }
    ensures seats { IfSome result (λ r. All (IsFresh r.0.store) r.1.items) }
{
    let program = compiled(rt, alloc, text)?;
    let deciders = compile(alloc, &program).ok()?;
    let state = State::begin(alloc, program, limits).ok()?;
    let (store, seats) = SharedStore::new(alloc, state, workers).ok()?;
    Some((Table { store, deciders }, seats))
}

/// The last of the seats.
pub(crate) fn last_seat(table: &Table, seats: &mut Vec<WorkerSeat>) -> Option<WorkerSeat>
    requires { All (IsFresh table.now.store) seats.old.items }
    ensures seat { IfSome result (IsFresh table.now.store) }
    ensures others { All (IsFresh table.now.store) seats.new.items }
{
    let _ = table;
    seats.pop()
}

/// What the state leaves, which can be printed.
pub(crate) fn left(state: State) -> Finished
    ensures formed { IsWellFormed result.store.graph }
    ensures symbols { HasSymbolsOf result.program result.store.graph }
{
    state.finish()
}
