//! One worker on a board of its own.

ghost use Rattle.std.specs.Prelude.{◌≡◌, [], All, IfSome};
ghost use Rattle.dactl_model.specs.Graphs.{IsWellFormed};
ghost use Rattle.dactl_model.specs.Programs.{IsValid};
ghost use Rattle.dactl_print.specs.Lines.{HasSymbolsOf};
ghost use Rattle.dactl_shared.specs.Stores.{IsFresh, program_of, rejoined, workers_of};
ghost use Rattle.dactl_workers.specs.Work.{IsReady};

use dactl_base::memory::MemorySink;
use dactl_decide::compile;
use dactl_model::footprint::{Footprint, Woken};
use dactl_model::graph::Limits;
use dactl_model::program::Program;
use dactl_print::printer::{Numbering, flush, show};
use dactl_queue::Board;
use dactl_shared::{SharedStore, WorkerSeat};
use dactl_state::{Finished, State};
use dactl_workers::{OpenGate, Worker};
use std::alloc::Global;
use std::sync::Wait;

// The last of the seats.
fn last_seat(store: &SharedStore, mut seats: Vec<WorkerSeat>) -> Option<WorkerSeat>
    requires { All (IsFresh store.now) seats.items }
    ensures { IfSome result (IsFresh store.now) }
{
    let _ = store;
    seats.pop()
}

// A store over the program's start, and its only seat.
fn begun(alloc: Global, program: Program, limits: Limits) -> Option<(SharedStore, WorkerSeat)>
    requires { IsValid program }
    ensures program { IfSome result (λ r. program_of r.0 ≡ program) }
    ensures one { IfSome result (λ r. (workers_of r.0 ≡ 1) × (rejoined r.0 ≡ [])) }
    ensures seat { IfSome result (λ r. IsFresh r.0 r.1) }
{
    let state = State::begin(alloc, program, limits).ok()?;
    let (store, seats) = SharedStore::new(alloc, state, 1).ok()?;
    let seat = last_seat(&store, seats)?;
    Some((store, seat))
}

// A worker that can start.
fn ready<B: Board>(
    alloc: Global,
    store: &SharedStore,
    board: &B,
    widest: u32,
    seat: WorkerSeat,
    hand: B::Hand,
) -> Option<Worker<B::Hand>>
where
    B::Hand: Drop,
    requires seat { IsFresh store.now seat }
    requires hand { B.fits board.now hand }
    requires back { B.back hand ≡ 0 }
    ensures { IfSome result (IsReady (B.fits board.now) B.back store.now widest) }
{
    let _ = board;
    let footprint = Footprint::with_room(alloc, widest).ok()?;
    let woken = Woken::with_room(alloc, store.limits().nodes).ok()?;
    Some(Worker::new(seat, hand, footprint, woken))
}

// What the state leaves, which can be printed.
fn left(state: State) -> Finished
    ensures formed { IsWellFormed result.store.graph }
    ensures symbols { HasSymbolsOf result.program result.store.graph }
{
    state.finish()
}

/// What a worker with this hand leaves of the program, once it has worked alone to an end.
pub(crate) fn worked<B: Board, R: Wait>(
    rt: &R,
    alloc: Global,
    program: Program,
    limits: Limits,
    board: &B,
    hand: B::Hand,
) -> Option<Finished>
where
    B::Hand: Drop,
    requires program { IsValid program }
    requires hand { B.fits board.now hand }
    requires back { B.back hand ≡ 0 }
    ensures formed { IfSome result (λ f. IsWellFormed f.store.graph) }
    ensures symbols { IfSome result (λ f. HasSymbolsOf f.program f.store.graph) }
{
    let deciders = compile(alloc, &program).ok()?;
    let (mut store, seat) = begun(alloc, program, limits)?;
    let mut worker = ready(alloc, &store, board, deciders.widest(), seat, hand)?;
    worker.work(rt, &store, board, &deciders, &OpenGate);
    store.rejoin(worker.into_parts().seat);
    Some(left(store.close()))
}

/// The graph as it is printed.
pub(crate) fn printed(alloc: Global, finished: &Finished) -> Option<MemorySink>
    requires formed { IsWellFormed finished.now.store.graph }
    requires symbols { HasSymbolsOf finished.now.program finished.now.store.graph }
{
    let mut numbering = Numbering::with_room(alloc, finished.store.next_number()).ok()?;
    let mut sink = MemorySink::new(alloc, 4_096, 4_096, Vec::new(alloc)).ok()?;
    show(
        &finished.store,
        &finished.program,
        &mut numbering,
        &mut sink,
    )
    .ok()?;
    flush(&mut numbering, &mut sink).ok()?;
    Some(sink)
}
