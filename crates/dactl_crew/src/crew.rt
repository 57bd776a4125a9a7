//! The workers of a run, with all that they share.

ghost use Rattle.std.specs.Prelude.{◌≡◌, ◌<◌, ◌≤◌, [], All, IfOk, None};
ghost use Rattle.std.specs.Prelude.{length, map, vec_capacity};
ghost use Rattle.dactl_shared.specs.Stores.{IsFresh, limits_of, program_of};
ghost use Rattle.dactl_shared.specs.Stores.{rejoined, workers_of};
ghost use Rattle.dactl_crew.specs.Boards.{IsNewHand};
ghost use Rattle.dactl_crew.specs.Crews.{AreBack, IsCrew, IsCrewEnd, IsDone, IsIdle};
ghost use Rattle.dactl_crew.specs.Crews.{IsNewBoard, IsRunnable, IsRunOf};
ghost use Rattle.dactl_crew.specs.Crews.{numbers_of, worker_with};

use crate::board::CrewBoard;
use crate::ended::EndedRun;
use dactl_decide::Deciders;
use dactl_model::Memory;
use dactl_model::footprint::{Footprint, Woken};
use dactl_shared::{SharedStore, WorkerSeat};
use dactl_state::{Finished, State};
use dactl_workers::{Gate, Worker, WorkerParts, WorkerReport, farm};
use std::alloc::Global;
use std::sync::Wait;
use std::thread::Threads;

/// Workers with the store and the board that they share, and a list for their reports.
#[derive(Drop)]
pub struct Crew<B, H> {
    pub store: SharedStore,
    pub board: B,
    pub workers: Vec<Worker<H>>,
    pub reports: Vec<WorkerReport>,
}

/// What the workers of a run leave.
#[derive(Drop)]
pub struct CrewEnd {
    pub state: State,
    pub left: u64,
    pub reports: Vec<WorkerReport>,
}

// A worker that has done nothing.
fn worker_of<H: Drop>(
    alloc: Global,
    seat: WorkerSeat,
    hand: H,
    widest: u32,
    nodes: u32,
) -> Result<Worker<H>, Memory>
    ensures { IfOk result (λ w. w ≡ worker_with seat hand widest nodes) }
{
    let footprint = Footprint::with_room(alloc, widest)?;
    let woken = Woken::with_room(alloc, nodes)?;
    Ok(Worker::new(seat, hand, footprint, woken))
}

// Workers with these seats, in their order, and these hands.
fn workers_with<B: CrewBoard>(
    alloc: Global,
    store: &SharedStore,
    board: &B,
    widest: u32,
    seats: Vec<WorkerSeat>,
    mut hands: Vec<B::Hand>,
) -> Result<Vec<Worker<B::Hand>>, Memory>
where
    B::Hand: Drop,
    requires seats { All (IsFresh store.now) seats.items }
    requires hands { All (IsNewHand (B.fits board.now) B.put B.taken B.back) hands.items }
    requires count { length hands.items ≡ length seats.items }
    ensures each { IfOk result (λ ws.
        All (IsIdle B.CrewBoard store.now board.now widest) ws.items) }
    ensures numbers { IfOk result (λ ws. numbers_of ws.items ≡ map (λ s. s.number) seats.items) }
{
    let nodes = store.limits().nodes;
    let _ = board;
    let mut workers = Vec::with_capacity(alloc, seats.len())?;
    for seat in seats {
        let Some(hand) = hands.pop() else {
            unreachable!()
        };
        workers.push(worker_of(alloc, seat, hand, widest, nodes)?)?;
    }
    Ok(workers)
}

// Takes the workers' seats and hands back, and puts their reports on the list. Takes no memory.
fn take_all_back<B: CrewBoard>(
    store: &mut SharedStore,
    board: &mut B,
    workers: Vec<Worker<B::Hand>>,
    reports: &mut Vec<WorkerReport>,
)
where
    B::Hand: Drop,
    requires each { All (IsDone B.CrewBoard store.old board.old) workers.items }
    requires none { (rejoined store.old ≡ []) × (reports.old.items ≡ []) }
    requires board { IsNewBoard B.CrewBoard board.old (length workers.items) }
    requires room { length workers.items ≤ vec_capacity reports.old }
    ensures { AreBack B.CrewBoard store.old store.new board.new workers.items reports.new.items }
{
    for worker in workers {
        let WorkerParts { seat, hand, report } = worker.into_parts();
        store.rejoin(seat);
        board.take_back(hand);
        let Ok(()) = reports.push(report) else {
            unreachable!()
        };
    }
}

/// So many workers over the state, of which each reads at most `widest` nodes to try one.
///
/// # Errors
/// Memory where there is none. The state is gone then, with its program.
pub fn gather<B: CrewBoard>(
    alloc: Global,
    state: State,
    workers: u8,
    widest: u32,
) -> Result<Crew<B, B::Hand>, Memory>
where
    B::Hand: Drop,
    requires workers { (0 < workers) × (workers ≤ 16) }
    requires state { (state.journal ≡ []) × (state.full ≡ None) }
    ensures crew { IfOk result (IsCrew B.CrewBoard widest) }
    ensures store { IfOk result (λ crew. (program_of crew.store ≡ state.program)
        × (limits_of crew.store ≡ state.limits) × (workers_of crew.store ≡ workers)) }
{
    let (store, seats) = SharedStore::new(alloc, state, workers)?;
    let (board, hands) = B::make(alloc, workers)?;
    let crew = workers_with(alloc, &store, &board, widest, seats, hands)?;
    let reports = Vec::with_capacity(alloc, usize::from(workers))?;
    Ok(Crew {
        store,
        board,
        workers: crew,
        reports,
    })
}

// Runs the workers to an end and takes all back.
fn work<B: CrewBoard + Sync, R: Threads + Wait + Sync, G: Gate + Sync>(
    crew: Crew<B, B::Hand>,
    rt: &R,
    deciders: &Deciders,
    gate: &G,
) -> CrewEnd
where
    B::Hand: Drop + Send,
    requires { IsRunnable B.CrewBoard deciders.now crew }
    ensures { IsCrewEnd crew.store result }
{
    let Crew {
        mut store,
        mut board,
        mut workers,
        mut reports,
    } = crew;
    farm(rt, &store, &board, deciders, workers.as_mut_slice(), gate);
    take_all_back(&mut store, &mut board, workers, &mut reports);
    let state = store.close();
    let left = board.count_left(rt);
    CrewEnd {
        state,
        left,
        reports,
    }
}

/// Runs the program of the store to an end, each worker in a thread of its own. Takes no memory. It
/// may wait for other threads.
pub fn run<B: CrewBoard + Sync, R: Threads + Wait + Sync, G: Gate + Sync>(
    crew: Crew<B, B::Hand>,
    rt: &R,
    deciders: &Deciders,
    gate: &G,
) -> EndedRun
where
    B::Hand: Drop + Send,
    requires { IsRunnable B.CrewBoard deciders.now crew }
    ensures { let store = crew.store in
        IsRunOf (program_of store) (limits_of store) (workers_of store) result }
{
    let CrewEnd {
        state,
        left,
        reports,
    } = work(crew, rt, deciders, gate);
    let Finished {
        program,
        store,
        journal,
        end,
    } = state.finish();
    let Some(ended) = end else { unreachable!() };
    EndedRun {
        program,
        store,
        journal,
        ended,
        reports,
        left,
    }
}
