//! All that a run takes, made before it starts.

ghost use Rattle.std.specs.Prelude.{◌≡◌, ◌<◌, ◌≤◌, [], None, IfOk, IfErr};
ghost use Rattle.dactl_model.specs.Programs.{IsValid};
ghost use Rattle.dactl_settings.specs.Limits.{IsUpTo};
ghost use Rattle.dactl_shared.specs.Stores as stores;
ghost use Rattle.dactl_crew.specs.Crews.{IsRunOf};
ghost use Rattle.dactl_crew.specs.Preparing.{program_of, limits_of, workers_of, store_in};
ghost use Rattle.dactl_crew.specs.Preparing.{AreGathered, CanRun, IsPrepared, IsUnprepared};
ghost use Rattle.dactl_crew.specs.Running.{AreLimits};

use crate::crew::{Crew, gather, run};
use crate::ended::EndedRun;
use dactl_decide::{Deciders, compile};
use dactl_model::Memory;
use dactl_model::graph::{Limits, Room};
use dactl_model::program::Program;
use dactl_queue::{RuledBoard, RuledHand};
use dactl_state::{NotBegun, State};
use dactl_steal::{StealBoard, StealHand};
use dactl_store::BeginCause;
use dactl_workers::Gate;
use std::alloc::Global;
use std::sync::Wait;
use std::thread::Threads;

/// Workers over one of the two boards.
#[derive(Drop)]
enum BoardCrew {
    Ruled(Crew<RuledBoard, RuledHand>),
    Steal(Crew<StealBoard, StealHand>),
}

/// All that a run takes.
#[derive(Drop)]
pub struct Prepared {
    deciders: Deciders,
    crew: BoardCrew,
}

/// Why a run cannot start.
#[derive(Drop)]
pub enum Unprepared {
    /// The first graph of the program does not fit: it needs so much.
    Small { program: Program, needed: Room },
    Memory,
}

impl BoardCrew {
    // So many workers over the state, with a deque for each where `steal` asks for them, and one
    // queue for all where it does not.
    fn gather(
        alloc: Global,
        state: State,
        workers: u8,
        widest: u32,
        steal: bool,
    ) -> Result<BoardCrew, Memory>
        requires workers { (0 < workers) × (workers ≤ 16) }
        requires state { (state.journal ≡ []) × (state.full ≡ None) }
        ensures crew { IfOk result (AreGathered widest) }
        ensures store { IfOk result (λ crew. let store = store_in crew in
            (stores.program_of store ≡ state.program) × (stores.limits_of store ≡ state.limits)
            × (stores.workers_of store ≡ workers)) }
    {
        if steal {
            let crew = gather::<StealBoard>(alloc, state, workers, widest)?;
            return Ok(BoardCrew::Steal(crew));
        }
        let crew = gather::<RuledBoard>(alloc, state, workers, widest)?;
        Ok(BoardCrew::Ruled(crew))
    }
}

/// Takes all the memory of a run by so many workers. They hand nodes over on a queue of 4,096, or,
/// where `steal` asks for it, each has a deque of its own, and takes from the others' where that is
/// empty.
///
/// # Errors
/// `Small` where the first graph does not fit, with what it needs; the program is handed back.
/// `Memory` where there was not the memory, whether it fits or not; nothing is left then.
pub fn prepare(
    alloc: Global,
    program: Program,
    limits: Limits,
    workers: u8,
    steal: bool,
) -> Result<Prepared, Unprepared>
    requires program { IsValid program }
    requires limits { AreLimits limits }
    requires workers { IsUpTo 16 workers }
    ensures ok { IfOk result (IsPrepared program limits workers) }
    ensures err { IfErr result (IsUnprepared program limits) }
{
    let Ok(deciders) = compile(alloc, &program) else {
        return Err(Unprepared::Memory);
    };
    let state = match State::begin(alloc, program, limits) {
        Ok(state) => state,
        Err(NotBegun { program, cause }) => {
            return match cause {
                BeginCause::Small { needed, left: _ } => Err(Unprepared::Small { program, needed }),
                BeginCause::Memory => Err(Unprepared::Memory),
            };
        }
    };
    let Ok(crew) = BoardCrew::gather(alloc, state, workers, deciders.widest(), steal) else {
        return Err(Unprepared::Memory);
    };
    Ok(Prepared { deciders, crew })
}

impl Prepared {
    /// Runs the program to an end, each worker in a thread of its own, where one can be started.
    /// Takes no memory. It may wait for other threads.
    pub fn run<R: Threads + Wait + Sync, G: Gate + Sync>(self, rt: &R, gate: &G) -> EndedRun
        requires { CanRun self }
        ensures { IsRunOf (program_of self) (limits_of self) (workers_of self) result }
    {
        let Prepared { deciders, crew } = self;
        match crew {
            BoardCrew::Ruled(crew) => run(crew, rt, &deciders, gate),
            BoardCrew::Steal(crew) => run(crew, rt, &deciders, gate),
        }
    }
}
