//! The store that workers share, and their seats.

ghost use Rattle.std.specs.Prelude.{◌≡◌, ◌+◌, ◌<◌, ◌≤◌};
ghost use Rattle.dactl_turn.specs.Seats.{number_of as turn_number_of, made_of, first_of};
ghost use Rattle.dactl_turn.specs.Seats.{IsIdle, IsSeatOf};
ghost use Rattle.dactl_shared.specs.Counts.{entry_by, stale_by, passive_by};

use crate::counts::{entry_of, passive_after, stale_after};
use crate::held::Held;
use dactl_model::Memory;
use dactl_model::footprint::{Attempt, Woken};
use dactl_model::graph::{Limits, NodeId};
use dactl_model::reading::Reading;
use dactl_state::{Answer, State};
use dactl_turn::{Seat, Turn};
use std::alloc::Global;
use std::sync::Wait;

/// The state of a run, shared by 1 to 16 workers. Each of them has a seat, and calls through it.
/// Each call of `count`, `next_active`, `read` and `commit` is one turn: no other call comes
/// between, and turns come in the order of asking. None of them takes memory.
///
/// It may be lent to other threads, and the seats may move there.
#[derive(Drop)]
pub struct SharedStore {
    turn: Turn<Held>,
    maker: Seat<Held>,
    workers: u8,
    limits: Limits,
    ghost same: { limits ≡ (first_of turn).state.value.limits },
    ghost own: { IsSeatOf turn maker },
    ghost idle: { IsIdle maker },
    ghost first: { turn_number_of maker ≡ 0 },
    ghost made: { made_of maker ≡ workers + 1 },
    ghost few: { workers ≤ 16 },
}

/// The seat of one worker: the right to call, and what its calls have shown so far. It counts the
/// answers Stale and Passive of its commits, each up to 2^64 - 1.
#[derive(Drop)]
pub struct WorkerSeat {
    seat: Seat<Held>,
    number: u8,
    stale: u64,
    passive: u64,
    ghost idle: { IsIdle seat },
    ghost same: { turn_number_of seat ≡ number },
    ghost counted: { 0 < number },
}

impl WorkerSeat {
    /// The worker's number, from 1 to the number of workers. Its entries carry it.
    pub fn number(&self) -> u8
        ensures { result ≡ self.now.number }
    {
        self.number
    }

    /// How many of its commits were answered Stale.
    pub fn stale(&self) -> u64
        ensures { result ≡ self.now.stale }
    {
        self.stale
    }

    /// How many of its commits were answered Passive.
    pub fn passive(&self) -> u64
        ensures { result ≡ self.now.passive }
    {
        self.passive
    }
}

impl SharedStore {
    ghost use Rattle.std.specs.Prelude.{[], ◌∷◌, ◌++◌, length, vec_len, None, All, IfOk};
    ghost use Rattle.std.specs.Prelude.{IfSome, IfNone, MatchOption};
    ghost use Rattle.dactl_model.specs.Matching.{IsActive};
    ghost use Rattle.dactl_model.specs.Ending.{IsPassive};
    ghost use Rattle.dactl_model.specs.Readings.{targets_of};
    ghost use Rattle.dactl_model.specs.RuleTold.{Shows};
    ghost use Rattle.dactl_store.specs.Held.{IsReadingOf};
    ghost use Rattle.dactl_state.specs.Runs.{IsCourse};
    ghost use Rattle.dactl_turn.specs.Gives.{listed, entries_of, by_worker, mine_in, StartsWith};
    ghost use Rattle.dactl_shared.specs.Endings.{HasEnd, KeepsEnd, HasSeenEnd, HadSeenEnd};
    ghost use Rattle.dactl_shared.specs.Endings.{TellsEnd};
    ghost use Rattle.dactl_shared.specs.Stores.{program_of, limits_of, workers_of, mine_of};
    ghost use Rattle.dactl_shared.specs.Stores.{joined, rejoined, WorksFor, SameStore, SameCounts};
    ghost use Rattle.dactl_shared.specs.Stores.{IsOver, IsFresh, IsNew, AreNumbered, IsMaker};
    ghost use Rattle.dactl_shared.specs.Stores.{MayRead, WasShown, Looks, TakesStep, IsSigned};

    /// A store over a state without entries, and the seats of its workers, in the order of their
    /// numbers from 1.
    ///
    /// # Errors
    /// Memory where there is none. The state is gone then, with its program.
    pub fn new(
        alloc: Global,
        state: State,
        workers: u8,
    ) -> Result<(SharedStore, Vec<WorkerSeat>), Memory>
        requires workers { (0 < workers) × (workers ≤ 16) }
        requires state { (state.journal ≡ []) × (state.full ≡ None) }
        ensures store { IfOk result (λ r. IsOver state workers r.0) }
        ensures seats { IfOk result (λ r. (vec_len r.1 ≡ workers) × All (IsFresh r.0) r.1.items) }
        ensures numbers { IfOk result (λ r. AreNumbered r.1.items) }
    {
        let limits = state.limits();
        let mut seats = Vec::with_capacity(alloc, usize::from(workers))?;
        let state = Box::new(alloc, state)?;
        let (turn, mut maker) = Turn::new(alloc, Held { state })?;
        SharedStore::deal(&turn, &mut maker, &mut seats, workers)?;
        let store = SharedStore {
            turn,
            maker,
            workers,
            limits,
        };
        Ok((store, seats))
    }

    // Seats for the workers, numbered from 1.
    fn deal(
        turn: &Turn<Held>,
        maker: &mut Seat<Held>,
        seats: &mut Vec<WorkerSeat>,
        workers: u8,
    ) -> Result<(), Memory>
        requires workers { workers ≤ 16 }
        requires none { seats.old.items ≡ [] }
        requires maker { IsMaker turn.now 1 maker.old }
        ensures maker { IfOk result (λ _. IsMaker turn.now (workers + 1) maker.new) }
        ensures count { IfOk result (λ _. vec_len seats.new ≡ workers) }
        ensures seats { IfOk result (λ _. All (IsNew turn.now) seats.new.items) }
        ensures numbers { IfOk result (λ _. AreNumbered seats.new.items) }
    {
        for i in 0..workers {
            let seat = turn.split(maker);
            seats.push(WorkerSeat {
                seat,
                number: i + 1,
                stale: 0,
                passive: 0,
            })?;
        }
        Ok(())
    }

    /// The limits of the run.
    pub fn limits(&self) -> Limits
        ensures { result ≡ limits_of self.now }
    {
        self.limits
    }

    /// How many nodes there are. Each with a lesser number may be read through the seat from then
    /// on. It may wait.
    pub fn count<R: Wait>(&self, rt: &R, seat: &mut WorkerSeat) -> u32
        requires { WorksFor self.now seat.old }
        ensures own { WorksFor self.now seat.new × (seat.new.number ≡ seat.old.number) }
        ensures count { Looks self.now seat.old seat.new (λ r. result ≡ length r.held.graph.nodes) }
        ensures known { (n : NodeId) → n.number < result → MayRead self.now seat.new n }
        ensures mine { mine_of seat.new ≡ mine_of seat.old }
        ensures counts { SameCounts seat.old seat.new }
    {
        let held = self.turn.take(rt, &mut seat.seat);
        let nodes = held.state.count();
        self.turn.give(&mut seat.seat, held, None);
        nodes
    }

    /// An active node, whether the run has an end or not. None where no node is active, which is an
    /// end. Further calls go round the active nodes. It may wait.
    pub fn next_active<R: Wait>(&self, rt: &R, seat: &mut WorkerSeat) -> Option<NodeId>
        requires { WorksFor self.now seat.old }
        ensures own { WorksFor self.now seat.new × (seat.new.number ≡ seat.old.number) }
        ensures active { Looks self.now seat.old seat.new (λ r.
            MatchOption result (IsPassive r.held.graph) (IsActive r.held.graph)) }
        ensures known { IfSome result (MayRead self.now seat.new) }
        ensures ended { IfNone result (HasSeenEnd self.now seat.new) }
        ensures mine { mine_of seat.new ≡ mine_of seat.old }
        ensures counts { SameCounts seat.old seat.new }
    {
        let mut held = self.turn.take(rt, &mut seat.seat);
        let node = held.state.next_active();
        self.turn.give(&mut seat.seat, held, None);
        node
    }

    /// What a node has, with its version. Its targets may be read through the seat from then on. It
    /// may wait.
    pub fn read<R: Wait>(&self, rt: &R, seat: &mut WorkerSeat, node: NodeId) -> Reading
        requires own { WorksFor self.now seat.old }
        requires node { MayRead self.now seat.old node }
        ensures own { WorksFor self.now seat.new × (seat.new.number ≡ seat.old.number) }
        ensures read { Looks self.now seat.old seat.new (λ r. IsReadingOf r.held node result) }
        ensures shown { WasShown self.now seat.new result }
        ensures known { All (MayRead self.now seat.new) (targets_of result.targets) }
        ensures mine { mine_of seat.new ≡ mine_of seat.old }
        ensures counts { SameCounts seat.old seat.new }
    {
        let held = self.turn.take(rt, &mut seat.seat);
        // What it ensures of the state shows that the node is there.
        held.state.count();
        let reading = held.state.read(node);
        self.turn.give(&mut seat.seat, held, None);
        reading
    }

    /// Takes the step of the attempt, if the state lets it, as `State::commit` says: where it
    /// answers Committed, the entry carries the seat's number, and `woken` has the nodes that it
    /// made active, which may be read through the seat from then on. With each other answer the
    /// list is empty. Full and Ended tell of an end. It may wait.
    pub fn commit<R: Wait>(
        &self,
        rt: &R,
        seat: &mut WorkerSeat,
        attempt: &Attempt,
        woken: &mut Woken,
    ) -> Answer
        requires own { WorksFor self.now seat.old }
        requires shows { let footprint = attempt.now.footprint in
            Shows (program_of self.now) footprint.readings footprint.bindings attempt.now.event }
        requires shown { All (WasShown self.now seat.old) attempt.now.footprint.readings }
        requires woken { (limits_of self.now).nodes ≤ woken.old.room }
        ensures own { WorksFor self.now seat.new × (seat.new.number ≡ seat.old.number) }
        ensures step { TakesStep self.now seat.old seat.new
            attempt.now.event attempt.now.footprint.readings result woken.new.list }
        ensures known { All (MayRead self.now seat.new) woken.new.list }
        ensures ended { TellsEnd result → HasSeenEnd self.now seat.new }
        ensures mine { mine_of seat.new ≡
            mine_of seat.old ++ listed (entry_by result seat.old.number attempt.now.event) }
        ensures stale { seat.new.stale ≡ stale_by result seat.old.stale }
        ensures passive { seat.new.passive ≡ passive_by result seat.old.passive }
        ensures room { woken.new.room ≡ woken.old.room }
    {
        let mut held = self.turn.take(rt, &mut seat.seat);
        let answer = held.state.commit(attempt, seat.number, woken);
        let entry = entry_of(&answer, seat.number, attempt.event);
        self.turn.give(&mut seat.seat, held, entry);
        seat.stale = stale_after(&answer, seat.stale);
        seat.passive = passive_after(&answer, seat.passive);
        answer
    }

    /// Takes a seat back, and keeps what it had seen by its number.
    pub fn rejoin(&mut self, seat: WorkerSeat)
        requires { WorksFor self.old seat }
        ensures same { SameStore self.old self.new }
        ensures kept { rejoined self.new ≡ joined seat ∷ rejoined self.old }
    {
        let WorkerSeat {
            seat,
            number: _,
            stale: _,
            passive: _,
        } = seat;
        self.turn.join(&mut self.maker, seat);
    }

    /// The state, once every seat has been taken back.
    pub fn close(self) -> State
        requires { length (rejoined self) ≡ workers_of self }

        // The state goes on from what each seat had seen.
        ensures base { (result.program ≡ program_of self) × (result.limits ≡ limits_of self) }
        ensures begins { All (λ j. StartsWith result.journal (entries_of j.gives)) (rejoined self) }
        ensures full { All (KeepsEnd result) (rejoined self) }
        ensures course { IsCourse result }
        ensures ends { All (λ j. HadSeenEnd self j → HasEnd result) (rejoined self) }

        // Each entry is that of a seat.
        ensures mine { All (λ j. by_worker j.number result.journal ≡ mine_in j) (rejoined self) }
        ensures numbers { All (λ j. (0 < j.number) × (j.number ≤ workers_of self)) (rejoined self) }
        ensures signed { All (IsSigned (rejoined self)) result.journal }
    {
        let SharedStore {
            turn,
            maker,
            workers: _,
            limits: _,
        } = self;
        let Held { state } = turn.close(maker);
        let _ = state.end();
        Box::into_inner(state)
    }
}
