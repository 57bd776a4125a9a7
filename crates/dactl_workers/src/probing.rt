//! How a node is tried: probed between turns of the store, and then asked a step for.

ghost use Rattle.std.specs.Prelude.{◌≡◌, ◌≤◌, ◌++◌, [], All, length};
ghost use Rattle.dactl_model.specs.Acts.{node_of_event};
ghost use Rattle.dactl_model.specs.Readings.{targets_of};
ghost use Rattle.dactl_model.specs.RuleTold.{Shows};
ghost use Rattle.dactl_shared.specs.Counts.{entry_by, stale_by, passive_by};
ghost use Rattle.dactl_shared.specs.Endings.{HasSeenEnd, TellsEnd};
ghost use Rattle.dactl_shared.specs.Stores.{WorksFor, seen_of, mine_of, program_of, limits_of};
ghost use Rattle.dactl_shared.specs.Stores.{SameCounts, MayRead, WasShown, Looks, TakesStep};
ghost use Rattle.dactl_turn.specs.Gives.{listed};
ghost use Rattle.dactl_store.specs.Held.{IsReadingOf};
ghost use Rattle.dactl_workers.specs.Turns.{IsSeated, HasFootprint, MayReadBelow, HasLooked};
ghost use Rattle.dactl_workers.specs.Turns.{IsReadSince, Tells};

use crate::gate::Gate;
use crate::knowing::known_with_targets;
use crate::worker::Worker;
use dactl_decide::Deciders;
use dactl_model::footprint::{Attempt, Woken};
use dactl_model::graph::NodeId;
use dactl_model::reading::Reading;
use dactl_probe::{Next, Probe};
use dactl_shared::{SharedStore, WorkerSeat};
use dactl_state::Answer;
use std::sync::Wait;

/// Reads a node, and then passes the gate.
fn read_node<G: Gate, R: Wait>(
    rt: &R,
    store: &SharedStore,
    gate: &G,
    seat: &mut WorkerSeat,
    node: NodeId,
) -> Reading
    requires own { WorksFor store.now seat.old }
    requires node { MayRead store.now seat.old node }
    ensures own { WorksFor store.now seat.new × (seat.new.number ≡ seat.old.number) }
    ensures read { Looks store.now seat.old seat.new (λ r. IsReadingOf r.held node result) }
    ensures shown { WasShown store.now seat.new result }
    ensures known { All (MayRead store.now seat.new) (targets_of result.targets) }
    ensures mine { mine_of seat.new ≡ mine_of seat.old }
    ensures counts { SameCounts seat.old seat.new }
    ensures passed { G.passed_after_read gate.now seat.new.number }
{
    let reading = store.read(rt, seat, node);
    gate.after_read(seat.number());
    reading
}

/// Reads what the probe asks for, each node in a turn of its own.
fn gather<G: Gate, R: Wait>(
    rt: &R,
    store: &SharedStore,
    gate: &G,
    seat: &mut WorkerSeat,
    known: &mut u64,
    mut probe: Probe,
) -> Attempt
    requires own { WorksFor store.now seat.old }
    requires known { MayReadBelow store.now seat.old known.old }
    requires program { probe.decisions.program ≡ program_of store.now }
    requires none { probe.readings ≡ [] }
    requires node { MayRead store.now seat.old probe.node }
    ensures looked { HasLooked store.now seat.old seat.new }
    ensures counts { SameCounts seat.old seat.new }
    ensures known { MayReadBelow store.now seat.new known.new }
    ensures shows { Shows (program_of store.now) result.footprint.readings
        result.footprint.bindings result.event }
    ensures node { node_of_event result.event ≡ probe.entry.node }
    ensures shown { All (WasShown store.now seat.new) result.footprint.readings }
    ensures since { All (IsReadSince (program_of store.now) (seen_of seat.old) (seen_of seat.new))
        result.footprint.readings }
    ensures room { result.footprint.room ≡ probe.entry.room }
    ensures passed { All (λ _. G.passed_after_read gate.now seat.new.number)
        result.footprint.readings }
{
    while let Next::Need(node) = probe.need() {
        let reading = read_node(rt, store, gate, seat, node);
        *known = known_with_targets(*known, &reading);
        probe.step(reading);
    }
    probe.attempt()
}

/// Asks for the step of the attempt, where the gate was passed before.
fn ask_step<G: Gate, R: Wait>(
    rt: &R,
    store: &SharedStore,
    gate: &G,
    seat: &mut WorkerSeat,
    attempt: &Attempt,
    woken: &mut Woken,
) -> Answer
    requires passed { G.passed_before_commit gate.now seat.old.number }
    requires own { WorksFor store.now seat.old }
    requires shows { let footprint = attempt.now.footprint in
        Shows (program_of store.now) footprint.readings footprint.bindings attempt.now.event }
    requires shown { All (WasShown store.now seat.old) attempt.now.footprint.readings }
    requires woken { (limits_of store.now).nodes ≤ woken.old.room }
    ensures own { WorksFor store.now seat.new × (seat.new.number ≡ seat.old.number) }
    ensures step { TakesStep store.now seat.old seat.new
        attempt.now.event attempt.now.footprint.readings result woken.new.list }
    ensures known { All (MayRead store.now seat.new) woken.new.list }
    ensures ended { TellsEnd result → HasSeenEnd store.now seat.new }
    ensures mine { mine_of seat.new ≡
        mine_of seat.old ++ listed (entry_by result seat.old.number attempt.now.event) }
    ensures stale { seat.new.stale ≡ stale_by result seat.old.stale }
    ensures passive { seat.new.passive ≡ passive_by result seat.old.passive }
    ensures room { woken.new.room ≡ woken.old.room }
{
    let _ = gate;
    store.commit(rt, seat, attempt, woken)
}

impl<H> Worker<H> {
    /// Probes the node and asks for its step.
    pub(crate) fn try_node<G: Gate, R: Wait>(
        &mut self,
        rt: &R,
        store: &SharedStore,
        deciders: &Deciders,
        gate: &G,
        node: NodeId,
    ) -> Answer
        requires deciders { deciders.now.program ≡ program_of store.now }
        requires footprint { HasFootprint deciders.now.widest self.old }
        requires seated { IsSeated store.now self.old }
        requires node { MayRead store.now self.old.seat node }
        ensures footprint { HasFootprint deciders.now.widest self.new }
        ensures seated { IsSeated store.now self.new }
        ensures same { self.new ≡ record self.old {
          seat = self.new.seat;
          footprint = self.new.footprint;
          woken = self.new.woken;
          known = self.new.known;
        } }
        ensures there { All (MayRead store.now self.new.seat) self.new.woken.list }
        ensures tells { Tells store.now node self.old.seat self.new.seat
            self.new.woken.list result }
        ensures passed { G.passed_before_commit gate.now self.new.seat.number }
    {
        let Some(footprint) = self.footprint.take() else {
            unreachable!()
        };
        let probe = Probe::start(deciders, node, footprint);
        let attempt = gather(rt, store, gate, &mut self.seat, &mut self.known, probe);
        gate.before_commit(self.seat.number());
        let (seat, woken) = (&mut self.seat, &mut self.woken);
        let answer = ask_step(rt, store, gate, seat, &attempt, woken);
        self.footprint = Some(attempt.footprint);
        answer
    }
}
