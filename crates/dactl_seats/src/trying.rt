//! What a seat does: it probes a node, and asks for the step that the probe found.

ghost use Rattle.std.specs.Prelude.{◌≡◌, ◌≤◌, [], All, IfSome};
ghost use Rattle.dactl_model.specs.RuleTold.{Shows};
ghost use Rattle.dactl_shared.specs.Stores.{MayRead, WasShown, WorksFor, program_of};

use crate::table::Table;
use dactl_decide::Deciders;
use dactl_model::footprint::{Attempt, Footprint, Woken};
use dactl_model::graph::NodeId;
use dactl_probe::{Next, Probe};
use dactl_shared::{SharedStore, WorkerSeat};
use dactl_state::Answer;
use std::alloc::Global;
use std::sync::Wait;

/// What a commit answered, and the nodes that it made active.
#[derive(Drop)]
pub(crate) struct Reply {
    pub answer: Answer,
    pub woken: Woken,
}

// Reads what the probe asks for, each node in a turn of its own.
fn gathered<R: Wait>(
    rt: &R,
    store: &SharedStore,
    seat: &mut WorkerSeat,
    mut probe: Probe,
) -> Attempt
    requires own { WorksFor store.now seat.old }
    requires none { probe.readings ≡ [] }
    requires node { MayRead store.now seat.old probe.node }
    ensures own { WorksFor store.now seat.new }
    ensures shows { Shows probe.entry.decisions.program result.footprint.readings
        result.footprint.bindings result.event }
    ensures shown { All (WasShown store.now seat.new) result.footprint.readings }
{
    while let Next::Need(node) = probe.need() {
        let reading = store.read(rt, seat, node);
        probe.step(reading);
    }
    probe.attempt()
}

/// What a probe of the node asks for.
pub(crate) fn probed<R: Wait>(
    rt: &R,
    alloc: Global,
    store: &SharedStore,
    deciders: &Deciders,
    seat: &mut WorkerSeat,
    node: NodeId,
) -> Option<Attempt>
    requires program { deciders.now.program ≡ program_of store.now }
    requires own { WorksFor store.now seat.old }
    requires node { MayRead store.now seat.old node }
    ensures own { WorksFor store.now seat.new }
    ensures shows { IfSome result (λ a. Shows (program_of store.now) a.footprint.readings
        a.footprint.bindings a.event) }
    ensures shown { IfSome result (λ a. All (WasShown store.now seat.new) a.footprint.readings) }
{
    let footprint = Footprint::with_room(alloc, deciders.widest()).ok()?;
    let probe = Probe::start(deciders, node, footprint);
    Some(gathered(rt, store, seat, probe))
}

/// The node of this number, where there is one.
pub(crate) fn there<R: Wait>(
    rt: &R,
    store: &SharedStore,
    seat: &mut WorkerSeat,
    number: u32,
) -> Option<NodeId>
    requires { WorksFor store.now seat.old }
    ensures own { WorksFor store.now seat.new }
    ensures known { IfSome result (MayRead store.now seat.new) }
{
    if number < store.count(rt, seat) {
        Some(NodeId { number })
    } else {
        None
    }
}

/// What a probe of the node of this number asks for, where there is one.
pub(crate) fn probed_at<R: Wait>(
    rt: &R,
    alloc: Global,
    table: &Table,
    seat: &mut WorkerSeat,
    number: u32,
) -> Option<Attempt>
    requires { WorksFor table.now.store seat.old }
    ensures own { WorksFor table.now.store seat.new }
    ensures shows { IfSome result (λ a. Shows (program_of table.now.store) a.footprint.readings
        a.footprint.bindings a.event) }
    ensures shown { IfSome result
        (λ a. All (WasShown table.now.store seat.new) a.footprint.readings) }
{
    let node = there(rt, &table.store, seat, number)?;
    probed(rt, alloc, &table.store, &table.deciders, seat, node)
}

/// What the store answers to the attempt, which it may be asked again.
pub(crate) fn told<R: Wait>(
    rt: &R,
    alloc: Global,
    store: &SharedStore,
    seat: &mut WorkerSeat,
    attempt: &Attempt,
) -> Option<Reply>
    requires own { WorksFor store.now seat.old }
    requires shows { Shows (program_of store.now) attempt.now.footprint.readings
        attempt.now.footprint.bindings attempt.now.event }
    requires shown { All (WasShown store.now seat.old) attempt.now.footprint.readings }
    ensures own { WorksFor store.now seat.new }
    ensures shown { All (WasShown store.now seat.new) attempt.now.footprint.readings }
{
    let mut woken = Woken::with_room(alloc, store.limits().nodes).ok()?;
    let answer = store.commit(rt, seat, attempt, &mut woken);
    Some(Reply { answer, woken })
}

/// The answer alone.
pub(crate) fn answer<R: Wait>(
    rt: &R,
    alloc: Global,
    store: &SharedStore,
    seat: &mut WorkerSeat,
    attempt: &Attempt,
) -> Option<Answer>
    requires own { WorksFor store.now seat.old }
    requires shows { Shows (program_of store.now) attempt.now.footprint.readings
        attempt.now.footprint.bindings attempt.now.event }
    requires shown { All (WasShown store.now seat.old) attempt.now.footprint.readings }
    ensures own { WorksFor store.now seat.new }
    ensures shown { All (WasShown store.now seat.new) attempt.now.footprint.readings }
{
    let told = told(rt, alloc, store, seat, attempt)?;
    Some(told.answer)
}

/// What the store answers to a probe of the node of this number, and its commit at once.
pub(crate) fn tried_at<R: Wait>(
    rt: &R,
    alloc: Global,
    table: &Table,
    seat: &mut WorkerSeat,
    number: u32,
) -> Option<Answer>
    requires { WorksFor table.now.store seat.old }
    ensures { WorksFor table.now.store seat.new }
{
    let attempt = probed_at(rt, alloc, table, seat, number)?;
    answer(rt, alloc, &table.store, seat, &attempt)
}

/// What the store answers to a probe of an active node, and its commit at once. None where no node
/// is active, or memory is wanting.
pub(crate) fn tried_next<R: Wait>(
    rt: &R,
    alloc: Global,
    store: &SharedStore,
    deciders: &Deciders,
    seat: &mut WorkerSeat,
) -> Option<Answer>
    requires program { deciders.now.program ≡ program_of store.now }
    requires own { WorksFor store.now seat.old }
    ensures { WorksFor store.now seat.new }
{
    let node = store.next_active(rt, seat)?;
    let attempt = probed(rt, alloc, store, deciders, seat, node)?;
    answer(rt, alloc, store, seat, &attempt)
}
