//! Notification: a node gives up its activity, and those that wait for it wait for one fewer.

ghost use Rattle.std.specs.Prelude.{◌≡◌, ◌<◌, ◌≤◌, ◌&&◌, not, [], IsTrue, All, length, map};
ghost use Rattle.std.specs.Prelude.{slice_set};
ghost use Rattle.dactl_arcs.specs.Pool.{targets};
ghost use Rattle.dactl_model.specs.declared.graph.Event.TheVariants.{Note};
ghost use Rattle.dactl_model.specs.Graphs.{HasNode};
ghost use Rattle.dactl_model.specs.Acts.{marks_active, acts_of_step};
ghost use Rattle.dactl_model.specs.Noting.{noted_mark, noted};
ghost use Rattle.dactl_store.specs.Table.{record_of};
ghost use Rattle.dactl_store.specs.Notifying.{HasOwners, HasNotified, AreNotified, IsWokenList};
ghost use Rattle.dactl_store.specs.Notifying.{wakes_owner};

use crate::store::Store;
use crate::table::NodeTable;
use dactl_arcs::ArcPool;
use dactl_model::footprint::Woken;
use dactl_model::graph::{Mark, NodeId};

// The mark after one notification.
fn mark_after(mark: Mark) -> Mark
    ensures { result ≡ noted_mark 1 mark }
{
    match mark {
        Mark::Waiting(awaited) if awaited <= 1 => Mark::Active,
        Mark::Waiting(awaited) => Mark::Waiting(awaited - 1),
        _ => mark,
    }
}

// Whether the second mark is active and the first one isn't.
fn is_woken(before: Mark, after: Mark) -> bool
    ensures { result ≡ (marks_active after && not (marks_active before)) }
{
    matches!(after, Mark::Active) && !matches!(before, Mark::Active)
}

// Notifies the owner of an arc along which it waits, and adds it to the list where it becomes active.
fn notify_owner(nodes: &mut NodeTable, owner: u32, woken: &mut Woken)
    requires owner { owner < length nodes.old.records }
    requires room { IsTrue (wakes_owner owner nodes.old.records) →
        length woken.old.list < woken.old.room }
    ensures { HasNotified owner nodes.old woken.old nodes.new woken.new }
{
    let before = nodes.get(owner).mark;
    let after = mark_after(before);
    nodes.set_mark(owner, after);
    if is_woken(before, after) {
        woken.push(NodeId { number: owner });
    }
}

// Notifies the owner of each arc along which it waits for the target, once for each such arc, and lists
// those that become active.
fn notify_owners(nodes: &mut NodeTable, arcs: &ArcPool, target: u32, woken: &mut Woken)
    requires target { target < targets arcs.now }
    requires owners { HasOwners nodes.old.records arcs.now.arcs }
    requires room { length nodes.old.records ≤ woken.old.room }
    requires empty { woken.old.list ≡ [] }
    ensures notified { AreNotified arcs.now.arcs target nodes.old.records nodes.new.records }
    ensures woken { IsWokenList nodes.old.records nodes.new.records woken.new.list }
    ensures room { nodes.new.room ≡ nodes.old.room }
    ensures list_room { woken.new.room ≡ woken.old.room }
{
    let mut at = arcs.first_into(target);
    while let Some(arc) = at {
        notify_owner(nodes, arcs.arc(arc).owner, woken);
        at = arcs.next_into(arc);
    }
}

impl Store {
    /// The active node becomes idle, and notifies the owner of each arc that waits for it: the arc waits no
    /// more, and its owner waits for one fewer, or is active where it waits for none. `woken` gets the nodes
    /// that become active, in ascending order.
    ///
    /// It takes time for the arcs along which others wait for the node, and to sort the nodes that become active.
    /// Arcs into it along which nobody waits cost nothing.
    pub fn notify(&mut self, n: NodeId, woken: &mut Woken)
        requires node { HasNode self.old.graph n }
        requires room { length self.old.graph.nodes ≤ woken.old.room }
        ensures graph { self.new.graph ≡ noted self.old.graph n }
        ensures versions { self.new.versions ≡ self.old.versions }
        ensures room { self.new.room ≡ self.old.room }
        ensures newest { self.new.newest ≡ self.old.newest }
        ensures woken { woken.new.list ≡ acts_of_step self.old.graph (Note n) self.new.graph }
        ensures list_room { woken.new.room ≡ woken.old.room }
    {
        woken.clear();
        self.set_mark(n, Mark::Idle);
        notify_owners(&mut self.nodes, &self.arcs, n.number, woken);
        self.arcs.clear_waits(n.number);
        woken.sort();
    }
}
