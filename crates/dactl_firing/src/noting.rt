//! Notification on a store.

ghost use Rattle.std.specs.Prelude.{◌≡◌, ◌≤◌, length};
ghost use Rattle.dactl_model.specs.declared.graph.Event.TheVariants.{Note};
ghost use Rattle.dactl_model.specs.Graphs.{HasNode};
ghost use Rattle.dactl_model.specs.Acts.{acts_of_step};
ghost use Rattle.dactl_model.specs.Noting.{noted};

use dactl_model::footprint::Woken;
use dactl_model::graph::NodeId;
use dactl_store::Store;

/// The node gives up its activity and notifies those that wait for it. `woken` gets the nodes that become
/// active, in ascending order. No node's version is changed.
///
/// It takes time for the arcs along which others wait for the node, and to sort the nodes that become active.
pub fn note(store: &mut Store, node: NodeId, woken: &mut Woken)
    requires node { HasNode store.old.graph node }
    requires room { length store.old.graph.nodes ≤ woken.old.room }
    ensures graph { store.new.graph ≡ noted store.old.graph node }
    ensures versions { store.new.versions ≡ store.old.versions }
    ensures room { store.new.room ≡ store.old.room }
    ensures newest { store.new.newest ≡ store.old.newest }
    ensures woken { woken.new.list ≡ acts_of_step store.old.graph (Note node) store.new.graph }
    ensures list_room { woken.new.room ≡ woken.old.room }
{
    store.notify(node, woken);
}
