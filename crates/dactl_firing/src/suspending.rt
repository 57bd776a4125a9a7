//! The node at which a rule fires: it gives up its activity, or waits again.

ghost use Rattle.std.specs.Prelude.{◌≡◌};
ghost use Rattle.dactl_model.specs.Graphs.{HasNode, flags, node_at};
ghost use Rattle.dactl_model.specs.Firing as firing;
ghost use Rattle.dactl_store.specs.Held.{IsValid};
ghost use Rattle.dactl_firing.specs.Suspending.{arcs_in, settled_mark};

use dactl_model::graph::{Mark, NodeId};
use dactl_model::view::View;
use dactl_store::Store;

// Along how many of its arcs the node waits.
fn count_flags(store: &Store, node: NodeId) -> u8
    requires valid { IsValid store.now }
    requires node { HasNode store.now.graph node }
    ensures { result ≡ flags (arcs_in (node_at store.now.graph node)) }
{
    let mut count = 0;
    for place in 0..store.arity(node) {
        if store.arc(node, place).waits {
            count += 1;
        }
    }
    count
}

// The mark of a node that is to wait for so many notifications, and may wait along so many arcs.
fn suspended_mark(suspend: u8, waits: u8) -> Mark
    ensures { result ≡ firing.suspended_mark suspend waits }
{
    if waits == 0 {
        return Mark::Active;
    }
    Mark::Waiting(suspend.min(waits))
}

/// The mark that the node gets before the wakes, where its rule asks that it wait for so many notifications
/// again, or for none. It looks at the node's arcs, 16 at most, only where it is to wait.
pub fn settled_mark(store: &Store, node: NodeId, suspend: u8) -> Mark
    requires valid { IsValid store.now }
    requires node { HasNode store.now.graph node }
    ensures { result ≡ settled_mark store.now.graph node suspend }
{
    if suspend == 0 {
        return Mark::Idle;
    }
    suspended_mark(suspend, count_flags(store, node))
}
