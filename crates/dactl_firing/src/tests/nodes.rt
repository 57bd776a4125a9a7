//! Whether the nodes of a store are as they should be.

ghost use Rattle.std.specs.Prelude.{◌≡◌};
ghost use Rattle.dactl_model.specs.Graphs.{HasNode};
ghost use Rattle.dactl_store.specs.Held.{IsValid};

use dactl_model::graph::{Label, Mark, NodeId};
use dactl_model::view::View;
use dactl_store::Store;

pub fn id(number: u32) -> NodeId
    ensures { result.number ≡ number }
{
    NodeId { number }
}

/// Whether these are the arcs of the node, each with its flag.
fn has_arcs(store: &Store, node: NodeId, arcs: &[(u32, bool)]) -> bool
    requires valid { IsValid store.now }
    requires node { HasNode store.now.graph node }
{
    let count = store.arity(node);
    if arcs.len() != count as usize {
        return false;
    }
    for place in 0..count {
        let arc = store.arc(node, place);
        let (target, waits) = arcs[place as usize];
        if arc.target.number != target || arc.waits != waits {
            return false;
        }
    }
    true
}

/// Whether there is a node of this number, with this version, mark and label and these arcs.
pub fn is_node(
    store: &Store,
    number: u32,
    version: u32,
    mark: Mark,
    label: Label,
    arcs: &[(u32, bool)],
) -> bool {
    if number >= store.next_number() {
        return false;
    }
    let node = id(number);
    store.version(node) == version
        && store.mark(node) == mark
        && store.label(node) == label
        && has_arcs(store, node, arcs)
}
