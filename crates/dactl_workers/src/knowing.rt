//! Which nodes a worker knows to be there. Node numbers have no gaps, so a node that is there tells
//! of all nodes before it, and the number of nodes known is enough.

ghost use Rattle.std.specs.Prelude.{◌≡◌, ◌+◌, max};
ghost use Rattle.dactl_model.specs.Readings.{targets_of};
ghost use Rattle.dactl_workers.specs.Turns.{IsKnownWith};

use dactl_model::graph::NodeId;
use dactl_model::reading::Reading;

/// How many nodes are known where this node is there too.
pub(crate) fn known_with(known: u64, node: NodeId) -> u64
    ensures { result ≡ max known (node.number + 1) }
{
    known.max(u64::from(node.number) + 1)
}

/// How many nodes are known where the targets of the reading are there too.
pub(crate) fn known_with_targets(mut known: u64, reading: &Reading) -> u64
    ensures { IsKnownWith known (targets_of reading.now.targets) result }
{
    for node in &reading.targets.nodes[..reading.targets.count as usize] {
        known = known_with(known, *node);
    }
    known
}

/// How many nodes are known where the last of the nodes is there too.
pub(crate) fn known_with_last(known: u64, nodes: &[NodeId]) -> u64
    ensures { IsKnownWith known nodes.now result }
{
    match nodes.last() {
        Some(node) => known_with(known, *node),
        None => known,
    }
}
