//! What is read of a node: its label, its targets and its version.

ghost use Rattle.std.specs.Prelude.{◌≡◌, ◌<◌, ◌≤◌, ◌^◌, length, map};
ghost use Rattle.dactl_model.specs.Graphs.{HasNode};
ghost use Rattle.dactl_model.specs.Readings.{targets_of};
ghost use Rattle.dactl_store.specs.Held.{IsValid, IsVersionAt, IsReadingOf};
ghost use Rattle.dactl_store.specs.Layout.{own_part, arc_of, version_of, IsWithin};

use crate::store::Store;
use crate::table::NodeRecord;
use dactl_arcs::ArcPool;
use dactl_model::graph::NodeId;
use dactl_model::reading::{Reading, Targets};

// The greatest of the node's own version and of the last changes of its arcs.
fn version_along(arcs: &ArcPool, node: NodeRecord) -> u32
    requires within { IsWithin arcs.now.arcs node.span }
    requires fits { length arcs.now.arcs < 2 ^ 32 }
    ensures { result ≡ version_of arcs.now.changed node }
{
    let mut version = node.version;
    for place in 0..node.span.count {
        version = version.max(arcs.changed(node.span.first + place as u32));
    }
    version
}

// The targets of the node's arcs, and its version.
fn read_along(arcs: &ArcPool, node: NodeRecord) -> (Targets, u32)
    requires within { IsWithin arcs.now.arcs node.span }
    requires fits { length arcs.now.arcs < 2 ^ 32 }
    requires few { node.span.count ≤ 16 }
    ensures targets { targets_of result.0 ≡
        map (λ a. (arc_of a).target) (own_part arcs.now.arcs node.span) }
    ensures version { result.1 ≡ version_of arcs.now.changed node }
{
    let mut targets = Targets {
        count: node.span.count,
        nodes: [NodeId { number: 0 }; 16],
    };
    let mut version = node.version;
    for place in 0..node.span.count {
        let arc = node.span.first + place as u32;
        let (record, change) = arcs.arc_and_change(arc);
        version = version.max(change);
        targets.nodes[place as usize] = NodeId {
            number: record.target,
        };
    }
    (targets, version)
}

impl Store {
    /// The number of the entry that last gave the node its label and targets, or 0 where it has them from
    /// the start. It looks at the node's arcs, 16 at most.
    pub fn version(&self, n: NodeId) -> u32
        requires { HasNode self.now.graph n }
        ensures version { IsVersionAt self.now n result }
        ensures valid { IsValid self.now }
    {
        version_along(&self.arcs, self.nodes.get(n.number))
    }

    /// What is to be read of a node. It looks at the node's arcs, 16 at most.
    pub fn reading(&self, n: NodeId) -> Reading
        requires { HasNode self.now.graph n }
        ensures reading { IsReadingOf self.now n result }
        ensures valid { IsValid self.now }
    {
        let node = self.nodes.get(n.number);
        let (targets, version) = read_along(&self.arcs, node);
        Reading {
            node: n,
            label: node.label,
            targets,
            version,
        }
    }
}
