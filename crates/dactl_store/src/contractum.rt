//! The new nodes of a contractum, added to a store.

ghost use Rattle.std.specs.Prelude.{◌≡◌, ◌+◌, ◌<◌, ◌≤◌, ◌^◌, ◌++◌, All, length, map, IsSomeAnd};
ghost use Rattle.dactl_model.specs.Graphs.{node_at};
ghost use Rattle.dactl_model.specs.Firing.{mentioned, fresh_arc, fresh_node};
ghost use Rattle.dactl_model.specs.Programs.{fresh_arcs};
ghost use Rattle.dactl_model.specs.Ending.{arcs_of};
ghost use Rattle.dactl_store.specs.Held.{with_arcs};
ghost use Rattle.dactl_store.specs.Contractum.{IsNamed, IsTarget, TakesArcs, CanAppend, with_fresh};

use crate::store::Store;
use dactl_model::graph::NodeId;
use dactl_model::program::{FreshArc, FreshNode, Mention};

/// The node that a mention denotes: that of a variable, or a new one, where `first` is the number of the
/// first new node.
pub fn mentioned_node(first: u32, bindings: &[NodeId], mention: Mention) -> NodeId
    requires { IsNamed first bindings.now mention }
    ensures { result ≡ mentioned first bindings.now mention }
{
    match mention {
        Mention::Old(variable) => bindings[variable as usize],
        Mention::Fresh(place) => NodeId {
            number: first + place,
        },
    }
}

/// How many arcs the new nodes have together.
pub fn arc_count(fresh: &[FreshNode]) -> u32
    requires { fresh_arcs fresh.now < 2 ^ 32 }
    ensures { result ≡ fresh_arcs fresh.now }
{
    let mut count = 0;
    for node in fresh {
        count += node.arcs.len() as u32;
    }
    count
}

impl Store {
    // Adds arcs at the end of the last node's.
    fn append_arcs(&mut self, owner: NodeId, first: u32, bindings: &[NodeId], arcs: &[FreshArc])
        requires owner { TakesArcs self.old owner (length arcs.now) }
        requires fits { self.old.room.nodes < 2 ^ 32 }
        requires targets { All
            (λ a. IsTarget self.old.room.nodes first bindings.now a.to)
            arcs.now }
        ensures { self.new ≡ record self.old {
          graph = with_arcs self.old.graph owner
              (map (fresh_arc first bindings.now (λ x. x)) arcs.now);
        } }
    {
        for arc in arcs {
            let target = mentioned_node(first, bindings, arc.to);
            self.append_arc(owner, target, arc.waits);
        }
    }

    /// Adds the new nodes of a contractum, where `bindings` are the nodes of its variables. Their arcs lead
    /// to the nodes that they mention.
    pub fn append_contractum(&mut self, bindings: &[NodeId], fresh: &[FreshNode], version: u32)
        requires { CanAppend self.old bindings.now fresh.now }
        ensures graph { self.new.graph ≡ with_fresh self.old.graph bindings.now fresh.now }
        ensures versions { self.new.versions ≡ self.old.versions ++ map (λ _. version) fresh.now }
        ensures room { self.new.room ≡ self.old.room }
        ensures newest { self.new.newest ≡ self.old.newest }
    {
        let first = self.next_number();
        for node in fresh {
            let owner = self.append(node.label, node.mark, version);
            self.append_arcs(owner, first, bindings, node.arcs.as_slice());
        }
    }
}
