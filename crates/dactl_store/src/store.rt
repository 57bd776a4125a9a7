//! The store.

ghost use Rattle.std.specs.Prelude.{◌≡◌, ◌+◌, ◌<◌, ◌≤◌, ◌^◌, [], ◌∷◌, ◌++◌, length, map, slice_get};
ghost use Rattle.std.specs.Prelude.{Some, IfOk, MatchOption, MatchBool};
ghost use Rattle.dactl_active.specs.Ring.{turned};
ghost use Rattle.dactl_model.specs.Graphs.{HasNode};
ghost use Rattle.dactl_model.specs.Matching.{IsActive};
ghost use Rattle.dactl_model.specs.Ending.{IsPassive};
ghost use Rattle.dactl_store.specs.Table.{ring_with};
ghost use Rattle.dactl_store.specs.Held.{IsValid, HasActive, left_in, with_node, with_mark};
ghost use Rattle.dactl_store.specs.Held.{with_arcs, node_with, arc_to, HasFreeNode, HasFreeArc};
ghost use Rattle.dactl_store.specs.Held.{IsLast};

use crate::table::{NodeRecord, NodeTable, Span};
use dactl_active::Memory;
use dactl_arcs::ArcPool;
use dactl_model::graph::{Label, Mark, NodeId, Room};
use std::alloc::Global;
use std::marker::Model;

/// A graph that is changed in place, with a version for each node, a ring of its active nodes, and room for
/// so many nodes and arcs.
///
/// A node's version is the greatest of that with which it was added and of those that redirections gave its
/// arcs, so a redirection touches no node.
///
/// All memory is taken when it is made. Between the calls that add a new part of a graph, arcs may lead to
/// nodes that are still to be added.
#[derive(Drop)]
pub struct Store {
    pub(crate) nodes: NodeTable,
    pub(crate) arcs: ArcPool,
    pub(crate) root: NodeId,
    pub(crate) room: Room,
}

impl Model for Store {
    ghost use Rattle.dactl_store.specs.Held.{Held};

    ghost Value = { Held };

    ghost use Rattle.dactl_store.specs.Layout.{held_of, IsStore};

    ghost view = { λ s. held_of s.nodes s.arcs s.root s.room };

    ghost invariant = { λ s. IsStore s.nodes s.arcs s.room };
}

impl Store {
    /// A store without nodes. The root is a node that is still to be added.
    pub(crate) fn with_room(alloc: Global, root: NodeId, room: Room) -> Result<Store, Memory>
        ensures { IfOk result (λ s. s ≡ record {
          graph = record { nodes = []; root = root };
          versions = [];
          active = [];
          room = room;
          newest = 0;
        }) }
    {
        Ok(Store {
            nodes: NodeTable::with_room(alloc, room.nodes)?,
            arcs: ArcPool::with_room(alloc, room.nodes, room.arcs)?,
            root,
            room,
        })
    }

    /// How many more nodes and arcs there is room for.
    pub fn left(&self) -> Room
        ensures left { result ≡ left_in self.now }
        ensures valid { IsValid self.now }
    {
        Room {
            nodes: self.room.nodes - self.nodes.count(),
            arcs: self.room.arcs - self.arcs.len(),
        }
    }

    /// The number that the next node will have.
    pub fn next_number(&self) -> u32
        ensures number { result ≡ length self.now.graph.nodes }
        ensures valid { IsValid self.now }
    {
        self.nodes.count()
    }

    /// Whether a node is active.
    pub fn any_active(&self) -> bool
        ensures active { MatchBool result (HasActive self.now.graph) (IsPassive self.now.graph) }
        ensures valid { IsValid self.now }
    {
        self.nodes.first_active().is_some()
    }

    /// An active node, if there is one; the ring turns by one, so that each active node has its turn.
    pub fn active(&mut self) -> Option<NodeId>
        ensures front { MatchOption result
            (self.old.active ≡ [])
            (λ n. slice_get self.old.active 0 ≡ Some n.number) }
        ensures active { MatchOption result (IsPassive self.old.graph) (IsActive self.old.graph) }
        ensures turned { self.new ≡ record self.old { active = turned self.old.active } }
        ensures valid { IsValid self.new }
    {
        let Some(front) = self.nodes.first_active() else {
            return None;
        };
        self.nodes.turn();
        Some(NodeId { number: front })
    }

    /// Gives a node a mark.
    pub fn set_mark(&mut self, n: NodeId, mark: Mark)
        requires { HasNode self.old.graph n }
        ensures { self.new ≡ record self.old {
          graph = with_mark self.old.graph n mark;
          active = ring_with mark self.old.active n.number;
        } }
    {
        self.nodes.set_mark(n.number, mark);
    }

    /// Adds a node without arcs at the end.
    pub fn append(&mut self, label: Label, mark: Mark, version: u32) -> NodeId
        requires { HasFreeNode self.old }
        ensures number { result.number ≡ length self.old.graph.nodes }
        ensures added { self.new ≡ record self.old {
          graph = with_node self.old.graph (node_with label mark);
          versions = self.old.versions ++ version ∷ [];
          active = ring_with mark self.old.active (length self.old.graph.nodes);
        } }
    {
        let number = self.nodes.count();
        let span = Span {
            first: self.arcs.len(),
            count: 0,
        };
        self.nodes.push(NodeRecord {
            label,
            mark,
            version,
            span,
        });
        NodeId { number }
    }

    /// Adds an arc at the end of the last node's. Its target may be a node that is still to be added.
    pub fn append_arc(&mut self, owner: NodeId, target: NodeId, waits: bool)
        requires free { HasFreeArc self.old }
        requires owner { IsLast self.old.graph owner }
        requires target { target.number < self.old.room.nodes }
        ensures { self.new ≡ record self.old {
          graph = with_arcs self.old.graph owner (arc_to target waits ∷ []);
        } }
    {
        let added = self.arcs.add(owner.number, target.number, waits);
        let Ok(_) = added else { unreachable!() };
        self.nodes.add_arc(owner.number);
    }
}
