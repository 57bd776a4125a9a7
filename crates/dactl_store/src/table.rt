//! The nodes of a graph without their arcs, and the ring of those that are active.

ghost use Rattle.std.specs.Prelude.{◌≡◌, ◌+◌, ◌<◌, ◌≤◌, [], ◌∷◌, ◌++◌, length, slice_get};
ghost use Rattle.std.specs.Prelude.{slice_set, Some, IfOk};
ghost use Rattle.dactl_active.specs.Ring.{has, turned};
ghost use Rattle.dactl_model.specs.Acts.{marks_active};
ghost use Rattle.dactl_store.specs.Table.{record_of, is_active, ring_with, marked, longer};
ghost use Rattle.dactl_store.specs.Table.{IsValidTable};

use crate::slot::Slot;
use dactl_active::{Memory, Ring};
use dactl_model::graph::{Label, Mark};
use std::alloc::Global;
use std::marker::Model;

/// The arcs of a node: so many from the first one on.
#[derive(Clone, Copy, Drop)]
pub struct Span {
    pub first: u32,
    pub count: u8,
}

/// A node: what it is, the version with which it was added, and which arcs are its own.
#[derive(Clone, Copy, Drop)]
pub struct NodeRecord {
    pub label: Label,
    pub mark: Mark,
    pub version: u32,
    pub span: Span,
}

/// The nodes by number, with room for so many, and those that are marked active in the order of a ring.
#[derive(Drop)]
pub struct NodeTable {
    records: Vec<Slot>,
    ring: Ring,
    room: u32,
}

impl Model for NodeTable {
    ghost use Rattle.std.specs.Prelude.{vec_capacity};
    ghost use Rattle.dactl_store.specs.Table.{Table, IsTable};

    ghost Value = { Table };

    ghost view = { λ t. record {
      records = t.records.items;
      active = t.ring.numbers;
      room = t.room;
    } };

    ghost invariant = { λ t. IsTable t.records.items t.ring t.room (vec_capacity t.records) };
}

fn is_active(mark: Mark) -> bool
    ensures { result ≡ marks_active mark }
{
    matches!(mark, Mark::Active)
}

// Puts the node into the ring where its mark became active, takes it out where it was so, and else leaves
// the ring alone.
fn place(ring: &mut Ring, node: u32, before: Mark, after: Mark)
    requires node { node < ring.old.room }
    requires before { has ring.old.numbers node ≡ marks_active before }
    ensures numbers { ring.new.numbers ≡ ring_with after ring.old.numbers node }
    ensures room { ring.new.room ≡ ring.old.room }
{
    if is_active(after) == is_active(before) {
        return;
    }
    match after {
        Mark::Active => ring.insert(node),
        _ => ring.remove(node),
    }
}

impl NodeTable {
    /// An empty table with room for so many nodes.
    ///
    /// # Errors
    /// `Memory` where there is no room to be had for so many nodes, and for a ring of so many.
    pub fn with_room(alloc: Global, nodes: u32) -> Result<NodeTable, Memory>
        ensures { IfOk result (λ t. t ≡ record { records = []; active = []; room = nodes }) }
    {
        Ok(NodeTable {
            records: Vec::with_capacity(alloc, nodes as usize)?,
            ring: Ring::with_room(alloc, nodes)?,
            room: nodes,
        })
    }

    /// How many nodes there are.
    pub fn count(&self) -> u32
        ensures count { result ≡ length self.now.records }
        ensures valid { IsValidTable self.now }
    {
        self.records.len() as u32
    }

    /// The record of a node.
    pub fn get(&self, node: u32) -> NodeRecord
        requires { node < length self.now.records }
        ensures found { result ≡ record_of self.now.records node }
        ensures ring { has self.now.active node ≡ marks_active result.mark }
        ensures valid { IsValidTable self.now }
    {
        self.records[node as usize].node()
    }

    /// The active node at the front of the ring.
    pub fn first_active(&self) -> Option<u32>
        ensures first { result ≡ slice_get self.now.active 0 }
        ensures valid { IsValidTable self.now }
    {
        self.ring.first()
    }

    /// Moves the front of the ring to its back.
    pub fn turn(&mut self)
        ensures { self.new ≡ record self.old { active = turned self.old.active } }
    {
        self.ring.advance();
    }

    /// Adds a node at the end.
    pub fn push(&mut self, node: NodeRecord)
        requires { length self.old.records < self.old.room }
        ensures { self.new ≡ record {
          records = self.old.records ++ node ∷ [];
          active = ring_with node.mark self.old.active (length self.old.records);
          room = self.old.room;
        } }
    {
        let number = self.records.len() as u32;
        self.records.push_reserved(Slot::of(node));
        place(&mut self.ring, number, Mark::Idle, node.mark);
    }

    /// Gives a node another mark.
    pub fn set_mark(&mut self, node: u32, mark: Mark)
        requires { node < length self.old.records }
        ensures { self.new ≡ record self.old {
          records = slice_set self.old.records node (marked mark (record_of self.old.records node));
          active = ring_with mark self.old.active node;
        } }
    {
        let before = self.records[node as usize].node().mark;
        self.records[node as usize].set_mark(mark);
        place(&mut self.ring, node, before, mark);
    }

    /// A node has one arc more.
    pub fn add_arc(&mut self, node: u32)
        requires node { node < length self.old.records }
        requires few { (record_of self.old.records node).span.count < 16 }
        ensures { self.new ≡ record self.old {
          records = slice_set self.old.records node (longer (record_of self.old.records node));
        } }
    {
        self.records[node as usize].add_arc();
    }
}
