//! What a worker gathers before it asks for a step, and the nodes that a step makes active. These
//! lists take all their memory when they are made.
ghost use Rattle.std.specs.Prelude.{◌≡◌, ◌<◌, [], ◌∷◌, ◌++◌, IfOk, length};
ghost use Rattle.std.specs.List.Sorted.{IsPermutation};
ghost use Rattle.dactl_model.specs.Rooms.{IsAscending};

use crate::Memory;
use crate::graph::{Event, NodeId};
use crate::reading::Reading;
use std::alloc::Global;
use std::marker::Model;

/// The readings of an attempt and the nodes bound to the variables of its rule. It has room for a
/// chosen number of readings and for 64 bindings.
#[derive(Debug, Drop)]
pub struct Footprint {
    readings: Vec<Reading>,
    bindings: Vec<NodeId>,
    room: u32,
}

impl Model for Footprint {
    ghost use Rattle.std.specs.Prelude.{◌≤◌, vec_capacity};
    ghost use Rattle.dactl_model.specs.Rooms.{Observed};

    ghost Value = { Observed };

    ghost view = { λ f. record {
      readings = f.readings.items;
      bindings = f.bindings.items;
      room = f.room;
    } };

    ghost invariant = { λ f. (f.room ≤ vec_capacity f.readings) × (64 ≤ vec_capacity f.bindings) };
}

/// The nodes that a step made active.
#[derive(Debug, Drop)]
pub struct Woken {
    list: Vec<NodeId>,
    room: u32,
}

impl Model for Woken {
    ghost use Rattle.std.specs.Prelude.{◌≤◌, vec_capacity};
    ghost use Rattle.dactl_model.specs.Rooms.{NodeList};

    ghost Value = { NodeList };

    ghost view = { λ w. record { list = w.list.items; room = w.room } };

    ghost invariant = { λ w. w.room ≤ vec_capacity w.list };
}

/// What a worker asks for: an event, with the readings that show it.
#[derive(Debug, Drop)]
pub struct Attempt {
    pub event: Event,
    pub footprint: Footprint,
}

impl Footprint {
    /// An empty footprint with room for so many readings.
    ///
    /// # Errors
    ///
    /// `Memory` where there is no room to be had for so many readings and 64 bindings.
    pub fn with_room(alloc: Global, readings: u32) -> Result<Footprint, Memory>
        ensures { IfOk result (λ f. f ≡ record { readings = []; bindings = []; room = readings }) }
    {
        Ok(Footprint {
            readings: Vec::with_capacity(alloc, readings as usize)?,
            bindings: Vec::with_capacity(alloc, 64)?,
            room: readings,
        })
    }

    /// The readings in the order in which they were pushed.
    pub fn readings(&self) -> &[Reading]
        ensures { result.now ≡ self.now.readings }
    {
        self.readings.as_slice()
    }

    /// The node of each variable.
    pub fn bindings(&self) -> &[NodeId]
        ensures { result.now ≡ self.now.bindings }
    {
        self.bindings.as_slice()
    }

    /// Empties both lists; the room stays.
    pub fn clear(&mut self)
        ensures { self.new ≡ record { readings = []; bindings = []; room = self.old.room } }
    {
        self.readings.clear();
        self.bindings.clear();
    }

    /// Adds a reading. Takes no memory.
    pub fn push_reading(&mut self, reading: Reading)
        requires { length self.old.readings < self.old.room }
        ensures { self.new ≡ record self.old { readings = self.old.readings ++ reading ∷ [] } }
    {
        let pushed = self.readings.push(reading);
        let Ok(()) = pushed else { unreachable!() };
    }

    /// Adds the node of the next variable. Takes no memory.
    pub fn push_binding(&mut self, node: NodeId)
        requires { length self.old.bindings < 64 }
        ensures { self.new ≡ record self.old { bindings = self.old.bindings ++ node ∷ [] } }
    {
        let pushed = self.bindings.push(node);
        let Ok(()) = pushed else { unreachable!() };
    }
}

impl Woken {
    /// An empty list with room for so many nodes.
    ///
    /// # Errors
    ///
    /// `Memory` where there is no room to be had for so many nodes.
    pub fn with_room(alloc: Global, nodes: u32) -> Result<Woken, Memory>
        ensures { IfOk result (λ w. w ≡ record { list = []; room = nodes }) }
    {
        Ok(Woken {
            list: Vec::with_capacity(alloc, nodes as usize)?,
            room: nodes,
        })
    }

    /// The nodes in their order.
    pub fn list(&self) -> &[NodeId]
        ensures { result.now ≡ self.now.list }
    {
        self.list.as_slice()
    }

    /// Empties the list; the room stays.
    pub fn clear(&mut self)
        ensures { self.new ≡ record { list = []; room = self.old.room } }
    {
        self.list.clear();
    }

    /// Adds a node at the end. Takes no memory.
    pub fn push(&mut self, node: NodeId)
        requires { length self.old.list < self.old.room }
        ensures { self.new ≡ record self.old { list = self.old.list ++ node ∷ [] } }
    {
        let pushed = self.list.push(node);
        let Ok(()) = pushed else { unreachable!() };
    }

    /// Puts the nodes in ascending order. Takes no memory.
    pub fn sort(&mut self)
        ensures ascending { IsAscending self.new.list }
        ensures same { IsPermutation self.old.list self.new.list }
        ensures room { self.new.room ≡ self.old.room }
    {
        self.list.sort_unstable();
    }
}
