//! The first graph of a program.

ghost use Rattle.std.specs.Prelude.{◌≡◌, ℕ, IfOk, IfErr, map};
ghost use Rattle.dactl_model.specs.Firing.{start_of};
ghost use Rattle.dactl_store.specs.Start.{IsStart, IsBegun, IsCause};

use crate::contractum::arc_count;
use crate::store::Store;
use dactl_model::graph::{NodeId, Room};
use dactl_model::program::Start;
use std::alloc::Global;

/// Why a store could not begin: the start has more nodes or more arcs than there is room for, or there was
/// not the memory.
#[derive(Debug, Drop)]
pub enum BeginCause {
    Small { needed: Room, left: Room },
    Memory,
}

impl Store {
    /// A store with the first graph of a program, and room for so many nodes and arcs. It takes all the
    /// memory that it will ever have.
    ///
    /// # Errors
    /// `Small` where the start has more nodes or more arcs than there is room for, with both counts; `Memory`
    /// where it has not, and there was not the memory, or the room is for more nodes than a pool of arcs can
    /// have, which is `dactl_arcs::MOST_TARGETS`.
    pub fn begin(alloc: Global, start: &Start, room: Room) -> Result<Store, BeginCause>
        requires { IsStart start.now }
        ensures ok { IfOk result (IsBegun start.now room) }
        ensures err { IfErr result (IsCause start.now room) }
    {
        let fresh = start.fresh.as_slice();
        let needed = Room {
            nodes: fresh.len() as u32,
            arcs: arc_count(fresh),
        };
        if needed.nodes > room.nodes || needed.arcs > room.arcs {
            return Err(BeginCause::Small { needed, left: room });
        }
        let root = NodeId { number: start.root };
        let Ok(mut store) = Store::with_room(alloc, root, room) else {
            return Err(BeginCause::Memory);
        };
        store.append_contractum(&[], fresh, 0);
        Ok(store)
    }
}
