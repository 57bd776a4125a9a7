//! What the check of a trace finds.

use dactl_model::graph::{NodeId, Room};

/// What the check of a trace finds. Lines count from 1.
#[derive(Clone, Copy, Debug, PartialEq, Eq)]
pub enum Verdict {
    /// The trace is a journal of the program, and its graphs fit the room.
    Valid,
    /// The first line that is not right.
    Wrong {
        line: u32,
    },
    /// The first line that is right, but whose firing needs more nodes or arcs than are left.
    Full {
        line: u32,
        node: NodeId,
        rule: u32,
        needed: Room,
        left: Room,
    },
    /// The start has more nodes or more arcs than the room. No line is read.
    Small {
        needed: Room,
        left: Room,
    },
}
