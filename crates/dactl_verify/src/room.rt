//! What a start and a firing need.
ghost use Rattle.std.specs.Prelude.{◌≡◌, ◌<◌, ◌^◌, ◌↔◌, IsTrue};
ghost use Rattle.dactl_model.specs.Ending.{needed_by};
ghost use Rattle.dactl_model.specs.Programs.{fresh_arcs};
ghost use Rattle.dactl_verify.specs.Rooms.{Exceeds, AreFew, MakesFew, room_of};

use dactl_model::graph::Room;
use dactl_model::program::{Body, FreshNode};

// How many arcs the new nodes have together.
fn arc_count(fresh: &[FreshNode]) -> u32
    requires { fresh_arcs fresh.now < 2 ^ 31 }
    ensures { result ≡ fresh_arcs fresh.now }
{
    let mut count = 0;
    for node in fresh {
        count += node.arcs.len() as u32;
    }
    count
}

/// What the new nodes need.
pub fn room_of(fresh: &[FreshNode]) -> Room
    requires { AreFew fresh.now }
    ensures { result ≡ room_of fresh.now }
{
    Room {
        nodes: fresh.len() as u32,
        arcs: arc_count(fresh),
    }
}

/// What a firing of the body needs.
pub fn needed_by(body: &Body) -> Room
    requires { MakesFew body.now }
    ensures { result ≡ needed_by body.now }
{
    match body {
        Body::Written { fresh, .. } => room_of(fresh.as_slice()),
        Body::Delta(_) => Room { nodes: 1, arcs: 0 },
    }
}

/// Whether more nodes or more arcs are needed than are left.
pub fn exceeds(needed: Room, left: Room) -> bool
    ensures { IsTrue result ↔ Exceeds needed left }
{
    needed.nodes > left.nodes || needed.arcs > left.arcs
}
