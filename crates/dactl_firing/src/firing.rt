//! A rule that fires.

ghost use Rattle.std.specs.Prelude.{◌≡◌, ◌<◌, ◌≤◌, ◌^◌, OnOk, IfErr};
ghost use Rattle.dactl_model.specs.Ending.{needed_by};
ghost use Rattle.dactl_model.specs.Graphs.{HasNode};
ghost use Rattle.dactl_model.specs.Matching.{Matches};
ghost use Rattle.dactl_model.specs.Programs.{IsValid};
ghost use Rattle.dactl_store.specs.Redirecting.{IsLatest};
ghost use Rattle.dactl_firing.specs.Fired.{HasFired, IsFull};
ghost use Rattle.dactl_firing.specs.Body.{IsSmallBody};

use crate::site::Site;
use dactl_model::footprint::Woken;
use dactl_model::graph::{NodeId, Room};
use dactl_model::program::{Body, Program};
use dactl_store::{Store, arc_count};

/// A rule makes more nodes or more arcs than there is room for: what it needs, and what is left.
#[derive(Clone, Copy, Debug, PartialEq, Eq)]
pub struct Full {
    pub needed: Room,
    pub left: Room,
}

// What the body makes.
fn needed_by(body: &Body) -> Room
    requires { IsSmallBody body.now }
    ensures { result ≡ needed_by body.now }
{
    match body {
        Body::Written { fresh, .. } => Room {
            nodes: fresh.len() as u32,
            arcs: arc_count(fresh.as_slice()),
        },
        Body::Delta(_) => Room { nodes: 1, arcs: 0 },
    }
}

/// The rule fires at the node, where `bindings` is its match: its new nodes are added at the end, all arcs
/// are redirected, the node gives up its activity or waits again, and the nodes to be woken are. The new
/// nodes, and those whose targets are others then, get the entry's number as their version; it is greater
/// than that of each firing before. `woken` gets the nodes that the step makes active, in ascending order,
/// and the node itself where it is active afterwards.
///
/// It takes time for the new nodes and arcs, for the redirections, for the node's own arcs where it waits
/// again, and to sort the woken ones.
///
/// # Errors
/// Full where the rule makes more nodes or more arcs than are left. The store is as it was then, and `woken`
/// is empty.
pub fn fire(
    store: &mut Store,
    program: &Program,
    node: NodeId,
    rule: u32,
    bindings: &[NodeId],
    entry: u32,
    woken: &mut Woken,
) -> Result<(), Full>
    requires program { IsValid program.now }
    requires node { HasNode store.old.graph node }
    requires matching { Matches program.now store.old.graph node rule bindings.now }
    requires latest { IsLatest entry store.old }
    requires room { store.old.room.nodes ≤ woken.old.room }
    ensures ok { OnOk result
        (HasFired program.now node rule entry store.old store.new woken.new.list) }
    ensures err { IfErr result (IsFull program.now rule store.old store.new woken.new.list) }
    ensures list_room { woken.new.room ≡ woken.old.room }
{
    let body = &program.rule(rule).body;
    let needed = needed_by(body);
    let left = store.left();
    if needed.nodes > left.nodes || needed.arcs > left.arcs {
        woken.clear();
        return Err(Full { needed, left });
    }
    let site = Site {
        node,
        bindings,
        entry,
    };
    site.make(store, body, woken);
    Ok(())
}
