//! Wakes: idle nodes that become active, and are listed then.

ghost use Rattle.std.specs.Prelude.{◌≡◌, ◌+◌, ◌<◌, ◌≤◌, ◌^◌, ◌++◌, [], ◌∷◌, All, IsTrue, length};
ghost use Rattle.std.specs.Prelude.{slice_get, if◌then◌else◌};
ghost use Rattle.dactl_model.specs.Graphs.{HasNode};
ghost use Rattle.dactl_model.specs.Acts.{marks_active};
ghost use Rattle.dactl_firing.specs.Waking.{idle_in, Wakes, IsWokenList, woken_nodes, with_nodes};
ghost use Rattle.dactl_firing.specs.Waking.{new_acts};

use dactl_model::footprint::Woken;
use dactl_model::graph::{Mark, NodeId};
use dactl_model::program::FreshNode;
use dactl_model::view::View;
use dactl_store::Store;

// Whether the node is there and idle.
fn is_idle(store: &Store, node: NodeId) -> bool
    ensures { result ≡ idle_in (slice_get store.now.graph.nodes node.number) }
{
    node.number < store.next_number() && matches!(store.mark(node), Mark::Idle)
}

// Wakes a node.
fn wake(store: &mut Store, node: NodeId, woken: &mut Woken)
    requires node { HasNode store.old.graph node }
    requires room { IsTrue (idle_in (slice_get store.old.graph.nodes node.number)) →
        length woken.old.list < woken.old.room }
    ensures { Wakes node store.old woken.old store.new woken.new }
{
    if is_idle(store, node) {
        store.set_mark(node, Mark::Active);
        woken.push(node);
    }
}

/// Wakes the nodes of the variables, and lists those that become active.
pub fn wake_all(store: &mut Store, bindings: &[NodeId], wakes: &[u8], woken: &mut Woken)
    requires nodes { All (HasNode store.old.graph) bindings.now }
    requires wakes { All (λ v. v < length bindings.now) wakes.now }
    requires room { length store.old.graph.nodes ≤ woken.old.room }
    requires empty { woken.old.list ≡ [] }
    ensures graph { store.new.graph ≡ with_nodes store.old.graph
        (woken_nodes bindings.now wakes.now 0 store.old.graph.nodes) }
    ensures versions { store.new.versions ≡ store.old.versions }
    ensures room { store.new.room ≡ store.old.room }
    ensures newest { store.new.newest ≡ store.old.newest }
    ensures list { IsWokenList store.old.graph.nodes store.new.graph.nodes woken.new.list }
    ensures list_room { woken.new.room ≡ woken.old.room }
{
    for variable in wakes {
        wake(store, bindings[*variable as usize], woken);
    }
}

/// Lists a node if it is active.
pub fn list_active(number: u32, mark: Mark, woken: &mut Woken)
    requires { IsTrue (marks_active mark) → length woken.old.list < woken.old.room }
    ensures list { woken.new.list ≡
        (if marks_active mark
        then woken.old.list ++ record { number = number } ∷ []
        else woken.old.list) }
    ensures room { woken.new.room ≡ woken.old.room }
{
    if let Mark::Active = mark {
        woken.push(NodeId { number });
    }
}

/// Lists the active ones among new nodes, of which the first has the given number.
pub fn list_new(first: u32, fresh: &[FreshNode], woken: &mut Woken)
    requires fits { first + length fresh.now < 2 ^ 32 }
    requires room { length woken.old.list + length fresh.now ≤ woken.old.room }
    ensures list { woken.new.list ≡ woken.old.list ++ new_acts first fresh.now }
    ensures room { woken.new.room ≡ woken.old.room }
{
    for (place, node) in fresh.iter().enumerate() {
        list_active(first + place as u32, node.mark, woken);
    }
}
