//! Taking nodes from the deques of other hands.

ghost use Rattle.std.specs.Prelude.{◌≡◌, ℕ, ◌+◌, List, MatchOption, length};
ghost use Rattle.dactl_model.specs.declared.graph.NodeId.{NodeId};
ghost use Rattle.dactl_steal.specs.Others.{IsUsableSlot, AreUsable, SlotKept, AreKept};
ghost use Rattle.dactl_steal.specs.Others.{SlotWasEmpty, WereEmpty, slot_stolen, stolen};

use crate::other::{Other, rob};
use dactl_model::graph::NodeId;
use std::sync::Wait;

/// A node of the deque at this place, where it is another hand's.
fn rob_at<R: Wait>(rt: &R, place: &mut Option<Other>) -> Option<NodeId>
    requires { IsUsableSlot place.old }
    ensures kept { SlotKept place.old place.new }
    ensures taken { MatchOption result
        (SlotWasEmpty place.new
        × ((weight : NodeId → ℕ) → slot_stolen weight place.new ≡ slot_stolen weight place.old))
        (λ x. (weight : NodeId → ℕ)
        → slot_stolen weight place.new ≡ slot_stolen weight place.old + weight x) }
{
    match place {
        Some(other) => rob(rt, &other.thief, &mut other.pass),
        None => None,
    }
}

/// A node of the first of the others' deques that has one, in the order of the hands.
pub(crate) fn steal<R: Wait>(rt: &R, others: &mut [Option<Other>]) -> Option<NodeId>
    requires { AreUsable others.old }
    ensures long { length others.new ≡ length others.old }
    ensures kept { AreKept others.old others.new }
    ensures taken { MatchOption result
        (WereEmpty others.new
        × ((weight : NodeId → ℕ) → stolen weight others.new ≡ stolen weight others.old))
        (λ x. (weight : NodeId → ℕ)
        → stolen weight others.new ≡ stolen weight others.old + weight x) }
{
    for place in 0..others.len() {
        if let Some(node) = rob_at(rt, &mut others[place]) {
            return Some(node);
        }
    }
    None
}
