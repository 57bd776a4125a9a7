//! What a hand has of the deques of other hands.

ghost use Rattle.std.specs.Prelude.{◌≡◌, ℕ, ◌+◌, ◌<◌, List, MatchOption, length};
ghost use Rattle.crossbeam_deque.specs.Handles.{view, IsPassOf, stealer_deque, stealer_flavor};
ghost use Rattle.dactl_queue.specs.Accounts.{having_taken};
ghost use Rattle.dactl_steal.specs.Deques.{WasEmpty};

use crate::rule::{TakeOut, Thief, Trail};
use crossbeam_deque::Steal;
use dactl_model::graph::NodeId;
use std::sync::Wait;

/// Another hand's deque, and what this hand took from it.
#[derive(Drop)]
pub(crate) struct Other {
    pub(crate) thief: Thief,
    pub(crate) pass: Trail,
}

/// The node at the front of a deque, or None where the deque is empty.
pub(crate) fn rob<R: Wait>(rt: &R, thief: &Thief, pass: &mut Trail) -> Option<NodeId>
    requires pass { IsPassOf (stealer_deque thief.now) pass.old }
    requires first { stealer_flavor thief.now ≡ 0 }
    requires part { 0 < (view pass.old).parts }
    ensures pass { IsPassOf (stealer_deque thief.now) pass.new }
    ensures taken { MatchOption result
        ((view pass.new ≡ view pass.old) × WasEmpty (view pass.old))
        (λ x. view pass.new ≡ having_taken (view pass.old) x) }
{
    for _ in rt.forever() {
        match thief.steal_as::<TakeOut>(pass) {
            Steal::Success(node) => return Some(node),
            Steal::Empty => return None,
            Steal::Retry => {}
        }
    }
    unreachable!()
}
