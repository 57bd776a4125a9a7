//! Sharing out the deques of a board among its hands.

ghost use Rattle.std.specs.Prelude.{◌≡◌, ℕ, ◌+◌, ◌<◌, ◌≤◌, [], List, map, length, IfOk};
ghost use Rattle.crossbeam_deque.specs.Handles.{worker_deque};
ghost use Rattle.dactl_model.specs.declared.graph.NodeId.{NodeId};
ghost use Rattle.dactl_steal.specs.Making.{IsNewOwn, CanLend, AreLenders, HaveLent, AreUnshared};
ghost use Rattle.dactl_steal.specs.Making.{AreShared, own_deque};
ghost use Rattle.dactl_steal.specs.Others.{IsUsable, OthersFit, deque_of, trail_of, stolen};

use crate::board::{Memory, StealHand};
use crate::other::Other;
use crate::own::Own;
use crate::rule::LendOne;
use std::alloc::Global;

/// A part of a deque, for another hand.
fn other_of(own: &mut Own) -> Result<Other, Memory>
    requires { CanLend own.old }
    ensures deque { worker_deque own.new.deque ≡ worker_deque own.old.deque }
    ensures own { IfOk result (λ _. (room lent : ℕ)
        → IsNewOwn room lent own.old → IsNewOwn room (lent + 1) own.new) }
    ensures usable { IfOk result IsUsable }
    ensures other { IfOk result (λ o. (deque_of o ≡ worker_deque own.old.deque)
        × ((trail_of o).taken ≡ [])) }
{
    let thief = own.deque.stealer()?;
    let pass = own.deque.another::<LendOne>();
    Ok(Other { thief, pass })
}

/// A part of each deque but its own, for the hand with this number.
fn row_of(
    alloc: Global,
    hands: &mut [StealHand],
    number: usize,
) -> Result<Vec<Option<Other>>, Memory>
    requires { AreLenders hands.old }
    ensures long { length hands.new ≡ length hands.old }
    ensures lent { IfOk result (λ _. HaveLent number hands.old hands.new) }
    ensures row { IfOk result (λ row.
        OthersFit number (map own_deque hands.old) row.items) }
    ensures none { IfOk result (λ row.
        (weight : NodeId → ℕ) → stolen weight row.items ≡ 0) }
{
    let mut row = Vec::with_capacity(alloc, hands.len())?;
    for place in 0..hands.len() {
        if place == number {
            row.push(None)?;
            continue;
        }
        row.push(Some(other_of(&mut hands[place].own)?))?;
    }
    Ok(row)
}

/// Gives each hand a part of each deque but its own.
pub(crate) fn share_out(alloc: Global, hands: &mut [StealHand]) -> Result<(), Memory>
    requires few { length hands.old ≤ 255 }
    requires unshared { (room : ℕ) × AreUnshared room hands.old }
    ensures long { length hands.new ≡ length hands.old }
    ensures shared { IfOk result (λ _. (room : ℕ)
        → AreUnshared room hands.old → AreShared room hands.old hands.new) }
{
    for number in 0..hands.len() {
        hands[number].others = row_of(alloc, hands, number)?;
    }
    Ok(())
}
