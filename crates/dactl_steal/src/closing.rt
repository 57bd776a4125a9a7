//! Counting what is left when a board is closed.

ghost use Rattle.std.specs.Prelude.{◌≡◌, ℕ, ◌+◌, ◌-◌, ◌^◌, ◌<◌, ◌++◌, ◌∷◌, [], List, length, take};
ghost use Rattle.std.specs.Prelude.{min, Option};
ghost use mathlib.Core.Option.{some};
ghost use lib.ListN.{get_elem?};
ghost use Rattle.crossbeam_deque.specs.Handles.{worker_deque, worker_view, SameWorker};
ghost use Rattle.dactl_model.specs.declared.graph.NodeId.{NodeId};
ghost use Rattle.dactl_queue.specs.Accounts.{weigh};
ghost use Rattle.dactl_steal.specs.Closing.{EndsWith, RowsFit, having_back, all_stolen, AllBack};
ghost use Rattle.dactl_steal.specs.Closing.{slot_in, slot_out};
ghost use Rattle.dactl_steal.specs.Sums.{added};
ghost use Rattle.dactl_steal.specs.Others.{DequeId};
ghost use Rattle.dactl_steal.specs.Owns.{account_of, weight_in, weight_out};
ghost use Rattle.dactl_steal.specs.declared.other.Other.{Other};

use crate::other::Other;
use crate::own::Own;
use crate::rule::{Count, GiveBack, Owner};

/// Gives a part of a deque back to it, where the row has one last.
fn give_back(deque: &mut Owner, row: &mut Vec<Option<Other>>)
    requires { EndsWith (worker_deque deque.old) row.old.items }
    ensures same { SameWorker deque.old deque.new }
    ensures row { row.new.items ≡ take (length row.old.items - 1) row.old.items }
    ensures account { (front : List (Option Other)) (slot : Option Other)
        → row.old.items ≡ front ++ slot ∷ []
        → worker_view deque.new ≡ having_back (worker_view deque.old) slot }
{
    if let Some(Some(other)) = row.pop() {
        let Other { thief: _, pass } = other;
        deque.absorb::<GiveBack>(pass);
    }
}

/// Gives all parts of a deque back to it, which all rows but its own hand's have last.
fn gather(deque: &mut Owner, rows: &mut [Vec<Option<Other>>])
    requires { (deques : List DequeId) × (count : ℕ) × (count < length rows.old)
        × RowsFit deques (count + 1) rows.old
        × (get_elem? deques count ≡ some (worker_deque deque.old)) }
    ensures same { SameWorker deque.old deque.new }
    ensures long { length rows.new ≡ length rows.old }
    ensures put { (worker_view deque.new).put ≡ (worker_view deque.old).put }
    ensures gathered { (deques : List DequeId) (count : ℕ) → count < length rows.old
        → RowsFit deques (count + 1) rows.old
        → get_elem? deques count ≡ some (worker_deque deque.old)
        → RowsFit deques count rows.new
        × ((worker_view deque.new).parts + 1
        ≡ (worker_view deque.old).parts + length rows.old)
        × ((weight : NodeId → ℕ)
        → weigh weight (worker_view deque.new).taken + all_stolen weight rows.new
        ≡ weigh weight (worker_view deque.old).taken + all_stolen weight rows.old) }
{
    for place in 0..rows.len() {
        give_back(deque, &mut rows[place]);
    }
}

/// The number of nodes in a hand's deque and in its reserve.
pub(crate) fn count_left(own: Own, rows: &mut [Vec<Option<Other>>]) -> u64
    requires rows { (deques : List DequeId) × (count : ℕ) × (count < length rows.old)
        × RowsFit deques (count + 1) rows.old
        × (get_elem? deques count ≡ some (worker_deque own.deque)) }
    requires parts { (account_of own).parts + length rows.old ≡ 257 }
    ensures long { length rows.new ≡ length rows.old }
    ensures left { (left : List NodeId) × (min (length left) (2 ^ 64 - 1) ≡ result)
        × ((deques : List DequeId) (count : ℕ) → count < length rows.old
        → RowsFit deques (count + 1) rows.old
        → get_elem? deques count ≡ some (worker_deque own.deque)
        → RowsFit deques count rows.new
        × ((weight : NodeId → ℕ) → weight_in weight own + all_stolen weight rows.new
        ≡ weight_out weight own + all_stolen weight rows.old + weigh weight left)) }
{
    let Own { mut deque, reserve } = own;
    gather(&mut deque, rows);
    let nodes = deque.len_as::<Count>() as u64;
    nodes.saturating_add(reserve.len() as u64)
}

/// The number of nodes in the deques and reserves of all hands.
pub(crate) fn all_left(mut owns: Vec<Option<Own>>, mut rows: Vec<Vec<Option<Other>>>) -> u64
    requires { (deques : List DequeId) × AllBack deques owns.items rows.items }
    ensures { (left : List NodeId) × (min (length left) (2 ^ 64 - 1) ≡ result)
        × ((weight : NodeId → ℕ) → added (slot_in weight) owns.items
        ≡ added (slot_out weight) owns.items + all_stolen weight rows.items
        + weigh weight left) }
{
    let mut left: u64 = 0;
    while let Some(slot) = owns.pop() {
        let Some(own) = slot else {
            return left;
        };
        left = left.saturating_add(count_left(own, rows.as_mut_slice()));
    }
    left
}
