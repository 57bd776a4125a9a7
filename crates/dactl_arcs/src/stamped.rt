//! When each arc last changed its target. Stamps are given to whole lists; an arc that leaves its list takes
//! along what the stamp of the list says of it.

ghost use Rattle.std.specs.Prelude.{◌≡◌, ◌≢◌, ◌+◌, ◌<◌, ◌≤◌, ◌^◌, ◌==◌, ℕ, [], ◌∷◌, ◌++◌};
ghost use Rattle.std.specs.Prelude.{length, map, slice_get, slice_set, slice_index_or, Some, All};
ghost use Rattle.std.specs.Prelude.{IfOk, IfSome, if◌then◌else◌};
ghost use Rattle.dactl_arcs.specs.Pool.{targets, target_of, arcs_into, rest_of_walk};
ghost use Rattle.dactl_arcs.specs.Linked.{IsIn, linked};
ghost use Rattle.dactl_arcs.specs.Slots.{AreSlotsBelow, IsHoused, seen};
ghost use Rattle.dactl_arcs.specs.Moves.{cleared, moved_to, record_at, retargeted, sent_to};
ghost use Rattle.dactl_arcs.specs.Kept.{IsKept};
ghost use Rattle.dactl_arcs.specs.Naming.{swapped};
ghost use Rattle.dactl_arcs.specs.Stamps.{IsValidStamped, changed_by, last_change};

use crate::lists::{ArcRecord, Memory};
use crate::moves::stamp_slots;
use crate::named::NamedLists;
use crate::table::Table;
use std::alloc::Global;
use std::marker::Model;

// The last change of an arc when it joined its list, and the stamp that the list had then. A list with a
// greater stamp has changed since.
#[derive(Clone, Copy, Drop)]
struct ArcStamp {
    own: u32,
    joined: u32,
}

/// A list of arcs for each slot, and the last change of each arc.
#[derive(Drop)]
pub struct StampedLists {
    lists: NamedLists,
    // By the arc's number.
    stamps: Vec<ArcStamp>,
    // The stamp of each slot's list.
    slots: Table,
    // The greatest stamp that was given.
    newest: u32,
}

impl Model for StampedLists {
    ghost use Rattle.std.specs.Prelude.{vec_capacity};
    ghost use Rattle.dactl_arcs.specs.Pool.{Pool};
    ghost use Rattle.dactl_arcs.specs.Stamps.{IsStamped, changes};

    ghost Value = { Pool };

    ghost view = { λ s. record {
      arcs = s.lists.arcs;
      into = s.lists.into;
      room = s.lists.room;
      changed = changes s.lists.arcs s.stamps.items s.slots;
      newest = s.newest;
    } };

    ghost invariant = { λ s.
        IsStamped s.lists s.stamps.items s.slots s.newest (vec_capacity s.stamps) };
}

// The last change of an arc whose list has this stamp.
#[inline(always)]
fn last_change(list: u32, arc: ArcStamp) -> u32
    ensures { result ≡ last_change list arc }
{
    if arc.joined < list { list } else { arc.own }
}

impl StampedLists {
    /// Empty lists, so many of them, with room for so many arcs.
    ///
    /// # Errors
    ///
    /// `Memory` where there is not enough memory.
    pub fn with_room(alloc: Global, slots: u32, arcs: u32) -> Result<StampedLists, Memory>
        ensures arcs { IfOk result (λ s. s.arcs ≡ []) }
        ensures slots { IfOk result (λ s. targets s ≡ slots) }
        ensures room { IfOk result (λ s. s.room ≡ arcs) }
        ensures changed { IfOk result (λ s. s.changed ≡ []) }
        ensures newest { IfOk result (λ s. s.newest ≡ 0) }
    {
        Ok(StampedLists {
            lists: NamedLists::with_room(alloc, slots, arcs)?,
            stamps: Vec::with_capacity(alloc, arcs as usize)?,
            slots: Table::of_zeros(alloc, slots)?,
            newest: 0,
        })
    }

    /// How many arcs there are in all lists.
    pub fn len(&self) -> u32
        ensures len { result ≡ length self.now.arcs }
        ensures valid { IsValidStamped self.now }
    {
        self.lists.len()
    }

    /// How many arcs there may be in all lists.
    pub fn room(&self) -> u32
        ensures { result ≡ self.now.room }
    {
        self.lists.room()
    }

    /// The arc of this number.
    #[inline(always)]
    pub fn arc(&self, arc: u32) -> ArcRecord
        requires { arc < length self.now.arcs }
        ensures { slice_get self.now.arcs arc ≡ Some result }
    {
        self.lists.arc(arc)
    }

    /// The arc after this one in its list.
    #[inline(always)]
    pub fn next_into(&self, arc: u32) -> Option<u32>
        requires { arc < length self.now.arcs }
        ensures next { let walk = arcs_into self.now (target_of self.now.arcs arc) in
            result ≡ slice_get (rest_of_walk (Some arc) walk) 1 }
        ensures rest { let walk = arcs_into self.now (target_of self.now.arcs arc) in
            rest_of_walk (Some arc) walk ≡ arc ∷ rest_of_walk result walk }
        ensures leads { IfSome result (IsIn (linked self.now) (target_of self.now.arcs arc)) }
    {
        self.lists.next_into(arc)
    }

    /// Adds the arc in front of the list of its target. It has not changed yet.
    #[inline(always)]
    pub fn push(&mut self, arc: ArcRecord)
        requires room { length self.old.arcs < self.old.room }
        requires target { arc.target < targets self.old }
        ensures arcs { self.new.arcs ≡ self.old.arcs ++ arc ∷ [] }
        ensures kept { IsKept self.old self.new }
        ensures changed { self.new.changed ≡ self.old.changed ++ 0 ∷ [] }
        ensures newest { self.new.newest ≡ self.old.newest }
    {
        let joined = self.slots.get(arc.target);
        self.lists.push(arc);
        self.stamps.push_reserved(ArcStamp { own: 0, joined });
    }

    /// Clears the flags of the arcs in the slot's list.
    pub fn clear_waits(&mut self, slot: u32)
        requires { slot < targets self.old }
        ensures arcs { self.new.arcs ≡ map (cleared slot) self.old.arcs }
        ensures into { self.new.into ≡ self.old.into }
        ensures room { self.new.room ≡ self.old.room }
        ensures changed { self.new.changed ≡ self.old.changed }
        ensures newest { self.new.newest ≡ self.old.newest }
    {
        self.lists.clear_waits(slot);
    }

    /// The arc of this number, and when it last changed its target.
    #[inline(always)]
    pub fn arc_and_change(&self, arc: u32) -> (ArcRecord, u32)
        requires { arc < length self.now.arcs }
        ensures arc { slice_get self.now.arcs arc ≡ Some result.0 }
        ensures changed { slice_get self.now.changed arc ≡ Some result.1 }
    {
        let record = self.lists.arc(arc);
        let list = self.slots.get(record.target);
        (record, last_change(list, self.stamps[arc as usize]))
    }

    /// The first arc of the slot's list.
    #[inline(always)]
    pub fn first_into(&self, slot: u32) -> Option<u32>
        requires { slot < targets self.now }
        ensures first { result ≡ slice_get (arcs_into self.now slot) 0 }
        ensures whole { rest_of_walk result (arcs_into self.now slot) ≡ arcs_into self.now slot }
        ensures leads { IfSome result (IsIn (linked self.now) slot) }
        ensures valid { IsValidStamped self.now }
    {
        self.lists.first_into(slot)
    }

    // Moves the first arc of a list in front of another.
    #[inline(always)]
    fn move_first(&mut self, arc: u32, from: u32, to: u32)
        requires different { from ≢ to }
        requires from_in_range { from < targets self.old }
        requires to_in_range { to < targets self.old }
        requires first { slice_get (arcs_into self.old from) 0 ≡ Some arc }
        ensures arcs { self.new.arcs
            ≡ slice_set self.old.arcs arc (sent_to to (record_at self.old.arcs arc)) }
        ensures fewer { length (arcs_into self.new from) + 1 ≡ length (arcs_into self.old from) }
        ensures kept { IsKept self.old self.new }
        ensures changed { self.new.changed ≡ self.old.changed }
        ensures newest { self.new.newest ≡ self.old.newest }
    {
        self.lists.move_first(arc, from, to);
        let own = last_change(self.slots.get(from), self.stamps[arc as usize]);
        let joined = self.slots.get(to);
        self.stamps[arc as usize] = ArcStamp { own, joined };
    }

    // Gives each of two slots the other's list.
    fn swap(&mut self, from: u32, to: u32)
        requires different { from ≢ to }
        requires from_in_range { from < targets self.old }
        requires to_in_range { to < targets self.old }
        ensures arcs { self.new.arcs ≡ map (swapped from to) self.old.arcs }
        ensures kept { IsKept self.old self.new }
        ensures changed { self.new.changed ≡ self.old.changed }
        ensures newest { self.new.newest ≡ self.old.newest }
    {
        self.lists.swap(from, to);
        let one = self.slots.get(from);
        self.slots.set(from, self.slots.get(to));
        self.slots.set(to, one);
    }

    // Moves all arcs of a slot to another, one by one.
    fn move_all(&mut self, from: u32, to: u32)
        requires different { from ≢ to }
        requires from_in_range { from < targets self.old }
        requires to_in_range { to < targets self.old }
        ensures arcs { self.new.arcs ≡ map (retargeted ((from, to) ∷ [])) self.old.arcs }
        ensures kept { IsKept self.old self.new }
        ensures changed { self.new.changed ≡ self.old.changed }
        ensures newest { self.new.newest ≡ self.old.newest }
    {
        while let Some(arc) = self.first_into(from) {
            self.move_first(arc, from, to);
        }
    }

    // Moves the only arc of a slot to another.
    #[inline(always)]
    fn move_only(&mut self, arc: u32, from: u32, to: u32)
        requires different { from ≢ to }
        requires from_in_range { from < targets self.old }
        requires to_in_range { to < targets self.old }
        requires only { arcs_into self.old from ≡ arc ∷ [] }
        ensures arcs { self.new.arcs ≡ map (retargeted ((from, to) ∷ [])) self.old.arcs }
        ensures kept { IsKept self.old self.new }
        ensures changed { self.new.changed ≡ self.old.changed }
        ensures newest { self.new.newest ≡ self.old.newest }
    {
        let _ = self.len();
        self.move_first(arc, from, to);
        let _ = self.len();
    }

    // Moves all arcs of a slot to another, those of the shorter list one by one.
    #[inline(never)]
    fn merge_lists(&mut self, from: u32, to: u32)
        requires different { from ≢ to }
        requires from_in_range { from < targets self.old }
        requires to_in_range { to < targets self.old }
        ensures arcs { self.new.arcs ≡ map (retargeted ((from, to) ∷ [])) self.old.arcs }
        ensures kept { IsKept self.old self.new }
        ensures changed { self.new.changed ≡ self.old.changed }
        ensures newest { self.new.newest ≡ self.old.newest }
    {
        if self.lists.is_at_most_as_long(from, to) {
            self.move_all(from, to);
            return;
        }
        self.move_all(to, from);
        self.swap(from, to);
    }

    // Moves all arcs of a slot, one at least, to another. Where there is only one, it is not worth while to let
    // the slots change their lists.
    #[inline(always)]
    fn merge_from(&mut self, first: u32, from: u32, to: u32)
        requires different { from ≢ to }
        requires from_in_range { from < targets self.old }
        requires to_in_range { to < targets self.old }
        requires first { IsIn (linked self.old) from first }
        requires whole { let walk = arcs_into self.old from in
            rest_of_walk (Some first) walk ≡ walk }
        ensures arcs { self.new.arcs ≡ map (retargeted ((from, to) ∷ [])) self.old.arcs }
        ensures kept { IsKept self.old self.new }
        ensures changed { self.new.changed ≡ self.old.changed }
        ensures newest { self.new.newest ≡ self.old.newest }
    {
        if self.next_into(first).is_none() {
            self.move_only(first, from, to);
            return;
        }
        self.merge_lists(from, to);
    }

    /// Moves all arcs of a slot to another, in the time for the shorter of the two lists, or for one arc.
    #[inline(always)]
    pub fn merge(&mut self, from: u32, to: u32)
        requires different { from ≢ to }
        requires from_in_range { from < targets self.old }
        requires to_in_range { to < targets self.old }
        ensures arcs { self.new.arcs ≡ map (retargeted ((from, to) ∷ [])) self.old.arcs }
        ensures kept { IsKept self.old self.new }
        ensures changed { self.new.changed ≡ self.old.changed }
        ensures newest { self.new.newest ≡ self.old.newest }
    {
        if let Some(first) = self.first_into(from) {
            self.merge_from(first, from, to);
        }
    }

    /// Gives the stamp to each arc whose target the pairs send elsewhere, in a time that doesn't depend on the
    /// arcs. Each arc is in a slot of its target.
    pub fn stamp_moved(&mut self, moves: &[(u32, u32)], stamp: u32)
        requires below { AreSlotsBelow (targets self.old) moves.now }
        requires fits { targets self.old ≤ 2 ^ 32 }
        requires ends { All IsHoused self.old.arcs }
        requires newer { self.old.newest < stamp }
        ensures arcs { self.new.arcs ≡ self.old.arcs }
        ensures into { self.new.into ≡ self.old.into }
        ensures room { self.new.room ≡ self.old.room }
        ensures changed { self.new.changed
            ≡ changed_by moves.now stamp (map seen self.old.arcs) self.old.changed }
        ensures newest { self.new.newest ≡ stamp }
    {
        let _ = self.lists.len();
        stamp_slots(&mut self.slots, moves, stamp);
        self.newest = stamp;
    }
}
