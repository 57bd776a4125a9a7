//! Lists of arcs under names. Who merges the lists of two slots may keep either, since the one that is kept
//! can be named for the other slot.

ghost use Rattle.std.specs.Prelude.{◌≡◌, ◌≢◌, ◌+◌, ◌<◌, ◌≤◌, [], ◌∷◌, ◌++◌, length, map, nat_le};
ghost use Rattle.std.specs.Prelude.{slice_get, slice_set, Some, IfOk, IfSome};
ghost use Rattle.dactl_arcs.specs.Pool.{target_of, rest_of_walk};
ghost use Rattle.dactl_arcs.specs.Linked.{IsIn, slot_count, list_of, IsSameSize, IsValidLists};
ghost use Rattle.dactl_arcs.specs.Moves.{cleared, record_at, sent_to};
ghost use Rattle.dactl_arcs.specs.Naming.{swapped};

use crate::lists::{ArcRecord, Lists, Memory};
use crate::table::Table;
use std::alloc::Global;
use std::marker::Model;

/// A list of arcs for each slot. Two slots can change their lists in constant time.
#[derive(Drop)]
pub struct NamedLists {
    // The target of each of these arcs is its list.
    lists: Lists,
    // The slot of each list.
    names: Table,
    // The list of each slot.
    homes: Table,
}

impl Model for NamedLists {
    ghost use Rattle.dactl_arcs.specs.Linked.{Linked, slot_count};

    ghost Value = { Linked };

    ghost use Rattle.dactl_arcs.specs.Naming.{named_pool, IsNaming};

    ghost view = { λ n. named_pool n.lists n.names n.homes };

    ghost invariant = { λ n. IsNaming (slot_count n.lists) n.names n.homes };
}

impl NamedLists {
    /// Empty lists, so many of them, with room for so many arcs.
    ///
    /// # Errors
    ///
    /// `Memory` where there is not enough memory.
    pub fn with_room(alloc: Global, slots: u32, arcs: u32) -> Result<NamedLists, Memory>
        ensures arcs { IfOk result (λ lists. lists.arcs ≡ []) }
        ensures slots { IfOk result (λ lists. slot_count lists ≡ slots) }
        ensures room { IfOk result (λ lists. lists.room ≡ arcs) }
    {
        Ok(NamedLists {
            lists: Lists::with_room(alloc, slots, arcs)?,
            names: Table::of_places(alloc, slots)?,
            homes: Table::of_places(alloc, slots)?,
        })
    }

    /// How many arcs there may be in all lists.
    pub fn room(&self) -> u32
        ensures { result ≡ self.now.room }
    {
        self.lists.room()
    }

    /// The arc after this one in its list.
    #[inline(always)]
    pub fn next_into(&self, arc: u32) -> Option<u32>
        requires { arc < length self.now.arcs }
        ensures next { let walk = list_of self.now (target_of self.now.arcs arc) in
            result ≡ slice_get (rest_of_walk (Some arc) walk) 1 }
        ensures rest { let walk = list_of self.now (target_of self.now.arcs arc) in
            rest_of_walk (Some arc) walk ≡ arc ∷ rest_of_walk result walk }
        ensures leads { IfSome result (IsIn self.now (target_of self.now.arcs arc)) }
    {
        let _ = self.lists.len();
        self.lists.next_into(arc)
    }

    /// Clears the flags of the arcs in the slot's list.
    pub fn clear_waits(&mut self, slot: u32)
        requires { slot < slot_count self.old }
        ensures arcs { self.new.arcs ≡ map (cleared slot) self.old.arcs }
        ensures into { self.new.into ≡ self.old.into }
        ensures room { self.new.room ≡ self.old.room }
    {
        let _ = self.lists.len();
        self.lists.clear_waits(self.homes.get(slot));
    }

    /// The arc of this number.
    #[inline(always)]
    pub fn arc(&self, arc: u32) -> ArcRecord
        requires { arc < length self.now.arcs }
        ensures found { slice_get self.now.arcs arc ≡ Some result }
        ensures valid { IsValidLists self.now }
    {
        let record = self.lists.arc(arc);
        ArcRecord {
            target: self.names.get(record.target),
            ..record
        }
    }

    /// How many arcs there are in all lists.
    pub fn len(&self) -> u32
        ensures len { result ≡ length self.now.arcs }
        ensures valid { IsValidLists self.now }
    {
        self.lists.len()
    }

    /// The first arc of the slot's list.
    #[inline(always)]
    pub fn first_into(&self, slot: u32) -> Option<u32>
        requires { slot < slot_count self.now }
        ensures first { result ≡ slice_get (list_of self.now slot) 0 }
        ensures whole { rest_of_walk result (list_of self.now slot) ≡ list_of self.now slot }
        ensures leads { IfSome result (IsIn self.now slot) }
        ensures valid { IsValidLists self.now }
    {
        self.lists.first_into(self.homes.get(slot))
    }

    /// Whether one slot's list is at most as long as another's. It takes time for the shorter of them.
    pub fn is_at_most_as_long(&self, one: u32, other: u32) -> bool
        requires one { one < slot_count self.now }
        requires other { other < slot_count self.now }
        ensures { result
            ≡ nat_le (length (list_of self.now one)) (length (list_of self.now other)) }
    {
        self.lists
            .is_at_most_as_long(self.homes.get(one), self.homes.get(other))
    }

    /// Adds the arc in front of the list of its target.
    #[inline(always)]
    pub fn push(&mut self, arc: ArcRecord)
        requires room { length self.old.arcs < self.old.room }
        requires target { arc.target < slot_count self.old }
        ensures arcs { self.new.arcs ≡ self.old.arcs ++ arc ∷ [] }
        ensures kept { IsSameSize self.old self.new }
    {
        self.lists.push(ArcRecord {
            target: self.homes.get(arc.target),
            ..arc
        });
    }

    /// Moves the first arc of a slot's list in front of another slot's.
    #[inline(always)]
    pub fn move_first(&mut self, arc: u32, from: u32, to: u32)
        requires different { from ≢ to }
        requires from_in_range { from < slot_count self.old }
        requires to_in_range { to < slot_count self.old }
        requires first { slice_get (list_of self.old from) 0 ≡ Some arc }
        ensures arcs { self.new.arcs
            ≡ slice_set self.old.arcs arc (sent_to to (record_at self.old.arcs arc)) }
        ensures fewer { length (list_of self.new from) + 1 ≡ length (list_of self.old from) }
        ensures kept { IsSameSize self.old self.new }
        ensures leads { IsIn self.old from arc }
    {
        self.lists
            .move_first(arc, self.homes.get(from), self.homes.get(to));
    }

    /// Gives each of two slots the other's list, in constant time.
    pub fn swap(&mut self, from: u32, to: u32)
        requires different { from ≢ to }
        requires from_in_range { from < slot_count self.old }
        requires to_in_range { to < slot_count self.old }
        ensures arcs { self.new.arcs ≡ map (swapped from to) self.old.arcs }
        ensures kept { IsSameSize self.old self.new }
    {
        let _ = self.lists.len();
        let one = self.homes.get(from);
        let other = self.homes.get(to);
        self.homes.set(from, other);
        self.homes.set(to, one);
        self.names.set(one, to);
        self.names.set(other, from);
    }
}
