//! Arcs in lists: for each slot, the arcs whose target it is.

ghost use Rattle.std.specs.Prelude.{◌≡◌, ◌≢◌, ◌+◌, ◌<◌, [], ◌∷◌, ◌++◌, length, map, nat_le};
ghost use Rattle.std.specs.Prelude.{slice_get, slice_set, Some, IfOk, IfSome};
ghost use Rattle.dactl_arcs.specs.Pool.{target_of, rest_of_walk};
ghost use Rattle.dactl_arcs.specs.Linked.{IsIn, slot_count, list_of, IsSameSize, IsValidLists};
ghost use Rattle.dactl_arcs.specs.Moves.{record_at, sent_to, idle, cleared};

use crate::link::{Link, LinkTable};
use std::alloc::{AllocError, Global};
use std::marker::Model;

/// There is not enough memory.
pub type Memory = AllocError;

/// An arc: the node it starts from, the node it leads to, and whether its owner waits along it.
#[derive(Clone, Copy, Debug, PartialEq, Eq)]
pub struct ArcRecord {
    pub owner: u32,
    pub target: u32,
    pub waits: bool,
}

/// An arc, and the one after it in the list of its target.
#[derive(Clone, Copy, Drop)]
struct LinkedArc {
    arc: ArcRecord,
    next: Link,
}

/// A list of arcs for each slot.
#[derive(Drop)]
pub struct Lists {
    // The first arc of each slot's list.
    firsts: LinkTable,
    arcs: Vec<LinkedArc>,
    room: u32,
}

impl Model for Lists {
    ghost use Rattle.std.specs.Prelude.{vec_capacity};
    ghost use Rattle.dactl_arcs.specs.Linked.{Linked};

    ghost Value = { Linked };

    ghost use Rattle.dactl_arcs.specs.Links.{records_of, lists_of, IsSound};

    ghost view = { λ l. record {
      arcs = records_of l.arcs.items;
      into = lists_of l.firsts l.arcs.items;
      room = l.room;
    } };

    ghost invariant = { λ l. IsSound l.firsts l.arcs.items l.room (vec_capacity l.arcs) };
}

impl Lists {
    /// Empty lists, so many of them, with room for so many arcs.
    ///
    /// # Errors
    ///
    /// `Memory` where there is not enough memory.
    pub fn with_room(alloc: Global, slots: u32, arcs: u32) -> Result<Lists, Memory>
        ensures arcs { IfOk result (λ lists. lists.arcs ≡ []) }
        ensures slots { IfOk result (λ lists. slot_count lists ≡ slots) }
        ensures room { IfOk result (λ lists. lists.room ≡ arcs) }
    {
        Ok(Lists {
            firsts: LinkTable::of_none(alloc, slots)?,
            arcs: Vec::with_capacity(alloc, arcs as usize)?,
            room: arcs,
        })
    }

    /// How many arcs there are in all lists.
    pub fn len(&self) -> u32
        ensures len { result ≡ length self.now.arcs }
        ensures valid { IsValidLists self.now }
    {
        self.arcs.len() as u32
    }

    /// How many arcs there may be in all lists.
    pub fn room(&self) -> u32
        ensures { result ≡ self.now.room }
    {
        self.room
    }

    /// The arc of this number.
    #[inline(always)]
    pub fn arc(&self, arc: u32) -> ArcRecord
        requires { arc < length self.now.arcs }
        ensures found { slice_get self.now.arcs arc ≡ Some result }
        ensures valid { IsValidLists self.now }
    {
        self.arcs[arc as usize].arc
    }

    /// Adds the arc in front of the list of its target.
    #[inline(always)]
    pub fn push(&mut self, arc: ArcRecord)
        requires room { length self.old.arcs < self.old.room }
        requires target { arc.target < slot_count self.old }
        ensures arcs { self.new.arcs ≡ self.old.arcs ++ arc ∷ [] }
        ensures kept { IsSameSize self.old self.new }
    {
        let number = self.arcs.len() as u32;
        let next = self.firsts.get(arc.target);
        self.firsts.set(arc.target, Link::to(number));
        self.arcs.push_reserved(LinkedArc { arc, next });
    }

    /// The first arc of the slot's list.
    #[inline(always)]
    pub fn first_into(&self, slot: u32) -> Option<u32>
        requires { slot < slot_count self.now }
        ensures first { result ≡ slice_get (list_of self.now slot) 0 }
        ensures whole { rest_of_walk result (list_of self.now slot) ≡ list_of self.now slot }
        ensures leads { IfSome result (IsIn self.now slot) }
        ensures valid { IsValidLists self.now }
    {
        self.firsts.get(slot).arc()
    }

    /// The arc after this one in its list.
    #[inline(always)]
    pub fn next_into(&self, arc: u32) -> Option<u32>
        requires { arc < length self.now.arcs }
        ensures next { let walk = list_of self.now (target_of self.now.arcs arc) in
            result ≡ slice_get (rest_of_walk (Some arc) walk) 1 }
        ensures rest { let walk = list_of self.now (target_of self.now.arcs arc) in
            rest_of_walk (Some arc) walk ≡ arc ∷ rest_of_walk result walk }
        ensures leads { IfSome result (IsIn self.now (target_of self.now.arcs arc)) }
    {
        self.arcs[arc as usize].next.arc()
    }

    /// Moves the first arc of a list in front of another.
    #[inline(always)]
    pub fn move_first(&mut self, arc: u32, from: u32, to: u32)
        requires different { from ≢ to }
        requires from_in_range { from < slot_count self.old }
        requires to_in_range { to < slot_count self.old }
        requires first { slice_get (list_of self.old from) 0 ≡ Some arc }
        ensures arcs { self.new.arcs
            ≡ slice_set self.old.arcs arc (sent_to to (record_at self.old.arcs arc)) }
        ensures fewer { length (list_of self.new from) + 1 ≡ length (list_of self.old from) }
        ensures kept { IsSameSize self.old self.new }
        ensures leads { IsIn self.old from arc }
    {
        let LinkedArc { arc: record, next } = self.arcs[arc as usize];
        let behind = self.firsts.get(to);
        self.arcs[arc as usize] = LinkedArc {
            arc: ArcRecord {
                target: to,
                ..record
            },
            next: behind,
        };
        self.firsts.set(from, next);
        self.firsts.set(to, Link::to(arc));
    }

    // Clears one flag.
    fn clear(&mut self, arc: u32)
        requires { arc < length self.old.arcs }
        ensures arcs { self.new.arcs
            ≡ slice_set self.old.arcs arc (idle (record_at self.old.arcs arc)) }
        ensures into { self.new.into ≡ self.old.into }
        ensures room { self.new.room ≡ self.old.room }
    {
        self.arcs[arc as usize].arc.waits = false;
    }

    /// Whether one slot's list is at most as long as another's. It takes time for the shorter of them.
    pub fn is_at_most_as_long(&self, one: u32, other: u32) -> bool
        requires one { one < slot_count self.now }
        requires other { other < slot_count self.now }
        ensures { result
            ≡ nat_le (length (list_of self.now one)) (length (list_of self.now other)) }
    {
        let mut left = self.first_into(one);
        let mut right = self.first_into(other);
        while let Some(arc) = left {
            left = self.next_into(arc);
            let Some(beside) = right else {
                return false;
            };
            right = self.next_into(beside);
        }
        true
    }

    /// Clears the flags of the arcs in the slot's list.
    pub fn clear_waits(&mut self, slot: u32)
        requires { slot < slot_count self.old }
        ensures arcs { self.new.arcs ≡ map (cleared slot) self.old.arcs }
        ensures into { self.new.into ≡ self.old.into }
        ensures room { self.new.room ≡ self.old.room }
    {
        let mut at = self.first_into(slot);
        while let Some(arc) = at {
            self.clear(arc);
            at = self.next_into(arc);
        }
    }
}
