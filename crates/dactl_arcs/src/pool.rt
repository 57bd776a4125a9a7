//! The pool: arcs between numbered nodes, and the redirection of all arcs into a node.

ghost use Rattle.std.specs.Prelude.{◌≡◌, ◌<◌, ◌≤◌, ◌^◌, ◌↔◌, [], ◌∷◌, ◌++◌, All, length, map};
ghost use Rattle.std.specs.Prelude.{slice_get, Some, IfOk, IfSome, OnOk, OnErr, IsErr};
ghost use Rattle.dactl_arcs.specs.Pool.{IsValid, LeadsTo, arc_record, arcs_into};
ghost use Rattle.dactl_arcs.specs.Pool.{rest_of_walk, target_of, targets};
ghost use Rattle.dactl_arcs.specs.Moves.{cleared, landed, parked, retargeted};
ghost use Rattle.dactl_arcs.specs.Kept.{AreBelow, IsKept};
ghost use Rattle.dactl_arcs.specs.Slots.{AreSlotsBelow, IsHoused, in_slots};
ghost use Rattle.dactl_arcs.specs.Stamps.{changed_by};

use crate::lists::{ArcRecord, Memory};
use crate::slots::{arc_seen, slot_for};
use crate::stamped::StampedLists;
use std::alloc::{AllocError, Global};
use std::marker::Model;
use thiserror::Error;

/// How many pairs one redirection has at most.
pub const MOST_MOVES: u32 = 65;

/// The greatest number of nodes between which a pool has arcs.
pub const MOST_TARGETS: u32 = 2_147_483_615;

/// The pool has no room for a further arc.
#[derive(Debug, Drop, Error)]
#[error("the pool of arcs is full")]
pub struct PoolFull;

/// Arcs between numbered nodes, each with the list of the arcs into it.
///
/// Arcs are numbered from 0 in the order in which they were added, and stay. A walk from `first_into` by
/// `next_into` visits each arc into a node along which its owner waits once, and no other arc, in an order that
/// is left open and that may change where arcs are added or redirected. No call but `with_room` takes memory.
#[derive(Drop)]
pub struct ArcPool {
    // A spare slot for each pair of a redirection, and behind them two for each target: one with the arcs along
    // which nobody waits, and one with the others.
    lists: StampedLists,
}

impl Model for ArcPool {
    ghost use Rattle.dactl_arcs.specs.Pool.{Pool, targets};

    ghost Value = { Pool };

    ghost use Rattle.dactl_arcs.specs.Slots.{IsOver, pool_seen};

    ghost view = { λ p. pool_seen p.lists };

    ghost invariant = { λ p. IsOver p.lists (targets (pool_seen p.lists)) };
}

// Moves all arcs of a slot to another, which may be the same.
#[inline(always)]
fn move_slot(lists: &mut StampedLists, from: u32, to: u32)
    requires from_in_range { from < targets lists.old }
    requires to_in_range { to < targets lists.old }
    ensures arcs { lists.new.arcs ≡ map (retargeted ((from, to) ∷ [])) lists.old.arcs }
    ensures kept { IsKept lists.old lists.new }
    ensures changed { lists.new.changed ≡ lists.old.changed }
    ensures newest { lists.new.newest ≡ lists.old.newest }
{
    if from != to {
        lists.merge(from, to);
    }
}

// Moves the arcs into the first target of each pair that have the flag to the pair's own spare slot, which is
// empty, so that at most one arc is touched. A target of which an earlier pair took the arcs has none left.
#[inline(never)]
fn park(lists: &mut StampedLists, moves: &[(u32, u32)], waits: bool)
    requires few { length moves.now ≤ MOST_MOVES }
    requires below { AreSlotsBelow (targets lists.old) moves.now }
    requires fits { targets lists.old ≤ 2 ^ 32 }
    ensures arcs { lists.new.arcs ≡ map (parked 0 (in_slots waits moves.now)) lists.old.arcs }
    ensures kept { IsKept lists.old lists.new }
    ensures changed { lists.new.changed ≡ lists.old.changed }
    ensures newest { lists.new.newest ≡ lists.old.newest }
{
    for (place, pair) in moves.iter().enumerate() {
        lists.merge(slot_for(pair.0, waits), place as u32);
    }
}

// Moves the arcs in each pair's spare slot to the slot of the pair's second target.
#[inline(never)]
fn land(lists: &mut StampedLists, moves: &[(u32, u32)], waits: bool)
    requires few { length moves.now ≤ MOST_MOVES }
    requires below { AreSlotsBelow (targets lists.old) moves.now }
    requires fits { targets lists.old ≤ 2 ^ 32 }
    ensures arcs { lists.new.arcs ≡ map (landed 0 (in_slots waits moves.now)) lists.old.arcs }
    ensures kept { IsKept lists.old lists.new }
    ensures changed { lists.new.changed ≡ lists.old.changed }
    ensures newest { lists.new.newest ≡ lists.old.newest }
{
    for (place, pair) in moves.iter().enumerate() {
        lists.merge(place as u32, slot_for(pair.1, waits));
    }
}

// Moves the arcs that have the flag as the pairs say, all at the same time.
#[inline(always)]
fn move_slots(lists: &mut StampedLists, moves: &[(u32, u32)], waits: bool)
    requires few { length moves.now ≤ MOST_MOVES }
    requires below { AreSlotsBelow (targets lists.old) moves.now }
    requires fits { targets lists.old ≤ 2 ^ 32 }
    requires ends { All IsHoused lists.old.arcs }
    ensures arcs { lists.new.arcs ≡ map (retargeted (in_slots waits moves.now)) lists.old.arcs }
    ensures kept { IsKept lists.old lists.new }
    ensures changed { lists.new.changed ≡ lists.old.changed }
    ensures newest { lists.new.newest ≡ lists.old.newest }
{
    if moves.len() == 1 {
        let from = slot_for(moves[0].0, waits);
        let to = slot_for(moves[0].1, waits);
        move_slot(lists, from, to);
        return;
    }
    park(lists, moves, waits);
    land(lists, moves, waits);
}

impl ArcPool {
    /// An empty pool, with room for so many arcs between so many nodes. It takes 24 bytes for each arc and 32 for
    /// each node. What is never used of them is never written.
    ///
    /// # Errors
    ///
    /// `Memory` where there is not enough memory, and where `targets` is above `MOST_TARGETS`.
    pub fn with_room(alloc: Global, targets: u32, arcs: u32) -> Result<ArcPool, Memory>
        ensures arcs { IfOk result (λ pool. pool.arcs ≡ []) }
        ensures number { IfOk result (λ pool. length pool.into ≡ targets) }
        ensures room { IfOk result (λ pool. pool.room ≡ arcs) }
        ensures changed { IfOk result (λ pool. pool.changed ≡ []) }
        ensures newest { IfOk result (λ pool. pool.newest ≡ 0) }
    {
        if targets > MOST_TARGETS {
            return Err(AllocError);
        }
        let slots = targets + targets + MOST_MOVES;
        Ok(ArcPool {
            lists: StampedLists::with_room(alloc, slots, arcs)?,
        })
    }

    /// How many arcs there are; the next one that is added has this number.
    pub fn len(&self) -> u32
        ensures len { result ≡ length self.now.arcs }
        ensures valid { IsValid self.now }
    {
        self.lists.len()
    }

    /// How many arcs there may be.
    pub fn room(&self) -> u32
        ensures { result ≡ self.now.room }
    {
        self.lists.room()
    }

    /// Adds an arc and gives its number, the next one. Its target has not changed yet.
    ///
    /// # Errors
    ///
    /// `PoolFull` where there are as many arcs as there may be. The pool stays as it is.
    pub fn add(&mut self, owner: u32, target: u32, waits: bool) -> Result<u32, PoolFull>
        requires owner { owner < targets self.old }
        requires target { target < targets self.old }
        ensures number { IfOk result (λ arc. arc ≡ length self.old.arcs) }
        ensures added { OnOk result
            (self.new.arcs ≡ self.old.arcs ++ arc_record owner target waits ∷ []) }
        ensures kept { IsKept self.old self.new }
        ensures changed { OnOk result (self.new.changed ≡ self.old.changed ++ 0 ∷ []) }
        ensures newest { self.new.newest ≡ self.old.newest }
        ensures full { IsErr result ↔ (length self.old.arcs ≡ self.old.room) }
        ensures err { OnErr result (self.new ≡ self.old) }
    {
        let number = self.lists.len();
        if number == self.lists.room() {
            return Err(PoolFull);
        }
        let target = slot_for(target, waits);
        self.lists.push(ArcRecord {
            owner,
            target,
            waits,
        });
        Ok(number)
    }

    /// The arc of this number.
    #[inline]
    pub fn arc(&self, arc: u32) -> ArcRecord
        requires { arc < length self.now.arcs }
        ensures { slice_get self.now.arcs arc ≡ Some result }
    {
        arc_seen(self.lists.arc(arc))
    }

    /// The arc at which a walk along the arcs into the target along which their owners wait begins, if there
    /// are any.
    pub fn first_into(&self, target: u32) -> Option<u32>
        requires { target < targets self.now }
        ensures first { result ≡ slice_get (arcs_into self.now target) 0 }
        ensures whole { let walk = arcs_into self.now target in
            rest_of_walk result walk ≡ walk }
        ensures leads { IfSome result (LeadsTo self.now target) }
        ensures valid { IsValid self.now }
    {
        self.lists.first_into(slot_for(target, true))
    }

    /// The arc at which a walk that has come to this arc goes on, unless it is the last.
    pub fn next_into(&self, arc: u32) -> Option<u32>
        requires { LeadsTo self.now (target_of self.now.arcs arc) arc }
        ensures next { let walk = arcs_into self.now (target_of self.now.arcs arc) in
            result ≡ slice_get (rest_of_walk (Some arc) walk) 1 }
        ensures rest { let walk = arcs_into self.now (target_of self.now.arcs arc) in
            rest_of_walk (Some arc) walk ≡ arc ∷ rest_of_walk result walk }
        ensures leads { IfSome result (LeadsTo self.now (target_of self.now.arcs arc)) }
    {
        self.lists.next_into(arc)
    }

    /// Sends each arc into the first number of a pair to the pair's second number, all at the same time: no
    /// arc is sent twice, and of the pairs that begin with its target the first one counts. Each arc that
    /// has another target then changed last at this stamp.
    ///
    /// Redirection merges lists. It touches the arc of a list that has no other, and of two longer lists only the
    /// arcs of the shorter one. As no list of an arc ever gets shorter, no arc is touched more than log2(arcs) times
    /// by all calls together where it is not alone. (That is an argument; no clause speaks of time.) Each call also
    /// takes time for the square of the number of pairs.
    pub fn redirect(&mut self, moves: &[(u32, u32)], stamp: u32)
        requires few { length moves.now ≤ MOST_MOVES }
        requires below { AreBelow (targets self.old) moves.now }
        requires newer { self.old.newest < stamp }
        ensures arcs { self.new.arcs ≡ map (retargeted moves.now) self.old.arcs }
        ensures changed { self.new.changed
            ≡ changed_by moves.now stamp self.old.arcs self.old.changed }
        ensures newest { self.new.newest ≡ stamp }
        ensures kept { IsKept self.old self.new }
    {
        self.lists.stamp_moved(moves, stamp);
        move_slots(&mut self.lists, moves, false);
        move_slots(&mut self.lists, moves, true);
    }

    /// The last change of the arc: the stamp of the redirection that gave it its target, or 0 where it has
    /// the target with which it was added. It takes constant time.
    pub fn changed(&self, arc: u32) -> u32
        requires { arc < length self.now.arcs }
        ensures { slice_get self.now.changed arc ≡ Some result }
    {
        self.lists.arc_and_change(arc).1
    }

    /// The arc of this number, and its last change.
    #[inline]
    pub fn arc_and_change(&self, arc: u32) -> (ArcRecord, u32)
        requires { arc < length self.now.arcs }
        ensures arc { slice_get self.now.arcs arc ≡ Some result.0 }
        ensures changed { slice_get self.now.changed arc ≡ Some result.1 }
    {
        let (record, change) = self.lists.arc_and_change(arc);
        (arc_seen(record), change)
    }

    /// Clears the flags of the arcs into the target, in the time of a walk along those that have one.
    pub fn clear_waits(&mut self, target: u32)
        requires { target < targets self.old }
        ensures arcs { self.new.arcs ≡ map (cleared target) self.old.arcs }
        ensures kept { IsKept self.old self.new }
        ensures changed { self.new.changed ≡ self.old.changed }
        ensures newest { self.new.newest ≡ self.old.newest }
    {
        let lists = &mut self.lists;
        let waiting = slot_for(target, true);
        lists.clear_waits(waiting);
        lists.merge(waiting, slot_for(target, false));
    }
}
