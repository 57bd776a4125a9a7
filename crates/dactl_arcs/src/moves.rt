//! Pairs of numbers, each of which sends the first number to the second.

ghost use Rattle.std.specs.Prelude.{◌≡◌, ◌<◌, ◌≤◌, ◌^◌, ◌==◌, true, false};
ghost use Rattle.std.specs.Prelude.{length, slice_set, if◌then◌else◌};
ghost use Rattle.dactl_arcs.specs.Moves.{moved_to};
ghost use Rattle.dactl_arcs.specs.Slots.{AreSlotsBelow, slot_of};
ghost use Rattle.dactl_arcs.specs.Stamps.{AreStamped};

use crate::slots::slot_for;
use crate::table::Table;

/// Where the pairs send a number: to the second number of the first pair that begins with it. A number
/// that no pair begins with stays.
pub fn moved_number(moves: &[(u32, u32)], number: u32) -> u32
    ensures { result ≡ moved_to moves.now number }
{
    for pair in moves {
        if pair.0 == number {
            return pair.1;
        }
    }
    number
}

// Gives the stamp to both slots of a target, unless it is sent to itself.
fn stamp_both(slots: &mut Table, from: u32, to: u32, stamp: u32)
    requires below { slot_of from true < length slots.old }
    requires fits { slot_of from true < 2 ^ 32 }
    ensures { let plain = slice_set slots.old (slot_of from false) stamp in
        slots.new ≡ (if to == from then slots.old else slice_set plain (slot_of from true) stamp) }
{
    if to == from {
        return;
    }
    slots.set(slot_for(from, false), stamp);
    slots.set(slot_for(from, true), stamp);
}

/// Gives the stamp to both slots of each target that the pairs send elsewhere.
pub fn stamp_slots(slots: &mut Table, moves: &[(u32, u32)], stamp: u32)
    requires below { AreSlotsBelow (length slots.old) moves.now }
    requires fits { length slots.old ≤ 2 ^ 32 }
    ensures { AreStamped moves.now stamp slots.old slots.new }
{
    for pair in moves {
        let to = moved_number(moves, pair.0);
        stamp_both(slots, pair.0, to, stamp);
    }
}
