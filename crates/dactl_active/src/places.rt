//! Where the numbers of a ring stand: a place for each number and one for the anchor, of which only those in front
//! that were used are stored.

ghost use Rattle.std.specs.Prelude.{◌≡◌, ◌+◌, ◌-◌, ◌<◌, ◌≤◌, ◌++◌, ◌∷◌, []};
ghost use Rattle.std.specs.Prelude.{length, replicate, slice_index_or, slice_set};
ghost use Rattle.std.specs.Prelude.{vec_capacity, vec_len, IfOk};
ghost use Rattle.dactl_active.specs.Round.{blank, round};

use crate::ring::Memory;
use std::alloc::Global;
use std::marker::Model;

/// Where a number stands. What it says of its neighbors counts while the number is present.
#[derive(Clone, Copy, Drop)]
pub struct Place {
    pub next: u32,
    pub previous: u32,
    pub present: bool,
}

/// The places of the numbers below a room, and behind them that of the anchor.
///
/// All memory is taken at the beginning, and a place is written when its number, or a greater one, is first put
/// in. So places that are never used take no time.
#[derive(Drop)]
pub struct Places {
    // Those of the numbers up to the greatest that was put in.
    stored: Vec<Place>,
    anchor: Place,
    room: u32,
}

impl Model for Places {
    ghost use Rattle.std.specs.Prelude.{List, vec_capacity};
    ghost use Rattle.dactl_active.specs.declared.places.Place.{Place as Standing};

    ghost Value = { List Standing };

    ghost use Rattle.dactl_active.specs.Round.{round, IsStored};

    ghost view = { λ p. round p.room p.stored.items p.anchor };

    ghost invariant = { λ p. IsStored p.room p.stored.items (vec_capacity p.stored) };
}

// The place of a number that is in no ring.
fn vacant() -> Place
    ensures { result ≡ blank }
{
    Place {
        next: 0,
        previous: 0,
        present: false,
    }
}

// Stores the places up to that of n, which is behind those that are stored.
#[cold]
fn store(stored: &mut Vec<Place>, n: u32)
    requires behind { vec_len stored.old ≤ n }
    requires room { n < vec_capacity stored.old }
    ensures items { let old = stored.old.items in
        stored.new.items ≡ old ++ replicate (n + 1 - length old) blank }
    ensures capacity { vec_capacity stored.new ≡ vec_capacity stored.old }
{
    for at in stored.len()..n as usize + 1 {
        stored.push_reserved(vacant());
    }
}

// Stores the places up to that of n where they are not stored yet.
#[inline(always)]
fn reach(stored: &mut Vec<Place>, n: u32)
    requires { n < vec_capacity stored.old }
    ensures items { let old = stored.old.items in
        stored.new.items ≡ old ++ replicate (n + 1 - length old) blank }
    ensures capacity { vec_capacity stored.new ≡ vec_capacity stored.old }
{
    if stored.len() <= n as usize {
        store(stored, n);
    }
}

impl Places {
    /// The places of so many numbers, none of which is present, and the anchor's.
    ///
    /// # Errors
    ///
    /// `Memory` where there is not enough memory for all of them.
    pub fn with_room(alloc: Global, room: u32, anchor: Place) -> Result<Places, Memory>
        ensures { IfOk result (λ places. places ≡ replicate room blank ++ anchor ∷ []) }
    {
        Ok(Places {
            stored: Vec::with_capacity(alloc, room as usize)?,
            anchor,
            room,
        })
    }

    /// The place of a number, or of the anchor, which comes behind all numbers.
    #[inline(always)]
    pub fn get(&self, n: u32) -> Place
        requires { n < length self.now }
        ensures { result ≡ slice_index_or self.now n blank }
    {
        if (n as usize) < self.stored.len() {
            return self.stored[n as usize];
        }
        if n == self.room {
            self.anchor
        } else {
            vacant()
        }
    }

    /// Changes the place of a number, or of the anchor. It takes constant time on average, since each place is
    /// stored only once.
    #[inline(always)]
    pub fn set(&mut self, n: u32, place: Place)
        requires { n < length self.old }
        ensures { self.new ≡ slice_set self.old n place }
    {
        if n == self.room {
            self.anchor = place;
            return;
        }
        reach(&mut self.stored, n);
        self.stored[n as usize] = place;
    }

    /// Changes the number that follows, as `set` does, and writes no more than that.
    #[inline(always)]
    pub fn set_next(&mut self, n: u32, next: u32)
        requires { n < length self.old }
        ensures { self.new ≡ slice_set self.old n
            (record (slice_index_or self.old n blank) { next = next }) }
    {
        if n == self.room {
            self.anchor.next = next;
            return;
        }
        reach(&mut self.stored, n);
        self.stored[n as usize].next = next;
    }

    /// Changes the number that comes before, as `set` does, and writes no more than that.
    #[inline(always)]
    pub fn set_previous(&mut self, n: u32, previous: u32)
        requires { n < length self.old }
        ensures { self.new ≡ slice_set self.old n
            (record (slice_index_or self.old n blank) { previous = previous }) }
    {
        if n == self.room {
            self.anchor.previous = previous;
            return;
        }
        reach(&mut self.stored, n);
        self.stored[n as usize].previous = previous;
    }

    /// Says whether the number is present, as `set` does, and writes no more than that.
    #[inline(always)]
    pub fn set_present(&mut self, n: u32, present: bool)
        requires { n < length self.old }
        ensures { self.new ≡ slice_set self.old n
            (record (slice_index_or self.old n blank) { present = present }) }
    {
        if n == self.room {
            self.anchor.present = present;
            return;
        }
        reach(&mut self.stored, n);
        self.stored[n as usize].present = present;
    }
}
