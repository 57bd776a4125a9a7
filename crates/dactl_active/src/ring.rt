//! The ring: a doubly linked list round an anchor, by number.

ghost use Rattle.std.specs.Prelude.{◌≡◌, ◌<◌, [], length, slice_get, IfOk};
ghost use Rattle.dactl_active.specs.Ring.{has, inserted, without, turned, IsValid};
ghost use Rattle.dactl_active.specs.Places.{Rejoins, Marks};

use crate::places::{Place, Places};
use std::alloc::{AllocError, Global};
use std::marker::Model;

/// Want of memory.
pub type Memory = AllocError;

/// A ring of distinct numbers below a room.
///
/// A scheduler keeps in it what is waiting for its turn: what is new goes to the back, what is done is
/// taken out, and after each look at the front the ring turns, so that each number comes to the front.
/// No call but `with_room` takes memory. Each call takes constant time, `insert` on average: a place is written
/// when its number, or a greater one, is first put in, so numbers that are never used take no time.
#[derive(Drop)]
pub struct Ring {
    // Of the anchor, which comes behind the numbers, the next is the front and the previous the back.
    places: Places,
    room: u32,
    count: u32,
}

impl Model for Ring {
    ghost use Rattle.dactl_active.specs.Ring.{Ring as Numbers};

    ghost Value = { Numbers };

    ghost use Rattle.dactl_active.specs.Places.{following, IsRing};

    ghost view = { λ r. record {
      numbers = following r.places r.room r.count;
      room = r.room;
    } };

    ghost invariant = { λ r.
        IsRing r.places r.room r.count (following r.places r.room r.count) };
}

// Makes `after` the one that follows `before`.
#[inline(always)]
fn join(places: &mut Places, before: u32, after: u32)
    requires before_in_range { before < length places.old }
    requires after_in_range { after < length places.old }
    ensures { Rejoins places.old places.new before after }
{
    places.set_next(before, after);
    places.set_previous(after, before);
}

// Says of n whether it is in the ring.
#[inline(always)]
fn mark(places: &mut Places, n: u32, present: bool)
    requires { n < length places.old }
    ensures { Marks places.old places.new n present }
{
    places.set_present(n, present);
}

impl Ring {
    /// A ring of no numbers, with room for those below `numbers`: 12 bytes for each of them. It takes this memory,
    /// and writes none of it.
    ///
    /// # Errors
    ///
    /// `Memory` where there is not enough memory.
    pub fn with_room(alloc: Global, numbers: u32) -> Result<Ring, Memory>
        ensures numbers { IfOk result (λ ring. ring.numbers ≡ []) }
        ensures room { IfOk result (λ ring. ring.room ≡ numbers) }
    {
        let anchor = Place {
            next: numbers,
            previous: numbers,
            present: false,
        };
        Ok(Ring {
            places: Places::with_room(alloc, numbers, anchor)?,
            room: numbers,
            count: 0,
        })
    }

    /// How many numbers are in the ring.
    pub fn len(&self) -> u32
        ensures len { result ≡ length self.now.numbers }
        ensures valid { IsValid self.now }
    {
        self.count
    }

    /// Whether the number is in the ring.
    #[inline]
    pub fn contains(&self, n: u32) -> bool
        requires { n < self.now.room }
        ensures { result ≡ has self.now.numbers n }
    {
        self.places.get(n).present
    }

    /// The number at the front, or `None` where there are no numbers.
    pub fn first(&self) -> Option<u32>
        ensures first { result ≡ slice_get self.now.numbers 0 }
        ensures valid { IsValid self.now }
    {
        if self.count == 0 {
            return None;
        }
        Some(self.places.get(self.room).next)
    }

    /// Adds the number at the back. One that is in the ring already stays where it is. It takes constant time on
    /// average.
    pub fn insert(&mut self, n: u32)
        requires { n < self.old.room }
        ensures numbers { self.new.numbers ≡ inserted self.old.numbers n }
        ensures room { self.new.room ≡ self.old.room }
    {
        if self.contains(n) {
            return;
        }
        let anchor = self.room;
        let back = self.places.get(anchor).previous;
        self.places.set_next(back, n);
        let place = Place {
            next: anchor,
            previous: back,
            present: true,
        };
        self.places.set(n, place);
        self.places.set_previous(anchor, n);
        self.count += 1;
    }

    /// Takes the number out, if it is in the ring.
    pub fn remove(&mut self, n: u32)
        requires { n < self.old.room }
        ensures numbers { self.new.numbers ≡ without self.old.numbers n }
        ensures room { self.new.room ≡ self.old.room }
    {
        if !self.contains(n) {
            return;
        }
        let Place { next, previous, .. } = self.places.get(n);
        join(&mut self.places, previous, next);
        mark(&mut self.places, n, false);
        self.count -= 1;
    }

    /// Moves the number at the front to the back.
    pub fn advance(&mut self)
        ensures numbers { self.new.numbers ≡ turned self.old.numbers }
        ensures room { self.new.room ≡ self.old.room }
    {
        if let Some(front) = self.first() {
            self.remove(front);
            self.insert(front);
        }
    }
}
