//! A row of numbers of which only the front that was used is stored.

ghost use Rattle.std.specs.Prelude.{◌≡◌, ◌+◌, ◌-◌, ◌<◌, ◌≤◌, ◌^◌, ◌++◌, length, replicate};
ghost use Rattle.std.specs.Prelude.{slice_index, slice_set, vec_capacity, vec_len, IfOk};
ghost use Rattle.std.specs.Prelude.{if◌then◌else◌};
ghost use Rattle.dactl_arcs.specs.Naming.{IsCounting};
ghost use Rattle.dactl_arcs.specs.Tables.{initial_at, initials};

use crate::lists::Memory;
use std::alloc::Global;
use std::marker::Model;

/// A row of so many numbers.
///
/// All its memory is taken at the beginning, and a place is written when a number is first put there, or farther
/// behind. So a row of which only the front is used takes no time for the rest.
#[derive(Drop)]
pub struct Table {
    // The numbers in front, up to the farthest place where one was put.
    stored: Vec<u32>,
    length: u32,
    // Whether each number behind them is its own place; otherwise it is 0.
    counts: bool,
}

impl Model for Table {
    ghost use Rattle.std.specs.Prelude.{ℕ, List, vec_capacity};

    ghost Value = { List ℕ };

    ghost use Rattle.dactl_arcs.specs.Tables.{table_of, IsTable};

    ghost view = { λ t. table_of t.counts t.length t.stored.items };

    ghost invariant = { λ t. IsTable t.length t.stored.items (vec_capacity t.stored) };
}

// The number that a table begins with at a place.
#[inline(always)]
fn initial(counts: bool, place: u32) -> u32
    ensures { result ≡ initial_at counts place }
{
    if counts { place } else { 0 }
}

// Stores the numbers up to the place, which is behind those that are stored.
#[cold]
fn store(stored: &mut Vec<u32>, counts: bool, place: u32)
    requires behind { vec_len stored.old ≤ place }
    requires room { place < vec_capacity stored.old }
    requires fits { place + 1 < 2 ^ 32 }
    ensures items { let old = stored.old.items in
        stored.new.items ≡ old ++ initials counts (length old) (place + 1 - length old) }
    ensures capacity { vec_capacity stored.new ≡ vec_capacity stored.old }
{
    for at in stored.len() as u32..place + 1 {
        stored.push_reserved(initial(counts, at));
    }
}

impl Table {
    /// So many numbers that are all 0.
    ///
    /// # Errors
    ///
    /// `Memory` where there is not enough memory for all of them.
    pub fn of_zeros(alloc: Global, length: u32) -> Result<Table, Memory>
        ensures { IfOk result (λ table. table ≡ replicate length 0) }
    {
        Ok(Table {
            stored: Vec::with_capacity(alloc, length as usize)?,
            length,
            counts: false,
        })
    }

    /// The numbers from 0 on, so many of them.
    ///
    /// # Errors
    ///
    /// `Memory` where there is not enough memory for all of them.
    pub fn of_places(alloc: Global, length: u32) -> Result<Table, Memory>
        ensures { IfOk result (λ table. IsCounting length table) }
    {
        Ok(Table {
            stored: Vec::with_capacity(alloc, length as usize)?,
            length,
            counts: true,
        })
    }

    /// The number at the place, in constant time.
    #[inline(always)]
    pub fn get(&self, place: u32) -> u32
        requires { place < length self.now }
        ensures { result ≡ slice_index self.now place }
    {
        if (place as usize) < self.stored.len() {
            return self.stored[place as usize];
        }
        initial(self.counts, place)
    }

    /// Puts a number at the place. It takes constant time on average: all calls together write each place up to the
    /// farthest one once more than they put numbers there.
    #[inline(always)]
    pub fn set(&mut self, place: u32, number: u32)
        requires { place < length self.old }
        ensures { self.new ≡ slice_set self.old place number }
    {
        if self.stored.len() <= place as usize {
            store(&mut self.stored, self.counts, place);
        }
        self.stored[place as usize] = number;
    }
}
