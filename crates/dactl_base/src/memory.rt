//! Sources and sinks in memory: the fakes that tests hand in, and the ones that never fail.

ghost use Rattle.std.specs.Prelude.{◌≡◌, ℕ, ◌<◌, ◌≤◌, [], ◌++◌, List, length, take, drop, min};
ghost use Rattle.std.specs.Prelude.{Some, None, IfOk, OnErr, Contains, ◌↔◌, ◌⊎◌, IsErr};
ghost use Rattle.std.specs.Io.KnownBytes.{ReadConsumes, WriteAppends};
ghost use Rattle.dactl_base.specs.Faults.{Rose};
ghost use Rattle.dactl_base.specs.Fakes.{FakeSource, FakeSink, one_more, given, taken, Refuses};

use crate::refusal::Memory;
use crate::sink::Sink;
use crate::source::{Failed, Source};
use std::alloc::Global;
use std::marker::Model;

// Copies the front of `rest` into `into`, at most `most` bytes, and answers how many.
fn give_front(rest: &[u8], most: usize, into: &mut [u8]) -> usize
    ensures count { result ≡ min most (min (length rest.now) (length into.old)) }
    ensures given { take result into.new ≡ take result rest.now }
{
    let count = most.min(rest.len()).min(into.len());
    into[..count].copy_from_slice(&rest[..count]);
    count
}

/// Bytes in memory, given a few at a time, with faults where a test wants them.
#[derive(Drop)]
pub struct MemorySource {
    bytes: Vec<u8>,
    next: usize,
    most: usize,
    failing: Vec<u64>,
    calls: u64,
    faults: u64,
}

impl Model for MemorySource {
    ghost Value = { FakeSource };

    ghost view = { λ s. record {
      left = drop s.next s.bytes.items;
      most = s.most;
      failing = s.failing.items;
      calls = s.calls;
      faults = s.faults;
    } };

    ghost invariant = { λ s. (s.next ≤ length s.bytes.items) × (0 < s.most) };
}

impl MemorySource {
    /// A source of these bytes that gives at most `most` a call and fails at the calls whose
    /// numbers, from 1, stand in `failing`.
    pub fn new(bytes: Vec<u8>, most: usize, failing: Vec<u64>) -> MemorySource
        requires { 0 < most }
        ensures { result ≡ record {
          left = bytes.items;
          most = most;
          failing = failing.items;
          calls = 0;
          faults = 0;
        } }
    {
        MemorySource {
            bytes,
            next: 0,
            most,
            failing,
            calls: 0,
            faults: 0,
        }
    }
}

impl Source for MemorySource {
    ghost left = { λ s. Some s.left };

    ghost faults = { λ s. s.faults };

    fn read(&mut self, into: &mut [u8]) -> Result<usize, Failed>
        requires { 0 < length into.old }
        ensures within { IfOk result (λ count. count ≤ length into.new) }
        ensures bytes { ReadConsumes (Some self.old.left) (Some self.new.left) result into.new }
        ensures later { self.old.faults ≤ self.new.faults }
        ensures cause { OnErr result (Rose self.old.faults self.new.faults) }
        ensures failing { IsErr result ↔ Contains self.old.failing (one_more self.old.calls) }
        ensures count { IfOk result (λ count. count ≡ given self.old (length into.old)) }
    {
        self.calls = self.calls.saturating_add(1);
        if self.failing.contains(&self.calls) {
            self.faults = self.faults.saturating_add(1);
            return Err(Failed);
        }
        let count = give_front(&self.bytes[self.next..], self.most, into);
        self.next += count;
        Ok(count)
    }
}

/// A sink in memory with a room, which takes a few bytes a call and has faults where a test wants
/// them.
#[derive(Drop)]
pub struct MemorySink {
    bytes: Vec<u8>,
    len: usize,
    most: usize,
    failing: Vec<u64>,
    calls: u64,
    faults: u64,
}

impl Model for MemorySink {
    ghost Value = { FakeSink };

    ghost view = { λ s. record {
      held = take s.len s.bytes.items;
      room = length s.bytes.items;
      most = s.most;
      failing = s.failing.items;
      calls = s.calls;
      faults = s.faults;
    } };

    ghost invariant = { λ s. (s.len ≤ length s.bytes.items) × (0 < s.most) };
}

impl MemorySink {
    /// A sink for `room` bytes that takes at most `most` a call, and fails at the calls whose
    /// numbers, from 1, stand in `failing` and where its room is full.
    ///
    /// # Errors
    ///
    /// `Memory` where there are no `room` bytes to be had; `failing` is gone then.
    pub fn new(
        alloc: Global,
        room: usize,
        most: usize,
        failing: Vec<u64>,
    ) -> Result<MemorySink, Memory>
        requires { 0 < most }
        ensures { IfOk result (λ s. s ≡ record {
          held = [];
          room = room;
          most = most;
          failing = failing.items;
          calls = 0;
          faults = 0;
        }) }
    {
        Ok(MemorySink {
            bytes: vec![in alloc; 0; room]?,
            len: 0,
            most,
            failing,
            calls: 0,
            faults: 0,
        })
    }

    /// The bytes taken so far.
    pub fn held(&self) -> &[u8]
        ensures { result.now ≡ self.now.held }
    {
        &self.bytes[..self.len]
    }
}

impl Sink for MemorySink {
    ghost holds = { λ s. Some s.held };

    ghost faults = { λ s. s.faults };

    fn write(&mut self, piece: &[u8]) -> Result<usize, Failed>
        requires { 0 < length piece.now }
        ensures some { IfOk result (λ count. 0 < count) }
        ensures within { IfOk result (λ count. count ≤ length piece.now) }
        ensures bytes { WriteAppends (Some self.old.held) (Some self.new.held) result piece.now }
        ensures later { self.old.faults ≤ self.new.faults }
        ensures cause { OnErr result (Rose self.old.faults self.new.faults) }
        ensures failing { IsErr result ↔ Refuses self.old }
        ensures count { IfOk result (λ count. count ≡ taken self.old (length piece.now)) }
    {
        self.calls = self.calls.saturating_add(1);
        let left = self.bytes.len() - self.len;
        if left == 0 || self.failing.contains(&self.calls) {
            self.faults = self.faults.saturating_add(1);
            return Err(Failed);
        }
        let count = self.most.min(piece.len()).min(left);
        self.bytes[self.len..self.len + count].copy_from_slice(&piece[..count]);
        self.len += count;
        Ok(count)
    }
}

/// Bytes in memory that always come, as many as asked for.
#[derive(Drop)]
pub struct SteadySource {
    bytes: Vec<u8>,
    next: usize,
}

impl Model for SteadySource {
    ghost Value = { List ℕ };

    ghost view = { λ s. drop s.next s.bytes.items };

    ghost invariant = { λ s. s.next ≤ length s.bytes.items };
}

impl SteadySource {
    /// A source of these bytes, from the first on. It gives as many a call as are asked for and
    /// left, and never fails.
    pub fn new(bytes: Vec<u8>) -> SteadySource
        ensures { result ≡ bytes.items }
    {
        SteadySource { bytes, next: 0 }
    }
}

impl Source for SteadySource {
    ghost left = { λ s. Some s };

    ghost faults = { λ _. 0 };

    fn read(&mut self, into: &mut [u8]) -> Result<usize, Failed> {
        let count = give_front(&self.bytes[self.next..], usize::MAX, into);
        self.next += count;
        Ok(count)
    }
}

/// A sink that takes all bytes and tells nothing of them.
#[derive(Clone, Copy, Debug)]
pub struct NullSink;

impl Sink for NullSink {
    ghost holds = { λ _. None };

    ghost faults = { λ _. 0 };

    fn write(&mut self, piece: &[u8]) -> Result<usize, Failed> {
        Ok(piece.len())
    }
}
