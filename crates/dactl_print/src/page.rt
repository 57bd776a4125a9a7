//! Bytes on their way to a sink.

ghost use Rattle.std.specs.Prelude.{◌≡◌, ℕ, ◌<◌, ◌≤◌, ◌++◌, List, [], length, take, IfOk};
ghost use Rattle.std.specs.Fmt.{decimal, signed_decimal};
ghost use Rattle.dactl_print.specs.Printing.{Prints};

use dactl_base::digits::Digits;
use dactl_base::sink::{Sink, write_all};
use dactl_base::source::Failed;
use dactl_model::Memory;
use std::alloc::Global;
use std::marker::Model;

/// How many bytes are gathered before they are handed on.
const SIZE: usize = 65_536;

/// The bytes that are gathered.
#[derive(Drop)]
pub struct Page {
    bytes: Vec<u8>,
    len: usize,
}

impl Model for Page {
    ghost Value = { List ℕ };

    ghost view = { λ p. take p.len p.bytes.items };

    ghost invariant = { λ p. (p.len ≤ length p.bytes.items) × (length p.bytes.items ≡ 65536) };
}

impl Page {
    /// A page on which nothing is gathered.
    ///
    /// # Errors
    ///
    /// `Memory` where there is not the memory for 65,536 bytes.
    pub fn new(alloc: Global) -> Result<Page, Memory>
        ensures { IfOk result (λ page. page ≡ []) }
    {
        Ok(Page {
            bytes: vec![in alloc; 0; SIZE]?,
            len: 0,
        })
    }

    // Takes the front of the bytes, as far as there is room, and answers how many.
    fn take_front(&mut self, bytes: &[u8]) -> usize
        ensures within { result ≤ length bytes.now }
        ensures taken { self.new ≡ self.old ++ take result bytes.now }
        ensures full { result < length bytes.now → length self.new ≡ 65536 }
    {
        let count = (self.bytes.len() - self.len).min(bytes.len());
        self.bytes[self.len..self.len + count].copy_from_slice(&bytes[..count]);
        self.len += count;
        count
    }

    /// Hands on what is gathered. Nothing is gathered afterwards, also where the sink failed.
    ///
    /// # Errors
    ///
    /// `Failed` where the sink fails. It may have taken a front of what was gathered; the rest is
    /// lost.
    pub fn hand_on<K: Sink>(&mut self, sink: &mut K) -> Result<(), Failed>
        ensures prints { Prints (K.holds sink.old) (K.holds sink.new)
            (K.faults sink.old) (K.faults sink.new) self.old self.new result [] }
        ensures empty { self.new ≡ [] }
    {
        let handed = write_all(sink, &self.bytes[..self.len]);
        self.len = 0;
        handed
    }

    // Hands on a page that is full.
    fn hand_on_full<K: Sink>(&mut self, sink: &mut K) -> Result<(), Failed>
        requires full { length self.old ≡ 65536 }
        ensures prints { Prints (K.holds sink.old) (K.holds sink.new)
            (K.faults sink.old) (K.faults sink.new) self.old self.new result [] }
        ensures empty { self.new ≡ [] }
    {
        self.hand_on(sink)
    }

    /// Gathers the bytes, and hands on each full page.
    ///
    /// # Errors
    ///
    /// `Failed` where the sink fails. It may have taken a front of what was gathered and of these
    /// bytes; nothing is gathered then.
    pub fn gather<K: Sink>(&mut self, sink: &mut K, bytes: &[u8]) -> Result<(), Failed>
        ensures { Prints (K.holds sink.old) (K.holds sink.new)
            (K.faults sink.old) (K.faults sink.new) self.old self.new result bytes.now }
    {
        let mut rest = bytes;
        loop {
            let count = self.take_front(rest);
            rest = &rest[count..];
            if rest.is_empty() {
                return Ok(());
            }
            self.hand_on_full(sink)?;
        }
    }

    /// Gathers the number in decimal.
    ///
    /// # Errors
    ///
    /// `Failed` where the sink fails. It may have taken a front of what was gathered and of its
    /// digits; nothing is gathered then.
    pub fn gather_number<K: Sink>(&mut self, sink: &mut K, n: u64) -> Result<(), Failed>
        ensures { Prints (K.holds sink.old) (K.holds sink.new)
            (K.faults sink.old) (K.faults sink.new) self.old self.new result (decimal n) }
    {
        let mut digits = Digits::new();
        self.gather(sink, digits.text(n as i128))
    }

    /// Gathers the integer in decimal, with `-` before it where it is below 0.
    ///
    /// # Errors
    ///
    /// `Failed` where the sink fails. It may have taken a front of what was gathered and of its
    /// text; nothing is gathered then.
    pub fn gather_integer<K: Sink>(&mut self, sink: &mut K, n: i128) -> Result<(), Failed>
        ensures { Prints (K.holds sink.old) (K.holds sink.new)
            (K.faults sink.old) (K.faults sink.new) self.old self.new result (signed_decimal n) }
    {
        let mut digits = Digits::new();
        self.gather(sink, digits.text(n))
    }
}
