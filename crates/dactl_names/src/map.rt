//! A map from names.

ghost use Rattle.std.specs.Prelude.{◌≡◌, ◌≤◌, ◌<◌, ℕ, List, All, IfOk, OnOk, None, is_none, length};
ghost use Rattle.dactl_names.specs.Found.{found, found_long, found_short, packed, Notes};
ghost use Rattle.dactl_names.specs.Found.{NotesLong, NotesShort};

use std::alloc::{AllocError, Global};
use std::collections::BTreeMap;

/// Want of memory.
pub type Memory = AllocError;

/// How many bytes a short name has at most.
const SHORT: usize = 7;

/// A map from names, in which each name keeps the first value that it got.
///
/// The names are kept by order: a text chooses its names, and could choose them for a hash. A name
/// of at most seven bytes is kept as a number, which compares in one step.
#[derive(Drop)]
pub struct NameMap<V> {
    short: BTreeMap<u64, V>,
    long: BTreeMap<Vec<u8>, V>,
}

// The number of a short name. Names that differ have different numbers.
fn packed(name: &[u8]) -> u64
    requires { length name.now ≤ 7 }
    ensures number { result ≡ packed name.now }
    ensures bytes { All (λ b. b < 256) name.now }
{
    let mut number = 0u64;
    let mut from = name.len();
    'bytes: while 0 < from {
        from -= 1;
        number = 257 * number + u64::from(name[from]) + 1;
    }
    number
}

// Gives a short name of this number the value, unless it has one.
fn note_short<V: Copy>(short: &mut BTreeMap<u64, V>, number: u64, value: V) -> Result<bool, Memory>
    ensures new { IfOk result (λ is_new. is_new ≡ is_none (found_short short.old number)) }
    ensures after { OnOk result (NotesShort number value short.old short.new) }
{
    if short.contains_key(&number) {
        return Ok(false);
    }
    short.insert(number, value)?;
    Ok(true)
}

// Gives a long name the value, unless it has one.
fn note_long<V: Copy>(
    long: &mut BTreeMap<Vec<u8>, V>,
    alloc: Global,
    name: &[u8],
    value: V,
) -> Result<bool, Memory>
    ensures new { IfOk result (λ is_new. is_new ≡ is_none (found_long long.old name.now)) }
    ensures after { OnOk result (NotesLong name.now value long.old long.new) }
{
    if long.contains_key(name) {
        return Ok(false);
    }
    long.insert(Vec::from_slice(alloc, name)?, value)?;
    Ok(true)
}

impl<V: Copy> NameMap<V> {
    /// A map without names. It takes no memory.
    pub fn new(alloc: Global) -> NameMap<V>
        ensures { (name : List ℕ) → found result name ≡ None }
    {
        NameMap {
            short: BTreeMap::new(alloc),
            long: BTreeMap::new(alloc),
        }
    }

    /// The value of the name, if it has one.
    pub fn get(&self, name: &[u8]) -> Option<V>
        ensures { result ≡ found self.now name.now }
    {
        if name.len() <= SHORT {
            self.short.get(&packed(name)).copied()
        } else {
            self.long.get(name).copied()
        }
    }

    /// Notes the value of a name, unless it has one, and tells whether it had none.
    ///
    /// # Errors
    ///
    /// Want of memory, where the name has no value yet. The map may then be used no more.
    pub fn note(&mut self, alloc: Global, name: &[u8], value: V) -> Result<bool, Memory>
        ensures new { IfOk result (λ is_new. is_new ≡ is_none (found self.old name.now)) }
        ensures after { OnOk result (Notes name.now value self.old self.new) }
    {
        if name.len() <= SHORT {
            note_short(&mut self.short, packed(name), value)
        } else {
            note_long(&mut self.long, alloc, name, value)
        }
    }
}
