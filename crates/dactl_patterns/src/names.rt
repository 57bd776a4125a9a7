//! Names that are different, in the order of their first places.

ghost use Rattle.std.specs.Prelude.{◌≡◌, not, IfOk, OnOk, length, ◌≤◌};
ghost use Rattle.std.specs.Str.{bytes_eq};
ghost use Rattle.dactl_meaning.specs.Expansion.{each_once, number_in};
ghost use Rattle.dactl_patterns.specs.Naming.{has_word, with_word, names_in};

use crate::occurrences::Occurrence;
use sqlite_items::Items;
use std::alloc::{AllocError, Global};
use std::collections::BTreeSet;

/// Adds the name, unless it is there already, and answers whether it was added. The set is ordered:
/// a text chooses its names, and could choose them for a hash.
///
/// # Errors
/// `AllocError` for want of memory; the set is as it was.
pub fn add<'a>(names: &mut BTreeSet<&'a [u8]>, name: &'a [u8]) -> Result<bool, AllocError>
    ensures added { IfOk result (λ added. added ≡ not (has_word names.old name.now)) }
    ensures names { OnOk result (has_word names.new ≡ with_word (has_word names.old) name.now) }
{
    Ok(names.insert(name)?)
}

/// The names of these places, each once, in the order of their first places.
///
/// # Errors
/// `AllocError` for want of memory.
pub fn variables(alloc: Global, occurrences: &[Occurrence]) -> Result<Items<Items<u8>>, AllocError>
    ensures { IfOk result (λ names. names ≡ each_once (names_in occurrences.now)) }
{
    let mut seen = BTreeSet::new(alloc);
    let mut names = Items::new(alloc);
    for occurrence in occurrences {
        let name = occurrence.name.text.as_slice();
        if add(&mut seen, name)? {
            names.push(Items::from_slice(alloc, name)?)?;
        }
    }
    Ok(names)
}

fn is_named(other: &Items<u8>, name: &[u8]) -> bool
    ensures { result ≡ bytes_eq other.now name.now }
{
    other.as_slice() == name
}

/// How many other names stand before this one.
pub fn number(names: &[Items<u8>], name: &[u8]) -> usize
    ensures number { result ≡ number_in names.now name.now }
    ensures within { result ≤ length names.now }
{
    for (i, other) in names.iter().enumerate() {
        if is_named(other, name) {
            return i;
        }
    }
    names.len()
}
