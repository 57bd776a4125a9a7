//! The sample text, a program that sums the leaves of a balanced tree.
#![tactic(auto)]

ghost use Rattle.std.specs.Prelude.{◌≡◌, ℕ, ◌+◌, ◌<◌, ◌≤◌, ◌++◌, List, IfOk, OnOk};
ghost use Rattle.dactl_sample.specs.Sample.{IsTree, IsSample, leaf};

#[cfg(test)]
mod tests;

use dactl_base::digits::Digits;
use std::alloc::{AllocError, Global};

/// Want of memory.
pub type Memory = AllocError;

/// The greatest number of leaves.
pub const MOST_LEAVES: u32 = 20_000;

const FRONT: &[u8] =
    b"MODULE Sample;\nIMPORTS Arithmetic;\nSYMBOL REWRITABLE Sum;\nSYMBOL CREATABLE Node, Leaf;\nRULE\nSum[Leaf[i]] => *i |\nSum[Node[l r]] => ##IAdd[^*Sum[l] ^*Sum[r]];\nINITIAL => *Sum[";

const BACK: &[u8] = b"];\nENDMODULE Sample;\n";

fn push_leaf(digits: &mut Digits, number: u32, text: &mut Vec<u8>) -> Result<(), Memory>
    ensures { OnOk result (text.new.items ≡ text.old.items ++ leaf number) }
{
    text.extend_from_slice(b"Leaf[")?;
    text.extend_from_slice(digits.text(number as i128))?;
    text.extend_from_slice(b"]")
}

// Adds the tree over `count` leaves from `first` on. It calls itself for the halves, so at most
// fifteen calls are open at a time.
fn push_tree(digits: &mut Digits, first: u32, count: u32, text: &mut Vec<u8>) -> Result<(), Memory>
    requires some { 0 < count }
    requires few { first + count ≤ MOST_LEAVES }
    ensures { OnOk result ((tree : List ℕ)
        × IsTree first count tree
        × (text.new.items ≡ text.old.items ++ tree)) }
{
    if count == 1 {
        push_leaf(digits, first, text)?;
        return Ok(());
    }
    let half = count / 2;
    text.extend_from_slice(b"Node[")?;
    push_tree(digits, first, half, text)?;
    text.extend_from_slice(b" ")?;
    push_tree(digits, first + half, count - half, text)?;
    text.extend_from_slice(b"]")?;
    Ok(())
}

/// A program over a tree of `count` leaves, which holds the numbers from 0 on. A run of it that is
/// not stopped by its budget or its room ends with the sum of the numbers as its root.
///
/// # Errors
///
/// `Memory` where the text cannot grow.
pub fn sample_text(alloc: Global, count: u32) -> Result<Vec<u8>, Memory>
    requires some { 0 < count }
    requires few { count ≤ MOST_LEAVES }
    ensures { IfOk result (λ text. IsSample count text.items) }
{
    let mut text = Vec::from_slice(alloc, FRONT)?;
    push_tree(&mut Digits::new(), 0, count, &mut text)?;
    text.extend_from_slice(BACK)?;
    Ok(text)
}
