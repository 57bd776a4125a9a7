//! The arguments of a line.
ghost use Rattle.std.specs.Prelude.{◌≡◌, ◌≢◌, ◌↔◌, ◌∷◌, ◌++◌, ◌<◌, ◌≤◌, ℕ, List, length, cond};
ghost use Rattle.std.specs.Prelude.{codes, false, [], ◌+◌, IfOk, IsTrue, MatchBool, MatchOption};
ghost use Rattle.dactl_model.specs.declared.graph.Arc.{Arc as TheArc};
ghost use Rattle.dactl_print.specs.Texts.{line_feed};
ghost use Rattle.dactl_resume.specs.Parts.{BeginsArgument, AreTargets};
ghost use Rattle.dactl_resume.specs.Parts.{IsFurther, AreArguments, Appended};

use dactl_base::numbers::{read_number, strip};
use dactl_model::Memory;
use dactl_model::graph::{Arc, NodeId};
use sqlite_items::Items;
use std::alloc::Global;

/// The most arguments of a node.
const MOST: usize = 16;

// Whether a `^` stands first, and what follows it.
fn split_flag(bytes: &[u8]) -> (bool, &[u8])
    ensures joined { bytes.now ≡ cond result.0 (94 ∷ []) [] ++ result.1.now }
    ensures none { result.0 ≡ false → (rest : List ℕ) → bytes.now ≢ 94 ∷ rest }
{
    match strip(bytes, b"^") {
        Some(rest) => (true, rest),
        None => (false, bytes),
    }
}

// The argument behind the lead, and what follows it.
fn read_argument<'a>(lead: &[u8], bytes: &'a [u8], count: u32) -> Option<(Arc, &'a [u8])>
    ensures { MatchOption result
        ((arc : TheArc) (rest : List ℕ) → BeginsArgument lead.now bytes.now count arc rest → ⊥)
        (λ found. BeginsArgument lead.now bytes.now count found.0 found.1.now) }
{
    let behind = strip(bytes, lead)?;
    let (waits, at) = split_flag(behind);
    let (number, rest) = read_number(b"@", at)?;
    if number < 1 || count < number {
        return None;
    }
    let target = NodeId { number: number - 1 };
    Some((Arc { target, waits }, rest))
}

fn is_end(bytes: &[u8]) -> bool
    ensures { IsTrue result ↔ (bytes.now ≡ line_feed) }
{
    bytes == b"\n".as_slice()
}

fn is_close(bytes: &[u8]) -> bool
    ensures { IsTrue result ↔ (bytes.now ≡ codes "]" ++ line_feed) }
{
    bytes == b"]\n".as_slice()
}

// Adds the further arguments that the bytes are, with the bracket and the LF, and answers whether
// they are so.
fn read_further(arcs: &mut Vec<Arc>, bytes: &[u8], count: u32) -> Result<bool, Memory>
    requires few { length arcs.old.items ≤ 16 }
    requires targets { AreTargets count arcs.old.items }
    ensures { IfOk result (λ good. MatchBool good
        (Appended arcs.old.items arcs.new.items bytes.now count)
        ((more : List TheArc) → IsFurther bytes.now more → AreTargets count more
        → length arcs.old.items + length more ≤ 16 → ⊥)) }
{
    let mut rest = bytes;
    'arguments: while !is_close(rest) {
        if arcs.len() == MOST {
            return Ok(false);
        }
        let Some((arc, behind)) = read_argument(b" ", rest, count) else {
            return Ok(false);
        };
        arcs.push(arc)?;
        rest = behind;
    }
    Ok(true)
}

/// The arguments that the bytes are, in brackets, with the LF behind them: none, or up to 16, of
/// which each leads to one of `count` nodes. None where they are no such arguments.
///
/// # Errors
///
/// `Memory` where the list of arguments cannot grow.
pub fn read_arguments(alloc: Global, bytes: &[u8], count: u32) -> Result<Option<Items<Arc>>, Memory>
    ensures { IfOk result (λ found. MatchOption found
        ((arcs : List TheArc) → AreArguments bytes.now count arcs → ⊥)
        (λ arcs. AreArguments bytes.now count arcs)) }
{
    let mut arcs = Vec::new(alloc);
    if is_end(bytes) {
        return Ok(Some(Items::from_vec(arcs)));
    }
    let Some((first, rest)) = read_argument(b"[", bytes, count) else {
        return Ok(None);
    };
    arcs.push(first)?;
    if read_further(&mut arcs, rest, count)? {
        Ok(Some(Items::from_vec(arcs)))
    } else {
        Ok(None)
    }
}
