//! From a text to its equations.

ghost use Rattle.std.specs.Prelude.{◌≤◌, length};
ghost use Rattle.fun_syntax.specs.Reads.{Answers};

use crate::faults::first_fault;
use crate::text::parse;
use dactl_base::refusal::TextFault;
use dactl_tokens::tokens;
use fun_meaning::tree::Fun;
use std::alloc::Global;

/// The equations of a text.
///
/// # Errors
///
/// `Refused` with the fault of the first phase that has one. Phase 1 is the tokens: `BadByte` and
/// `NumberTooWide`. Phase 2 is the grammar: `Unexpected` at the first token with which the tokens
/// so far begin no text (a text of language 2 has it at its Header), `TooDeep` at the first
/// bracket that makes more than 100 open. Phase 3 is what the names are, by the least place.
/// `Memory` where memory is wanting, which tells nothing of the text.
pub fn read_fun(alloc: Global, text: &[u8]) -> Result<Fun, TextFault>
    requires { length text.now ≤ 1048576 }
    ensures { Answers text.now result }
{
    let tokens = tokens(alloc, text)?;
    let found = parse(alloc, text, tokens.as_slice())?;
    match first_fault(alloc, &found)? {
        None => Ok(found),
        Some(refusal) => Err(TextFault::Refused(refusal)),
    }
}
