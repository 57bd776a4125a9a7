//! Names, and lists of them.

ghost use Rattle.std.specs.Prelude.{◌≡◌};
ghost use Rattle.dactl_grammar.specs.Giving.{Gives};
ghost use Rattle.dactl_terminals.specs.Reads.{upper_at, lower_at, comma_upper_at, names_at};
ghost use Rattle.dactl_terminals.specs.Seen.{toks};

use crate::token::{Read, Sort, Terminal, name_at, next_is, one};
use dactl_meaning::tree::Name;
use sqlite_items::Items;
use std::alloc::Global;

/// Reads a name that begins with `A` to `Z`.
///
/// # Errors
///
/// `Fault` where another token comes next, as `one` has it, and `Memory` where memory for the name
/// is wanting.
#[tactic(auto, unfolding(crate::specs::Reads::upper_at))]
pub fn upper<'a>(alloc: Global, text: &[u8], tokens: &'a [Terminal]) -> Read<'a, Name>
    ensures { Gives (λ x. (x.0, toks text.now x.1.now)) result
        (upper_at (toks text.now tokens.now)) }
{
    let (token, rest) = one(text, tokens, Sort::Upper)?;
    Ok((name_at(alloc, text, token)?, rest))
}

/// Reads a name that begins with `a` to `z`.
///
/// # Errors
///
/// `Fault` where another token comes next, as `one` has it, and `Memory` where memory for the name
/// is wanting.
#[tactic(auto, unfolding(crate::specs::Reads::lower_at))]
pub fn lower<'a>(alloc: Global, text: &[u8], tokens: &'a [Terminal]) -> Read<'a, Name>
    ensures { Gives (λ x. (x.0, toks text.now x.1.now)) result
        (lower_at (toks text.now tokens.now)) }
{
    let (token, rest) = one(text, tokens, Sort::Lower)?;
    Ok((name_at(alloc, text, token)?, rest))
}

#[tactic(auto, unfolding(crate::specs::Reads::comma_upper_at))]
fn comma_upper<'a>(alloc: Global, text: &[u8], tokens: &'a [Terminal]) -> Read<'a, Name>
    ensures { Gives (λ x. (x.0, toks text.now x.1.now)) result
        (comma_upper_at (toks text.now tokens.now)) }
{
    let (_, rest) = one(text, tokens, Sort::Comma)?;
    upper(alloc, text, rest)
}

/// Reads one upper name or more, with `,` between them, as many as there are.
///
/// # Errors
///
/// `Fault` where no upper name comes first or behind a `,`, at the token there, and `Memory` where
/// memory for a name or for the list is wanting.
#[tactic(auto, unfolding(crate::specs::Reads::names_at))]
pub fn names<'a>(alloc: Global, text: &[u8], tokens: &'a [Terminal]) -> Read<'a, Items<Name>>
    ensures { Gives (λ x. (x.0, toks text.now x.1.now)) result
        (names_at (toks text.now tokens.now)) }
{
    let (first, after) = upper(alloc, text, tokens)?;
    let mut found = Items::new(alloc);
    found.push(first)?;
    let mut rest = after;
    'more: while next_is(rest, Sort::Comma) {
        let (item, after) = comma_upper(alloc, text, rest)?;
        found.push(item)?;
        rest = after;
    }
    Ok((found, rest))
}
