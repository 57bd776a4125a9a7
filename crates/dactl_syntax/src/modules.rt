//! Modules.

ghost use Rattle.std.specs.Prelude.{◌≡◌, ℕ, List};
ghost use Rattle.dactl_grammar.specs.Reader.{head_is, read_one};
ghost use Rattle.dactl_grammar.specs.Giving.{Gives};
ghost use Rattle.dactl_syntax.specs.Sort.{starts_item};
ghost use Rattle.dactl_syntax.specs.Productions.{is_name};
ghost use Rattle.dactl_syntax.specs.Reading as spec;
ghost use Rattle.dactl_terminals.specs.Reads.{by};
ghost use Rattle.dactl_terminals.specs.Seen.{seen, toks};

use crate::items::item;
use dactl_grammar::fault::{Fault, ReadError};
use dactl_meaning::tree::{Item, Module, Name};
use dactl_terminals::names::upper;
use dactl_terminals::token::{Read, Sort, Terminal, next_is, one, same_sort, word};
use sqlite_items::Items;
use std::alloc::Global;

fn starts_item(tokens: &[Terminal]) -> bool
    ensures { (text : List ℕ) → result ≡ head_is (by starts_item) (toks text tokens.now) }
{
    match tokens {
        [] => false,
        [token, ..] => matches!(
            token.sort,
            Sort::Imports | Sort::Symbol | Sort::Pattern | Sort::Rule | Sort::Initial
        ),
    }
}

#[tactic(auto, unfolding(crate::specs::Reading::items_at))]
fn items<'a>(alloc: Global, text: &[u8], tokens: &'a [Terminal], room: u32) -> Read<'a, Items<Item>>
    ensures { Gives (λ x. (x.0, toks text.now x.1.now)) result
        (spec.items_at room (toks text.now tokens.now)) }
{
    let mut found = Items::new(alloc);
    let mut rest = tokens;
    'more: while starts_item(rest) {
        let (item, after) = item(alloc, text, rest, room)?;
        found.push(item)?;
        rest = after;
    }
    Ok((found, rest))
}

/// Whether the token spells this name.
fn is_name(text: &[u8], name: &Name, token: Terminal) -> bool
    ensures { result ≡ is_name name.now (seen text.now token) }
{
    same_sort(Sort::Upper, token.sort) && word(text, token) == name.text.as_slice()
}

fn same_name<'a>(text: &[u8], name: &Name, tokens: &'a [Terminal]) -> Read<'a, Terminal>
    ensures { Gives (λ x. (seen text.now x.0, toks text.now x.1.now)) result
        (read_one (is_name name.now) (toks text.now tokens.now)) }
{
    match tokens {
        [token, rest @ ..] if is_name(text, name, *token) => Ok((*token, rest)),
        _ => Err(ReadError::Fault(Fault::Unexpected { left: tokens.len() })),
    }
}

#[tactic(auto, unfolding(crate::specs::Reading::module_at))]
fn module<'a>(alloc: Global, text: &[u8], tokens: &'a [Terminal], room: u32) -> Read<'a, Module>
    ensures { Gives (λ x. (x.0, toks text.now x.1.now)) result
        (spec.module_at room (toks text.now tokens.now)) }
{
    let (_, rest) = one(text, tokens, Sort::Module)?;
    let (name, rest) = upper(alloc, text, rest)?;
    let (_, rest) = one(text, rest, Sort::Semicolon)?;
    let (items, rest) = items(alloc, text, rest, room)?;
    let (_, rest) = one(text, rest, Sort::EndModule)?;
    let (_, rest) = same_name(text, &name, rest)?;
    let (_, rest) = one(text, rest, Sort::Semicolon)?;
    Ok((Module { name, items }, rest))
}

/// Reads one module or more, with at most so many brackets open.
///
/// # Errors
///
/// `Fault` with `Unexpected` at the first token with which no module goes on, or with `TooDeep` at
/// the first bracket past `room`, and `Memory` where memory is wanting.
#[tactic(auto, unfolding(crate::specs::Reading::modules_at))]
pub fn modules<'a>(
    alloc: Global,
    text: &[u8],
    tokens: &'a [Terminal],
    room: u32,
) -> Read<'a, Items<Module>>
    ensures { Gives (λ x. (x.0, toks text.now x.1.now)) result
        (spec.modules_at room (toks text.now tokens.now)) }
{
    let (first, after) = module(alloc, text, tokens, room)?;
    let mut found = Items::new(alloc);
    found.push(first)?;
    let mut rest = after;
    'more: while next_is(rest, Sort::Module) {
        let (item, after) = module(alloc, text, rest, room)?;
        found.push(item)?;
        rest = after;
    }
    Ok((found, rest))
}
