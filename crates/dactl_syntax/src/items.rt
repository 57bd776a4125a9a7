//! Items of modules.

ghost use Rattle.std.specs.Prelude.{◌≡◌};
ghost use Rattle.dactl_grammar.specs.Giving.{Gives};
ghost use Rattle.dactl_syntax.specs.Sort.{is_class};
ghost use Rattle.dactl_syntax.specs.Productions.{class_of};
ghost use Rattle.dactl_syntax.specs.Reading as spec;
ghost use Rattle.dactl_terminals.specs.Seen.{toks};

use crate::patterns::pattern;
use crate::rules::groups;
use crate::terms::term;
use dactl_base::refusal::Place;
use dactl_grammar::fault::{Fault, ReadError};
use dactl_meaning::tree::{Item, TermTree};
use dactl_model::program::Class;
use dactl_terminals::names::{names, upper};
use dactl_terminals::token::{Read, Sort, Terminal, next_is, one, place_of};
use sqlite_items::Items;
use std::alloc::Global;

#[tactic(auto, unfolding(crate::specs::Reading::imports_at))]
fn imports<'a>(alloc: Global, text: &[u8], tokens: &'a [Terminal]) -> Read<'a, Item>
    ensures { Gives (λ x. (x.0, toks text.now x.1.now)) result
        (spec.imports_at (toks text.now tokens.now)) }
{
    let (_, rest) = one(text, tokens, Sort::Imports)?;
    let (names, rest) = names(alloc, text, rest)?;
    let (_, rest) = one(text, rest, Sort::Semicolon)?;
    Ok((Item::Imports { names }, rest))
}

fn class_of(sort: Sort) -> Class
    ensures { result ≡ class_of sort }
{
    match sort {
        Sort::Rewritable => Class::Rewritable,
        Sort::Overwritable => Class::Overwritable,
        _ => Class::Creatable,
    }
}

fn is_class(sort: Sort) -> bool
    ensures { result ≡ is_class sort }
{
    matches!(
        sort,
        Sort::Rewritable | Sort::Overwritable | Sort::Creatable
    )
}

#[tactic(auto, unfolding(crate::specs::Reading::class_reads))]
fn class<'a>(text: &[u8], tokens: &'a [Terminal]) -> Read<'a, (Class, Place)>
    ensures { Gives (λ x. ((x.0.0, x.0.1), toks text.now x.1.now)) result
        (spec.class_reads (toks text.now tokens.now)) }
{
    match tokens {
        [token, rest @ ..] if is_class(token.sort) => {
            Ok(((class_of(token.sort), place_of(*token)), rest))
        }
        _ => Err(ReadError::Fault(Fault::Unexpected { left: tokens.len() })),
    }
}

#[tactic(auto, unfolding(crate::specs::Reading::public_class_at))]
fn public_class<'a>(text: &[u8], tokens: &'a [Terminal]) -> Read<'a, Option<(Class, Place)>>
    ensures { Gives (λ x. (x.0, toks text.now x.1.now)) result
        (spec.public_class_at (toks text.now tokens.now)) }
{
    if next_is(tokens, Sort::Public) {
        let (_, rest) = one(text, tokens, Sort::Public)?;
        let (class, rest) = class(text, rest)?;
        Ok((Some(class), rest))
    } else {
        Ok((None, tokens))
    }
}

#[tactic(auto, unfolding(crate::specs::Reading::symbols_at, crate::specs::Reading::public_class_at))]
fn symbols<'a>(alloc: Global, text: &[u8], tokens: &'a [Terminal]) -> Read<'a, Item>
    ensures { Gives (λ x. (x.0, toks text.now x.1.now)) result
        (spec.symbols_at (toks text.now tokens.now)) }
{
    let (_, rest) = one(text, tokens, Sort::Symbol)?;
    let ((class, _), rest) = class(text, rest)?;
    let (public, rest) = public_class(text, rest)?;
    let (names, rest) = names(alloc, text, rest)?;
    let (_, rest) = one(text, rest, Sort::Semicolon)?;
    Ok((
        Item::Symbols {
            class,
            public,
            names,
        },
        rest,
    ))
}

#[tactic(auto, unfolding(crate::specs::Reading::public_at))]
fn public<'a>(text: &[u8], tokens: &'a [Terminal]) -> Read<'a, bool>
    ensures { Gives (λ x. (x.0, toks text.now x.1.now)) result
        (spec.public_at (toks text.now tokens.now)) }
{
    if next_is(tokens, Sort::Public) {
        let (_, rest) = one(text, tokens, Sort::Public)?;
        Ok((true, rest))
    } else {
        Ok((false, tokens))
    }
}

#[tactic(auto, unfolding(crate::specs::Reading::named_at))]
fn named<'a>(alloc: Global, text: &[u8], tokens: &'a [Terminal], room: u32) -> Read<'a, Item>
    ensures { Gives (λ x. (x.0, toks text.now x.1.now)) result
        (spec.named_at room (toks text.now tokens.now)) }
{
    let (_, rest) = one(text, tokens, Sort::Pattern)?;
    let (public, rest) = public(text, rest)?;
    let (name, rest) = upper(alloc, text, rest)?;
    let (_, rest) = one(text, rest, Sort::Equals)?;
    let (pattern, rest) = pattern(alloc, text, rest, room)?;
    let (_, rest) = one(text, rest, Sort::Semicolon)?;
    Ok((
        Item::Named {
            public,
            name,
            pattern,
        },
        rest,
    ))
}

#[tactic(auto, unfolding(crate::specs::Reading::rules_at))]
fn rules<'a>(alloc: Global, text: &[u8], tokens: &'a [Terminal], room: u32) -> Read<'a, Item>
    ensures { Gives (λ x. (x.0, toks text.now x.1.now)) result
        (spec.rules_at room (toks text.now tokens.now)) }
{
    let (_, rest) = one(text, tokens, Sort::Rule)?;
    let (groups, rest) = groups(alloc, text, rest, room)?;
    Ok((Item::Rules { groups }, rest))
}

#[tactic(auto, unfolding(crate::specs::Reading::comma_term_at))]
fn comma_term<'a>(
    alloc: Global,
    text: &[u8],
    tokens: &'a [Terminal],
    room: u32,
) -> Read<'a, TermTree>
    ensures { Gives (λ x. (x.0, toks text.now x.1.now)) result
        (spec.comma_term_at room (toks text.now tokens.now)) }
{
    let (_, rest) = one(text, tokens, Sort::Comma)?;
    term(alloc, text, rest, room)
}

#[tactic(auto, unfolding(crate::specs::Reading::terms_at))]
fn terms<'a>(
    alloc: Global,
    text: &[u8],
    tokens: &'a [Terminal],
    room: u32,
) -> Read<'a, Items<TermTree>>
    ensures { Gives (λ x. (x.0, toks text.now x.1.now)) result
        (spec.terms_at room (toks text.now tokens.now)) }
{
    let (first, after) = term(alloc, text, tokens, room)?;
    let mut found = Items::new(alloc);
    found.push(first)?;
    let mut rest = after;
    'more: while next_is(rest, Sort::Comma) {
        let (item, after) = comma_term(alloc, text, rest, room)?;
        found.push(item)?;
        rest = after;
    }
    Ok((found, rest))
}

#[tactic(auto, unfolding(crate::specs::Reading::initial_at))]
fn initial<'a>(alloc: Global, text: &[u8], tokens: &'a [Terminal], room: u32) -> Read<'a, Item>
    ensures { Gives (λ x. (x.0, toks text.now x.1.now)) result
        (spec.initial_at room (toks text.now tokens.now)) }
{
    let (token, rest) = one(text, tokens, Sort::Initial)?;
    let (_, rest) = one(text, rest, Sort::Rewrites)?;
    let (terms, rest) = terms(alloc, text, rest, room)?;
    let (_, rest) = one(text, rest, Sort::Semicolon)?;
    Ok((
        Item::Initial {
            place: place_of(token),
            terms,
        },
        rest,
    ))
}

/// Reads an item of a module, with at most so many brackets open.
///
/// # Errors
///
/// `Fault` with `Unexpected` at the first token with which no item goes on, or with `TooDeep` at
/// the first bracket past `room`, and `Memory` where memory is wanting.
#[tactic(auto, unfolding(crate::specs::Reading::item_at))]
pub fn item<'a>(alloc: Global, text: &[u8], tokens: &'a [Terminal], room: u32) -> Read<'a, Item>
    ensures { Gives (λ x. (x.0, toks text.now x.1.now)) result
        (spec.item_at room (toks text.now tokens.now)) }
{
    if next_is(tokens, Sort::Imports) {
        return imports(alloc, text, tokens);
    }
    if next_is(tokens, Sort::Symbol) {
        return symbols(alloc, text, tokens);
    }
    if next_is(tokens, Sort::Pattern) {
        return named(alloc, text, tokens, room);
    }
    if next_is(tokens, Sort::Rule) {
        return rules(alloc, text, tokens, room);
    }
    initial(alloc, text, tokens, room)
}
