//! Rules and their groups.

ghost use Rattle.std.specs.Prelude.{◌≡◌, ℕ, List};
ghost use Rattle.dactl_grammar.specs.Grammar.{place_of as first_place};
ghost use Rattle.dactl_grammar.specs.Giving.{Gives};
ghost use Rattle.dactl_terminals.specs.Parts.{Tok};
ghost use Rattle.dactl_syntax.specs.Reading as spec;
ghost use Rattle.dactl_terminals.specs.Seen.{toks};

use crate::patterns::{pattern, starts_piece};
use crate::terms::term;
use dactl_base::refusal::Place;
use dactl_meaning::tree::{Group, Part, RuleTree};
use dactl_terminals::names::lower;
use dactl_terminals::token::{Read, Sort, Terminal, next_is, one, same_sort};
use sqlite_items::Items;
use std::alloc::Global;

/// Whether a name before `:=` comes next.
fn redirects(tokens: &[Terminal]) -> bool
    ensures { (text : List ℕ) → result ≡ spec.redirects (toks text tokens.now) }
{
    match tokens {
        [first, second, ..] => {
            same_sort(Sort::Lower, first.sort) && same_sort(Sort::Becomes, second.sort)
        }
        _ => false,
    }
}

#[tactic(auto, unfolding(crate::specs::Reading::part_at))]
fn part<'a>(alloc: Global, text: &[u8], tokens: &'a [Terminal], room: u32) -> Read<'a, Part>
    ensures { Gives (λ x. (x.0, toks text.now x.1.now)) result
        (spec.part_at room (toks text.now tokens.now)) }
{
    if redirects(tokens) {
        let (left, rest) = lower(alloc, text, tokens)?;
        let (_, rest) = one(text, rest, Sort::Becomes)?;
        let (term, rest) = term(alloc, text, rest, room)?;
        Ok((Part::Redirect { left, term }, rest))
    } else {
        let (term, rest) = term(alloc, text, tokens, room)?;
        Ok((Part::Term { term }, rest))
    }
}

#[tactic(auto, unfolding(crate::specs::Reading::plain_at))]
fn plain<'a>(alloc: Global, text: &[u8], tokens: &'a [Terminal], room: u32) -> Read<'a, Part>
    ensures { Gives (λ x. (x.0, toks text.now x.1.now)) result
        (spec.plain_at room (toks text.now tokens.now)) }
{
    let (term, rest) = term(alloc, text, tokens, room)?;
    Ok((Part::Term { term }, rest))
}

#[tactic(auto, unfolding(crate::specs::Reading::comma_part_at))]
fn comma_part<'a>(alloc: Global, text: &[u8], tokens: &'a [Terminal], room: u32) -> Read<'a, Part>
    ensures { Gives (λ x. (x.0, toks text.now x.1.now)) result
        (spec.comma_part_at room (toks text.now tokens.now)) }
{
    let (_, rest) = one(text, tokens, Sort::Comma)?;
    part(alloc, text, rest, room)
}

#[tactic(auto, unfolding(crate::specs::Reading::plain_parts_at))]
fn plain_parts<'a>(
    alloc: Global,
    text: &[u8],
    tokens: &'a [Terminal],
    room: u32,
) -> Read<'a, Items<Part>>
    ensures { Gives (λ x. (x.0, toks text.now x.1.now)) result
        (spec.plain_parts_at room (toks text.now tokens.now)) }
{
    let (first, after) = plain(alloc, text, tokens, room)?;
    let mut found = Items::new(alloc);
    found.push(first)?;
    let mut rest = after;
    'more: while next_is(rest, Sort::Comma) {
        let (item, after) = comma_part(alloc, text, rest, room)?;
        found.push(item)?;
        rest = after;
    }
    Ok((found, rest))
}

#[tactic(auto, unfolding(crate::specs::Reading::parts_at))]
fn parts<'a>(alloc: Global, text: &[u8], tokens: &'a [Terminal], room: u32) -> Read<'a, Items<Part>>
    ensures { Gives (λ x. (x.0, toks text.now x.1.now)) result
        (spec.parts_at room (toks text.now tokens.now)) }
{
    let (first, after) = part(alloc, text, tokens, room)?;
    let mut found = Items::new(alloc);
    found.push(first)?;
    let mut rest = after;
    'more: while next_is(rest, Sort::Comma) {
        let (item, after) = comma_part(alloc, text, rest, room)?;
        found.push(item)?;
        rest = after;
    }
    Ok((found, rest))
}

/// How a rule goes on behind its pattern: whether it redirects the root, and its parts.
#[tactic(auto, unfolding(crate::specs::Reading::right_side_at, crate::specs::Reading::rewriting_at, crate::specs::Reading::redirecting_at))]
fn right_side<'a>(
    alloc: Global,
    text: &[u8],
    tokens: &'a [Terminal],
    room: u32,
) -> Read<'a, (bool, Items<Part>)>
    ensures { Gives (λ x. ((x.0.0, x.0.1), toks text.now x.1.now)) result
        (spec.right_side_at room (toks text.now tokens.now)) }
{
    if next_is(tokens, Sort::Rewrites) {
        let (_, rest) = one(text, tokens, Sort::Rewrites)?;
        let (parts, rest) = plain_parts(alloc, text, rest, room)?;
        Ok(((true, parts), rest))
    } else {
        let (_, rest) = one(text, tokens, Sort::Arrow)?;
        let (parts, rest) = parts(alloc, text, rest, room)?;
        Ok(((false, parts), rest))
    }
}

/// The first byte of the next token.
fn first_byte(tokens: &[Terminal]) -> u32
    ensures { (text : List ℕ) → result ≡ first_place (λ (t : Tok). t.place) (toks text tokens.now) }
{
    match tokens {
        [] => 0,
        [token, ..] => token.from,
    }
}

#[tactic(auto, unfolding(crate::specs::Reading::rule_at))]
fn rule<'a>(alloc: Global, text: &[u8], tokens: &'a [Terminal], room: u32) -> Read<'a, RuleTree>
    ensures { Gives (λ x. (x.0, toks text.now x.1.now)) result
        (spec.rule_at room (toks text.now tokens.now)) }
{
    let byte = first_byte(tokens);
    let (pattern, rest) = pattern(alloc, text, tokens, room)?;
    let ((redirects, parts), rest) = right_side(alloc, text, rest, room)?;
    Ok((
        RuleTree {
            place: Place { byte },
            pattern,
            redirects,
            parts,
        },
        rest,
    ))
}

#[tactic(auto, unfolding(crate::specs::Reading::bar_rule_at))]
fn bar_rule<'a>(alloc: Global, text: &[u8], tokens: &'a [Terminal], room: u32) -> Read<'a, RuleTree>
    ensures { Gives (λ x. (x.0, toks text.now x.1.now)) result
        (spec.bar_rule_at room (toks text.now tokens.now)) }
{
    let (_, rest) = one(text, tokens, Sort::Bar)?;
    rule(alloc, text, rest, room)
}

#[tactic(auto, unfolding(crate::specs::Reading::rule_list_at))]
fn rule_list<'a>(
    alloc: Global,
    text: &[u8],
    tokens: &'a [Terminal],
    room: u32,
) -> Read<'a, Items<RuleTree>>
    ensures { Gives (λ x. (x.0, toks text.now x.1.now)) result
        (spec.rule_list_at room (toks text.now tokens.now)) }
{
    let (first, after) = rule(alloc, text, tokens, room)?;
    let mut found = Items::new(alloc);
    found.push(first)?;
    let mut rest = after;
    'more: while next_is(rest, Sort::Bar) {
        let (item, after) = bar_rule(alloc, text, rest, room)?;
        found.push(item)?;
        rest = after;
    }
    Ok((found, rest))
}

#[tactic(auto, unfolding(crate::specs::Reading::group_at))]
fn group<'a>(alloc: Global, text: &[u8], tokens: &'a [Terminal], room: u32) -> Read<'a, Group>
    ensures { Gives (λ x. (x.0, toks text.now x.1.now)) result
        (spec.group_at room (toks text.now tokens.now)) }
{
    let (rules, rest) = rule_list(alloc, text, tokens, room)?;
    let (_, rest) = one(text, rest, Sort::Semicolon)?;
    Ok((Group { rules }, rest))
}

/// Reads one group of rules or more, with at most so many brackets open.
///
/// # Errors
///
/// `Fault` with `Unexpected` at the first token with which no group goes on, or with `TooDeep` at
/// the first bracket past `room`, and `Memory` where memory is wanting.
#[tactic(auto, unfolding(crate::specs::Reading::groups_at))]
pub fn groups<'a>(
    alloc: Global,
    text: &[u8],
    tokens: &'a [Terminal],
    room: u32,
) -> Read<'a, Items<Group>>
    ensures { Gives (λ x. (x.0, toks text.now x.1.now)) result
        (spec.groups_at room (toks text.now tokens.now)) }
{
    let (first, after) = group(alloc, text, tokens, room)?;
    let mut found = Items::new(alloc);
    found.push(first)?;
    let mut rest = after;
    'more: while starts_piece(rest) {
        let (item, after) = group(alloc, text, rest, room)?;
        found.push(item)?;
        rest = after;
    }
    Ok((found, rest))
}
