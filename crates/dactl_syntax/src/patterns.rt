//! Patterns, and what stands within their brackets.

ghost use Rattle.std.specs.Prelude.{◌≡◌, ℕ, List, IfOk};
ghost use Rattle.dactl_syntax.specs.Sort.{is_sign, starts_piece};
ghost use Rattle.dactl_syntax.specs.Productions.{chain_at};
ghost use Rattle.dactl_grammar.specs.Reader.{head_is};
ghost use Rattle.dactl_terminals.specs.Reads.{by};
ghost use Rattle.dactl_syntax.specs.Reading.{operator_at, base_at, piece_reads, pattern_at};
ghost use Rattle.dactl_syntax.specs.Reading.{squares_at, rounds_at, pieces_at, links_at, link_at};
ghost use Rattle.dactl_grammar.specs.Giving.{Gives};
ghost use Rattle.dactl_terminals.specs.Seen.{toks};

use crate::terms::letter;
use dactl_grammar::fault::{Fault, ReadError};
use dactl_meaning::tree::{PatternTree, Sign};
use dactl_terminals::names::{lower, upper};
use dactl_terminals::token::{Sort, Terminal, next_is, one, value};
use sqlite_items::{Boxed, Items};
use std::alloc::{AllocError, Global};

/// Whether a token comes next with which a piece of a pattern begins.
pub fn starts_piece(tokens: &[Terminal]) -> bool
    ensures { (text : List ℕ) → result ≡ head_is (by starts_piece) (toks text tokens.now) }
{
    match tokens {
        [] => false,
        [token, ..] => matches!(
            token.sort,
            Sort::Lower
                | Sort::Any
                | Sort::Int
                | Sort::Char
                | Sort::Integer
                | Sort::Character
                | Sort::Upper
                | Sort::Left
        ),
    }
}

fn is_sign(tokens: &[Terminal]) -> bool
    ensures { (text : List ℕ) → result ≡ head_is (by is_sign) (toks text tokens.now) }
{
    match tokens {
        [] => false,
        [token, ..] => matches!(token.sort, Sort::Plus | Sort::Minus),
    }
}

#[tactic(auto, unfolding(crate::specs::Reading::operator_at))]
fn operator<'a>(text: &[u8], tokens: &'a [Terminal]) -> Result<(Sign, &'a [Terminal]), ReadError>
    ensures { Gives (λ x. (x.0, toks text.now x.1.now)) result
        (operator_at (toks text.now tokens.now)) }
{
    if next_is(tokens, Sort::Plus) {
        let (_, rest) = one(text, tokens, Sort::Plus)?;
        Ok((Sign::Plus, rest))
    } else {
        let (_, rest) = one(text, tokens, Sort::Minus)?;
        Ok((Sign::Minus, rest))
    }
}

#[tactic(auto, unfolding(crate::specs::Reading::base_at))]
#[cycle(patterns)]
fn base<'a>(
    alloc: Global,
    text: &[u8],
    tokens: &'a [Terminal],
    room: u32,
) -> Result<(PatternTree, &'a [Terminal]), ReadError>
    ensures { Gives (λ x. (x.0, toks text.now x.1.now)) result
        (base_at room (toks text.now tokens.now)) }
{
    if next_is(tokens, Sort::Any) {
        let (_, rest) = one(text, tokens, Sort::Any)?;
        return Ok((PatternTree::Any, rest));
    }
    if next_is(tokens, Sort::Int) {
        let (_, rest) = one(text, tokens, Sort::Int)?;
        return Ok((PatternTree::Int, rest));
    }
    if next_is(tokens, Sort::Char) {
        let (_, rest) = one(text, tokens, Sort::Char)?;
        return Ok((PatternTree::Char, rest));
    }
    if next_is(tokens, Sort::Integer) {
        let (token, rest) = one(text, tokens, Sort::Integer)?;
        let value = value(true, text, token);
        return Ok((PatternTree::Integer { value }, rest));
    }
    if next_is(tokens, Sort::Character) {
        let (token, rest) = one(text, tokens, Sort::Character)?;
        let value = letter(text, token);
        return Ok((PatternTree::Letter { value }, rest));
    }
    if !next_is(tokens, Sort::Upper) {
        return rounds(alloc, text, tokens, room);
    }
    let (name, rest) = upper(alloc, text, tokens)?;
    if next_is(rest, Sort::Open) {
        let (args, rest) = squares(alloc, text, rest, room)?;
        Ok((PatternTree::Sym { name, args }, rest))
    } else {
        Ok((
            PatternTree::Sym {
                name,
                args: Items::new(alloc),
            },
            rest,
        ))
    }
}

#[tactic(auto, unfolding(crate::specs::Reading::piece_reads, crate::specs::Reading::base_at))]
#[cycle(patterns)]
fn piece<'a>(
    alloc: Global,
    text: &[u8],
    tokens: &'a [Terminal],
    room: u32,
) -> Result<(PatternTree, &'a [Terminal]), ReadError>
    ensures { Gives (λ x. (x.0, toks text.now x.1.now)) result
        (piece_reads room (toks text.now tokens.now)) }
{
    if !next_is(tokens, Sort::Lower) {
        return base(alloc, text, tokens, room);
    }
    let (name, rest) = lower(alloc, text, tokens)?;
    if next_is(rest, Sort::Colon) {
        let (_, rest) = one(text, rest, Sort::Colon)?;
        let (inner, rest) = base(alloc, text, rest, room)?;
        Ok((
            PatternTree::Binder {
                name,
                inner: Boxed::new(alloc, inner)?,
            },
            rest,
        ))
    } else {
        Ok((PatternTree::Variable { name }, rest))
    }
}

#[tactic(auto, unfolding(crate::specs::Reading::squares_at))]
#[cycle(patterns)]
fn squares<'a>(
    alloc: Global,
    text: &[u8],
    tokens: &'a [Terminal],
    room: u32,
) -> Result<(Items<PatternTree>, &'a [Terminal]), ReadError>
    ensures { Gives (λ x. (x.0, toks text.now x.1.now)) result
        (squares_at room (toks text.now tokens.now)) }
{
    let (_, rest) = one(text, tokens, Sort::Open)?;
    if room == 0 {
        return Err(ReadError::Fault(Fault::TooDeep { left: tokens.len() }));
    }
    let (args, rest) = pieces(alloc, text, rest, room - 1)?;
    let (_, rest) = one(text, rest, Sort::Close)?;
    Ok((args, rest))
}

#[tactic(auto, unfolding(crate::specs::Reading::rounds_at))]
#[cycle(patterns)]
fn rounds<'a>(
    alloc: Global,
    text: &[u8],
    tokens: &'a [Terminal],
    room: u32,
) -> Result<(PatternTree, &'a [Terminal]), ReadError>
    ensures { Gives (λ x. (x.0, toks text.now x.1.now)) result
        (rounds_at room (toks text.now tokens.now)) }
{
    let (_, rest) = one(text, tokens, Sort::Left)?;
    if room == 0 {
        return Err(ReadError::Fault(Fault::TooDeep { left: tokens.len() }));
    }
    let (inner, rest) = pattern(alloc, text, rest, room - 1)?;
    let (_, rest) = one(text, rest, Sort::Right)?;
    Ok((inner, rest))
}

#[tactic(auto, unfolding(crate::specs::Reading::pieces_at))]
#[cycle(patterns)]
fn pieces<'a>(
    alloc: Global,
    text: &[u8],
    tokens: &'a [Terminal],
    room: u32,
) -> Result<(Items<PatternTree>, &'a [Terminal]), ReadError>
    ensures { Gives (λ x. (x.0, toks text.now x.1.now)) result
        (pieces_at room (toks text.now tokens.now)) }
{
    let mut found = Vec::new(alloc);
    let mut rest = tokens;
    'more: while starts_piece(rest) {
        let (item, after) = piece(alloc, text, rest, room)?;
        found.push(item)?;
        rest = after;
    }
    found.shrink_to_fit();
    Ok((Items::from_vec(found), rest))
}

#[tactic(auto, unfolding(crate::specs::Reading::link_at))]
#[cycle(patterns)]
fn link<'a>(
    alloc: Global,
    text: &[u8],
    tokens: &'a [Terminal],
    room: u32,
) -> Result<((Sign, PatternTree), &'a [Terminal]), ReadError>
    ensures { Gives (λ x. ((x.0.0, x.0.1), toks text.now x.1.now)) result
        (link_at room (toks text.now tokens.now)) }
{
    let (sign, rest) = operator(text, tokens)?;
    let (piece, rest) = piece(alloc, text, rest, room)?;
    Ok(((sign, piece), rest))
}

#[tactic(auto, unfolding(crate::specs::Reading::links_at))]
#[cycle(patterns)]
fn links<'a>(
    alloc: Global,
    text: &[u8],
    tokens: &'a [Terminal],
    room: u32,
) -> Result<(Items<(Sign, PatternTree)>, &'a [Terminal]), ReadError>
    ensures { Gives (λ x. (x.0, toks text.now x.1.now)) result
        (links_at room (toks text.now tokens.now)) }
{
    let mut found = Items::new(alloc);
    let mut rest = tokens;
    'more: while is_sign(rest) {
        let (item, after) = link(alloc, text, rest, room)?;
        found.push(item)?;
        rest = after;
    }
    Ok((found, rest))
}

/// The pattern of a first piece and what follows it.
fn chain(
    alloc: Global,
    first: PatternTree,
    rest: Items<(Sign, PatternTree)>,
) -> Result<PatternTree, AllocError>
    ensures { IfOk result (λ tree. tree ≡ chain_at first rest) }
{
    if rest.is_empty() {
        return Ok(first);
    }
    Ok(PatternTree::Chain {
        first: Boxed::new(alloc, first)?,
        rest,
    })
}

/// Reads a pattern, with at most so many brackets open.
///
/// # Errors
///
/// `Fault` with `Unexpected` at the first token with which no pattern goes on, or with `TooDeep`
/// at the first bracket past `room`, and `Memory` where memory is wanting.
#[tactic(auto, unfolding(crate::specs::Reading::pattern_at, crate::specs::Reading::piece_reads, crate::specs::Reading::links_at, crate::specs::Reading::link_at))]
#[cycle(patterns)]
pub fn pattern<'a>(
    alloc: Global,
    text: &[u8],
    tokens: &'a [Terminal],
    room: u32,
) -> Result<(PatternTree, &'a [Terminal]), ReadError>
    ensures { Gives (λ x. (x.0, toks text.now x.1.now)) result
        (pattern_at room (toks text.now tokens.now)) }
{
    let (first, rest) = piece(alloc, text, tokens, room)?;
    let (more, rest) = links(alloc, text, rest, room)?;
    Ok((chain(alloc, first, more)?, rest))
}
