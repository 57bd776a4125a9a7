//! Constructors, equations and what is asked for.

ghost use Rattle.fun_syntax.specs.Reading as spec;
ghost use Rattle.dactl_grammar.specs.Giving.{Gives};
ghost use Rattle.dactl_terminals.specs.Seen.{toks};

use crate::expressions::{expr, given};
use dactl_grammar::fault::ReadError;
use dactl_meaning::tree::Name;
use dactl_terminals::names::{names, upper};
use dactl_terminals::token::{Sort, Terminal, next_is, one};
use fun_meaning::tree::{Equation, Expr};
use sqlite_items::Items;
use std::alloc::Global;

#[tactic(auto, unfolding(crate::specs::Reading::data_at))]
fn data<'a>(
    alloc: Global,
    text: &[u8],
    tokens: &'a [Terminal],
) -> Result<(Items<Name>, &'a [Terminal]), ReadError>
    ensures { Gives (λ x. (x.0, toks text.now x.1.now)) result
        (spec.data_at (toks text.now tokens.now)) }
{
    let (_, rest) = one(text, tokens, Sort::Data)?;
    let (names, rest) = names(alloc, text, rest)?;
    let (_, rest) = one(text, rest, Sort::Semicolon)?;
    Ok((names, rest))
}

/// Reads the names of all constructors.
///
/// # Errors
///
/// `Fault` with `Unexpected` at the first token with which no list of names goes on, and `Memory`
/// where memory is wanting.
pub fn constructors<'a>(
    alloc: Global,
    text: &[u8],
    tokens: &'a [Terminal],
) -> Result<(Items<Name>, &'a [Terminal]), ReadError>
    ensures { Gives (λ x. (x.0, toks text.now x.1.now)) result
        (spec.constructors_at (toks text.now tokens.now)) }
{
    let mut found = Items::new(alloc);
    let mut rest = tokens;
    'more: while next_is(rest, Sort::Data) {
        let (names, after) = data(alloc, text, rest)?;
        found.append(names)?;
        rest = after;
    }
    Ok((found, rest))
}

/// Reads `=`, an expression and `;`.
#[tactic(auto, unfolding(crate::specs::Reading::right_at))]
fn right<'a>(
    alloc: Global,
    text: &[u8],
    tokens: &'a [Terminal],
    room: u32,
) -> Result<(Expr, &'a [Terminal]), ReadError>
    ensures { Gives (λ x. (x.0, toks text.now x.1.now)) result
        (spec.right_at room (toks text.now tokens.now)) }
{
    let (_, rest) = one(text, tokens, Sort::Equals)?;
    let (right, rest) = expr(alloc, text, rest, room)?;
    let (_, rest) = one(text, rest, Sort::Semicolon)?;
    Ok((right, rest))
}

#[tactic(auto, unfolding(crate::specs::Reading::equation_at))]
fn equation<'a>(
    alloc: Global,
    text: &[u8],
    tokens: &'a [Terminal],
    room: u32,
) -> Result<(Equation, &'a [Terminal]), ReadError>
    ensures { Gives (λ x. (x.0, toks text.now x.1.now)) result
        (spec.equation_at room (toks text.now tokens.now)) }
{
    let (head, rest) = upper(alloc, text, tokens)?;
    let (patterns, rest) = given(alloc, text, rest, room)?;
    let (right, rest) = right(alloc, text, rest, room)?;
    Ok((
        Equation {
            head,
            patterns,
            right,
        },
        rest,
    ))
}

/// Reads the equations, with at most so many brackets open in each.
///
/// # Errors
///
/// `Fault` with `Unexpected` at the first token with which no equation goes on, or with `TooDeep`
/// at the first bracket past `room`, and `Memory` where memory is wanting.
#[tactic(auto, unfolding(crate::specs::Reading::equations_at))]
pub fn equations<'a>(
    alloc: Global,
    text: &[u8],
    tokens: &'a [Terminal],
    room: u32,
) -> Result<(Items<Equation>, &'a [Terminal]), ReadError>
    ensures { Gives (λ x. (x.0, toks text.now x.1.now)) result
        (spec.equations_at room (toks text.now tokens.now)) }
{
    let mut found = Items::new(alloc);
    let mut rest = tokens;
    'more: while next_is(rest, Sort::Upper) {
        let (item, after) = equation(alloc, text, rest, room)?;
        found.push(item)?;
        rest = after;
    }
    Ok((found, rest))
}

/// Reads what is asked for, with at most so many brackets open.
///
/// # Errors
///
/// `Fault` with `Unexpected` at the first token with which no such part goes on, or with `TooDeep`
/// at the first bracket past `room`, and `Memory` where memory is wanting.
#[tactic(auto, unfolding(crate::specs::Reading::asked_at))]
pub fn asked<'a>(
    alloc: Global,
    text: &[u8],
    tokens: &'a [Terminal],
    room: u32,
) -> Result<(Expr, &'a [Terminal]), ReadError>
    ensures { Gives (λ x. (x.0, toks text.now x.1.now)) result
        (spec.asked_at room (toks text.now tokens.now)) }
{
    let (_, rest) = one(text, tokens, Sort::Main)?;
    right(alloc, text, rest, room)
}
