//! Expressions and patterns, which are written alike.

ghost use Rattle.std.specs.Prelude.{◌≡◌, ℕ, List, false};
ghost use Rattle.fun_syntax.specs.Sort.{starts_expr};
ghost use Rattle.dactl_grammar.specs.Reader.{head_is, read_many};
ghost use Rattle.dactl_terminals.specs.Reads.{by};
ghost use Rattle.fun_syntax.specs.Reading.{args_at, given_at, expr_at};
ghost use Rattle.dactl_grammar.specs.Giving.{Gives};
ghost use Rattle.dactl_terminals.specs.Parts.{value_at};
ghost use Rattle.dactl_terminals.specs.Seen.{word_of, toks};

use dactl_grammar::fault::{Fault, ReadError};
use dactl_terminals::names::{lower, upper};
use dactl_terminals::token::{Sort, Terminal, next_is, one, value};
use fun_meaning::tree::Expr;
use sqlite_items::Items;
use std::alloc::Global;

/// The value of an integer, which is 0 where it doesn't fit 64 bits.
fn number(text: &[u8], token: Terminal) -> i64
    ensures { result ≡ value_at false (word_of text.now token) }
{
    value(false, text, token) as i64
}

fn starts_expr(tokens: &[Terminal]) -> bool
    ensures { (text : List ℕ) → result ≡ head_is (by starts_expr) (toks text tokens.now) }
{
    match tokens {
        [] => false,
        [token, ..] => matches!(token.sort, Sort::Lower | Sort::Integer | Sort::Upper),
    }
}

#[tactic(auto, unfolding(crate::specs::Reading::args_at))]
#[cycle(expressions)]
fn args<'a>(
    alloc: Global,
    text: &[u8],
    tokens: &'a [Terminal],
    room: u32,
) -> Result<(Items<Expr>, &'a [Terminal]), ReadError>
    ensures { Gives (λ x. (x.0, toks text.now x.1.now)) result
        (args_at room (toks text.now tokens.now)) }
{
    let (_, rest) = one(text, tokens, Sort::Open)?;
    if room == 0 {
        return Err(ReadError::Fault(Fault::TooDeep { left: tokens.len() }));
    }
    let (args, rest) = arg_list(alloc, text, rest, room - 1)?;
    let (_, rest) = one(text, rest, Sort::Close)?;
    Ok((args, rest))
}

#[cycle(expressions)]
fn arg_list<'a>(
    alloc: Global,
    text: &[u8],
    tokens: &'a [Terminal],
    room: u32,
) -> Result<(Items<Expr>, &'a [Terminal]), ReadError>
    ensures { Gives (λ x. (x.0, toks text.now x.1.now)) result
        (read_many (by starts_expr) (expr_at room) (toks text.now tokens.now)) }
{
    let mut args = Items::new(alloc);
    let mut rest = tokens;
    'more: while starts_expr(rest) {
        let (arg, after) = expr(alloc, text, rest, room)?;
        args.push(arg)?;
        rest = after;
    }
    Ok((args, rest))
}

/// Reads the arguments or patterns of a name, if there are any, with at most so many brackets open.
///
/// # Errors
///
/// `Fault` with `Unexpected` at the first token with which no expression goes on, or with
/// `TooDeep` at the first bracket past `room`, and `Memory` where memory is wanting.
#[tactic(auto, unfolding(crate::specs::Reading::given_at))]
#[cycle(expressions)]
pub fn given<'a>(
    alloc: Global,
    text: &[u8],
    tokens: &'a [Terminal],
    room: u32,
) -> Result<(Items<Expr>, &'a [Terminal]), ReadError>
    ensures { Gives (λ x. (x.0, toks text.now x.1.now)) result
        (given_at room (toks text.now tokens.now)) }
{
    if next_is(tokens, Sort::Open) {
        args(alloc, text, tokens, room)
    } else {
        Ok((Items::new(alloc), tokens))
    }
}

/// Reads an expression, with at most so many brackets open.
///
/// # Errors
///
/// `Fault` with `Unexpected` at the first token with which no expression goes on, or with
/// `TooDeep` at the first bracket past `room`, and `Memory` where memory is wanting.
#[tactic(auto, unfolding(crate::specs::Reading::expr_at, crate::specs::Reading::given_at))]
#[cycle(expressions)]
pub fn expr<'a>(
    alloc: Global,
    text: &[u8],
    tokens: &'a [Terminal],
    room: u32,
) -> Result<(Expr, &'a [Terminal]), ReadError>
    ensures { Gives (λ x. (x.0, toks text.now x.1.now)) result
        (expr_at room (toks text.now tokens.now)) }
{
    if next_is(tokens, Sort::Lower) {
        let (name, rest) = lower(alloc, text, tokens)?;
        return Ok((Expr::Variable { name }, rest));
    }
    if next_is(tokens, Sort::Integer) {
        let (token, rest) = one(text, tokens, Sort::Integer)?;
        let value = number(text, token);
        return Ok((Expr::Integer { value }, rest));
    }
    let (name, rest) = upper(alloc, text, tokens)?;
    let (args, rest) = given(alloc, text, rest, room)?;
    Ok((Expr::Made { name, args }, rest))
}
