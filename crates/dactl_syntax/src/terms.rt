//! Terms, and what stands within their brackets.

ghost use Rattle.std.specs.Prelude.{◌≡◌, ◌≤◌, ◌+◌, ℕ, List, IfOk, length, min};
ghost use Rattle.dactl_syntax.specs.Sort.{starts_mark, starts_arg};
ghost use Rattle.dactl_grammar.specs.Reader.{head_is, read_many};
ghost use Rattle.dactl_terminals.specs.Reads.{by};
ghost use Rattle.dactl_syntax.specs.Reading.{hashes_at, mark_at, node_at, body_at, term_at, arg_at};
ghost use Rattle.dactl_syntax.specs.Reading.{args_at};
ghost use Rattle.dactl_grammar.specs.Giving.{Gives};
ghost use Rattle.dactl_syntax.specs.Productions.{letter};
ghost use Rattle.dactl_terminals.specs.Seen.{word_of, toks};

use dactl_grammar::fault::{Fault, ReadError};
use dactl_meaning::tree::{ArgTree, Marks, Name, NodeTree, TermTree};
use dactl_terminals::names::{lower, upper};
use dactl_terminals::token::{Sort, Terminal, next_is, one, place_of, value, word};
use sqlite_items::Items;
use std::alloc::Global;

/// The byte of a character, which stands between its two `'`.
pub fn letter(text: &[u8], token: Terminal) -> u8
    ensures { result ≡ letter (word_of text.now token) }
{
    match word(text, token) {
        [_, byte, ..] => *byte,
        _ => 0,
    }
}

fn starts_mark(tokens: &[Terminal]) -> bool
    ensures { (text : List ℕ) → result ≡ head_is (by starts_mark) (toks text tokens.now) }
{
    match tokens {
        [] => false,
        [token, ..] => matches!(token.sort, Sort::Star | Sort::Hash),
    }
}

fn starts_arg(tokens: &[Terminal]) -> bool
    ensures { (text : List ℕ) → result ≡ head_is (by starts_arg) (toks text tokens.now) }
{
    match tokens {
        [] => false,
        [token, ..] => matches!(
            token.sort,
            Sort::Wait
                | Sort::Star
                | Sort::Hash
                | Sort::Lower
                | Sort::Integer
                | Sort::Character
                | Sort::Upper
        ),
    }
}

#[tactic(auto, unfolding(crate::specs::Reading::node_at))]
#[cycle(terms)]
fn node<'a>(
    alloc: Global,
    text: &[u8],
    tokens: &'a [Terminal],
    room: u32,
) -> Result<(NodeTree, &'a [Terminal]), ReadError>
    ensures { Gives (λ x. (x.0, toks text.now x.1.now)) result
        (node_at room (toks text.now tokens.now)) }
{
    if next_is(tokens, Sort::Integer) {
        let (token, rest) = one(text, tokens, Sort::Integer)?;
        let value = value(true, text, token);
        let place = place_of(token);
        return Ok((NodeTree::Integer { value, place }, rest));
    }
    if next_is(tokens, Sort::Character) {
        let (token, rest) = one(text, tokens, Sort::Character)?;
        let value = letter(text, token);
        let place = place_of(token);
        return Ok((NodeTree::Letter { value, place }, rest));
    }
    let (name, rest) = upper(alloc, text, tokens)?;
    if next_is(rest, Sort::Open) {
        let (args, rest) = args(alloc, text, rest, room)?;
        Ok((NodeTree::Sym { name, args }, rest))
    } else {
        Ok((
            NodeTree::Sym {
                name,
                args: Items::new(alloc),
            },
            rest,
        ))
    }
}

#[tactic(auto, unfolding(crate::specs::Reading::args_at))]
#[cycle(terms)]
fn args<'a>(
    alloc: Global,
    text: &[u8],
    tokens: &'a [Terminal],
    room: u32,
) -> Result<(Items<ArgTree>, &'a [Terminal]), ReadError>
    ensures { Gives (λ x. (x.0, toks text.now x.1.now)) result
        (args_at room (toks text.now tokens.now)) }
{
    let (_, rest) = one(text, tokens, Sort::Open)?;
    if room == 0 {
        return Err(ReadError::Fault(Fault::TooDeep { left: tokens.len() }));
    }
    let (args, rest) = arg_list(alloc, text, rest, room - 1)?;
    let (_, rest) = one(text, rest, Sort::Close)?;
    Ok((args, rest))
}

#[cycle(terms)]
fn arg_list<'a>(
    alloc: Global,
    text: &[u8],
    tokens: &'a [Terminal],
    room: u32,
) -> Result<(Items<ArgTree>, &'a [Terminal]), ReadError>
    ensures { Gives (λ x. (x.0, toks text.now x.1.now)) result
        (read_many (by starts_arg) (arg_at room) (toks text.now tokens.now)) }
{
    let mut args = Vec::new(alloc);
    let mut rest = tokens;
    'more: while starts_arg(rest) {
        let (arg, after) = arg(alloc, text, rest, room)?;
        args.push(arg)?;
        rest = after;
    }
    // Most nodes have one or two arguments, and most of a large text is such nodes.
    args.shrink_to_fit();
    Ok((Items::from_vec(args), rest))
}

/// Reads an argument of a node, with at most so many brackets open.
///
/// # Errors
///
/// `Fault` with `Unexpected` at the first token with which no argument goes on, or with `TooDeep`
/// at the first bracket past `room`, and `Memory` where memory is wanting.
#[tactic(auto, unfolding(crate::specs::Reading::arg_at, crate::specs::Reading::term_at))]
#[cycle(terms)]
pub fn arg<'a>(
    alloc: Global,
    text: &[u8],
    tokens: &'a [Terminal],
    room: u32,
) -> Result<(ArgTree, &'a [Terminal]), ReadError>
    ensures { Gives (λ x. (x.0, toks text.now x.1.now)) result
        (arg_at room (toks text.now tokens.now)) }
{
    if next_is(tokens, Sort::Wait) {
        let (_, rest) = one(text, tokens, Sort::Wait)?;
        let (term, rest) = term(alloc, text, rest, room)?;
        Ok((ArgTree { waits: true, term }, rest))
    } else {
        let (term, rest) = term(alloc, text, tokens, room)?;
        Ok((ArgTree { waits: false, term }, rest))
    }
}

/// Reads a term, with at most so many brackets open.
///
/// # Errors
///
/// `Fault` with `Unexpected` at the first token with which no term goes on, or with `TooDeep` at
/// the first bracket past `room`, and `Memory` where memory is wanting.
#[tactic(auto, unfolding(crate::specs::Reading::term_at, crate::specs::Reading::body_at))]
#[cycle(terms)]
pub fn term<'a>(
    alloc: Global,
    text: &[u8],
    tokens: &'a [Terminal],
    room: u32,
) -> Result<(TermTree, &'a [Terminal]), ReadError>
    ensures { Gives (λ x. (x.0, toks text.now x.1.now)) result
        (term_at room (toks text.now tokens.now)) }
{
    if starts_mark(tokens) {
        let (marks, rest) = mark(text, tokens)?;
        let (body, rest) = body(alloc, text, rest, room)?;
        let (name, node) = body;
        Ok((TermTree { marks, name, node }, rest))
    } else {
        let (body, rest) = body(alloc, text, tokens, room)?;
        let (name, node) = body;
        Ok((
            TermTree {
                marks: Marks::Plain,
                name,
                node,
            },
            rest,
        ))
    }
}

#[tactic(auto, unfolding(crate::specs::Reading::body_at, crate::specs::Reading::node_at))]
#[cycle(terms)]
fn body<'a>(
    alloc: Global,
    text: &[u8],
    tokens: &'a [Terminal],
    room: u32,
) -> Result<((Option<Name>, Option<NodeTree>), &'a [Terminal]), ReadError>
    ensures { Gives (λ x. ((x.0.0, x.0.1), toks text.now x.1.now)) result
        (body_at room (toks text.now tokens.now)) }
{
    if !next_is(tokens, Sort::Lower) {
        let (node, rest) = node(alloc, text, tokens, room)?;
        return Ok(((None, Some(node)), rest));
    }
    let (name, rest) = lower(alloc, text, tokens)?;
    if next_is(rest, Sort::Colon) {
        let (_, rest) = one(text, rest, Sort::Colon)?;
        let (node, rest) = node(alloc, text, rest, room)?;
        Ok(((Some(name), Some(node)), rest))
    } else {
        Ok(((Some(name), None), rest))
    }
}

/// Reads `#` any number of times, and counts them.
fn hashes<'a>(text: &[u8], tokens: &'a [Terminal]) -> Result<(usize, &'a [Terminal]), ReadError>
    ensures value { Gives (λ x. (x.0, toks text.now x.1.now)) result
        (hashes_at (toks text.now tokens.now)) }
    ensures within { IfOk result (λ x. x.0 ≤ length tokens.now) }
{
    let mut rest = tokens;
    'more: while next_is(rest, Sort::Hash) {
        let (_, after) = one(text, rest, Sort::Hash)?;
        rest = after;
    }
    Ok((tokens.len() - rest.len(), rest))
}

/// One more than `more`, up to the greatest `u32`.
fn capped(more: usize) -> u32
    ensures { result ≡ min (more + 1) 4294967295 }
{
    match u32::try_from(more) {
        Ok(count) => count.saturating_add(1),
        Err(_) => u32::MAX,
    }
}

#[tactic(auto, unfolding(crate::specs::Reading::mark_at))]
fn mark<'a>(text: &[u8], tokens: &'a [Terminal]) -> Result<(Marks, &'a [Terminal]), ReadError>
    ensures { Gives (λ x. (x.0, toks text.now x.1.now)) result
        (mark_at (toks text.now tokens.now)) }
{
    if next_is(tokens, Sort::Star) {
        let (token, rest) = one(text, tokens, Sort::Star)?;
        Ok((
            Marks::Star {
                place: place_of(token),
            },
            rest,
        ))
    } else {
        let (token, rest) = one(text, tokens, Sort::Hash)?;
        let (more, rest) = hashes(text, rest)?;
        Ok((
            Marks::Hashes {
                place: place_of(token),
                count: capped(more),
            },
            rest,
        ))
    }
}
