//! Tokens as the parser takes them, and steps over one of them.

ghost use Rattle.std.specs.Prelude.{◌≡◌, ℕ, List, IfOk};
ghost use Rattle.dactl_terminals.specs.Sort.{same_sort};
ghost use Rattle.dactl_grammar.specs.Reader.{head_is};
ghost use Rattle.dactl_terminals.specs.Parts.{name_of, value_at};
ghost use Rattle.dactl_terminals.specs.Reads.{by, read_sign};
ghost use Rattle.dactl_grammar.specs.Giving.{Gives};
ghost use Rattle.dactl_terminals.specs.Seen.{between, word_of, seen, toks};

use dactl_base::refusal::Place;
use dactl_grammar::fault::{Fault, ReadError};
use dactl_meaning::tree::Name;
use dactl_tokens::integer;
use sqlite_items::Items;
use std::alloc::{AllocError, Global};

/// What kind of token stands at a place: one sort for each keyword and each sign. `Data` and `Main`
/// stand in equations alone, and the sorts of the other keywords in modules alone.
#[derive(Clone, Copy, Debug, PartialEq, Eq)]
pub enum Sort {
    Upper,
    Lower,
    Integer,
    Character,
    Header,
    Module,
    EndModule,
    Imports,
    Symbol,
    Pattern,
    Rule,
    Initial,
    Public,
    Rewritable,
    Overwritable,
    Creatable,
    Any,
    Int,
    Char,
    Open,
    Close,
    Left,
    Right,
    Semicolon,
    Comma,
    Bar,
    Colon,
    Becomes,
    Equals,
    Rewrites,
    Arrow,
    Star,
    Hash,
    Wait,
    Plus,
    Minus,
    Data,
    Main,
}

/// A token: its sort, and where it stands in the text.
#[derive(Clone, Copy, Debug)]
pub struct Terminal {
    pub sort: Sort,
    pub from: u32,
    pub to: u32,
}

/// A part that was read, with the tokens behind it.
pub type Read<'a, T> = Result<(T, &'a [Terminal]), ReadError>;

/// Whether two sorts are the same.
#[tactic(auto, unfolding(crate::specs::Sort::same_sort))]
pub fn same_sort(a: Sort, b: Sort) -> bool
    ensures { result ≡ same_sort a b }
{
    a == b
}

/// The bytes from one place to another, as far as the text goes.
#[tactic(auto, unfolding(crate::specs::Seen::between))]
pub fn between(text: &[u8], from: u32, to: u32) -> &[u8]
    ensures { result.now ≡ between text.now from to }
{
    let start = (from as usize).min(text.len());
    let (_, rest) = text.split_at(start);
    let len = rest.len().min(to.saturating_sub(from) as usize);
    let (front, _) = rest.split_at(len);
    front
}

/// The bytes of a token in its text; of another text, those that stand at its place.
pub fn word<'a>(text: &'a [u8], token: Terminal) -> &'a [u8]
    ensures { result.now ≡ word_of text.now token }
{
    between(text, token.from, token.to)
}

/// The value that a token spells as an integer, of 128 bits where `wide` is set and of 64 bits
/// otherwise. It is 0 where the integer doesn't fit.
pub fn value(wide: bool, text: &[u8], token: Terminal) -> i128
    ensures { result ≡ value_at wide (word_of text.now token) }
{
    integer(wide, word(text, token)).unwrap_or(0)
}

/// Where a token begins.
pub fn place_of(token: Terminal) -> Place
    ensures { result ≡ record { byte = token.from } }
{
    Place { byte: token.from }
}

/// The name that a token spells, which has the token's place.
///
/// # Errors
///
/// Where memory for the bytes of the name is wanting.
pub fn name_at(alloc: Global, text: &[u8], token: Terminal) -> Result<Name, AllocError>
    ensures { IfOk result (λ name. name ≡ name_of (seen text.now token)) }
{
    Ok(Name {
        text: Items::from_slice(alloc, word(text, token))?,
        place: place_of(token),
    })
}

/// Whether a token of this sort comes next.
pub fn next_is(tokens: &[Terminal], sort: Sort) -> bool
    ensures { (text : List ℕ) → result ≡ head_is (by (same_sort sort)) (toks text tokens.now) }
{
    match tokens {
        [] => false,
        [token, ..] => same_sort(sort, token.sort),
    }
}

/// Reads one token of this sort, and answers it with the tokens behind it.
///
/// # Errors
///
/// `Fault` with `Unexpected` at the next token where it is of another sort, and at the end of the
/// tokens where none is left. Memory is never wanting.
pub fn one<'a>(text: &[u8], tokens: &'a [Terminal], sort: Sort) -> Read<'a, Terminal>
    ensures { Gives (λ x. (seen text.now x.0, toks text.now x.1.now)) result
        (read_sign sort (toks text.now tokens.now)) }
{
    match tokens {
        [token, rest @ ..] if same_sort(sort, token.sort) => Ok((*token, rest)),
        _ => Err(ReadError::Fault(Fault::Unexpected { left: tokens.len() })),
    }
}
