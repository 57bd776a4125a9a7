//! From the tokens of a text to those of the parser: each with its sort.

ghost use Rattle.std.specs.Prelude.{◌≡◌, IfOk};
ghost use Rattle.dactl_terminals.specs.Seen.{between, upper_sort, keyword_sort, sign_sort, sort_of};
ghost use Rattle.dactl_terminals.specs.Seen.{seen, toks, token_seen, tokens_seen};

use crate::token::{Sort, Terminal, between};
use dactl_tokens::{Token, TokenKind};
use std::alloc::{AllocError, Global};

// The words that equations have beside the names.
#[tactic(auto, unfolding(crate::specs::Seen::upper_sort))]
fn upper_sort(word: &[u8]) -> Sort
    ensures { result ≡ upper_sort word.now }
{
    if word == b"DATA".as_slice() {
        Sort::Data
    } else if word == b"MAIN".as_slice() {
        Sort::Main
    } else {
        Sort::Upper
    }
}

#[tactic(auto, unfolding(crate::specs::Seen::keyword_sort))]
fn keyword_sort(word: &[u8]) -> Sort
    ensures { result ≡ keyword_sort word.now }
{
    if word == b"MODULE".as_slice() {
        Sort::Module
    } else if word == b"ENDMODULE".as_slice() {
        Sort::EndModule
    } else if word == b"IMPORTS".as_slice() {
        Sort::Imports
    } else if word == b"SYMBOL".as_slice() {
        Sort::Symbol
    } else if word == b"PATTERN".as_slice() {
        Sort::Pattern
    } else if word == b"RULE".as_slice() {
        Sort::Rule
    } else if word == b"INITIAL".as_slice() {
        Sort::Initial
    } else if word == b"PUBLIC".as_slice() {
        Sort::Public
    } else if word == b"REWRITABLE".as_slice() {
        Sort::Rewritable
    } else if word == b"OVERWRITABLE".as_slice() {
        Sort::Overwritable
    } else if word == b"CREATABLE".as_slice() {
        Sort::Creatable
    } else if word == b"ANY".as_slice() {
        Sort::Any
    } else if word == b"INT".as_slice() {
        Sort::Int
    } else {
        Sort::Char
    }
}

#[tactic(auto, unfolding(crate::specs::Seen::sign_sort))]
fn sign_sort(word: &[u8]) -> Sort
    ensures { result ≡ sign_sort word.now }
{
    if word == b"[".as_slice() {
        Sort::Open
    } else if word == b"]".as_slice() {
        Sort::Close
    } else if word == b"(".as_slice() {
        Sort::Left
    } else if word == b")".as_slice() {
        Sort::Right
    } else if word == b";".as_slice() {
        Sort::Semicolon
    } else if word == b",".as_slice() {
        Sort::Comma
    } else if word == b"|".as_slice() {
        Sort::Bar
    } else if word == b":".as_slice() {
        Sort::Colon
    } else if word == b":=".as_slice() {
        Sort::Becomes
    } else if word == b"=".as_slice() {
        Sort::Equals
    } else if word == b"=>".as_slice() {
        Sort::Rewrites
    } else if word == b"->".as_slice() {
        Sort::Arrow
    } else if word == b"*".as_slice() {
        Sort::Star
    } else if word == b"#".as_slice() {
        Sort::Hash
    } else if word == b"^".as_slice() {
        Sort::Wait
    } else if word == b"+".as_slice() {
        Sort::Plus
    } else {
        Sort::Minus
    }
}

#[tactic(auto, unfolding(crate::specs::Seen::sort_of))]
fn sort_of(equations: bool, kind: TokenKind, word: &[u8]) -> Sort
    ensures { result ≡ sort_of equations kind word.now }
{
    match kind {
        TokenKind::Upper => {
            if equations {
                upper_sort(word)
            } else {
                Sort::Upper
            }
        }
        TokenKind::Lower => Sort::Lower,
        TokenKind::Integer => Sort::Integer,
        TokenKind::Keyword => keyword_sort(word),
        TokenKind::Sign => sign_sort(word),
        TokenKind::Header => Sort::Header,
        TokenKind::Character => Sort::Character,
    }
}

fn terminal(equations: bool, text: &[u8], token: Token) -> Terminal
    ensures { seen text.now result ≡ token_seen equations text.now token }
{
    let word = between(text, token.from, token.to);
    Terminal {
        sort: sort_of(equations, token.kind, word),
        from: token.from,
        to: token.to,
    }
}

/// The tokens of a text with their sorts, in the same order. Where `equations` is set the names
/// `DATA` and `MAIN` are sorts of their own, as equations have them.
///
/// # Errors
///
/// Where memory for all of the tokens is wanting, which is asked for at once.
pub fn terminals(
    alloc: Global,
    equations: bool,
    text: &[u8],
    tokens: &[Token],
) -> Result<Vec<Terminal>, AllocError>
    ensures { IfOk result (λ found. toks text.now found.items ≡
        tokens_seen equations text.now tokens.now) }
{
    let mut found = Vec::with_capacity(alloc, tokens.len())?;
    for token in tokens {
        found.push(terminal(equations, text, *token))?;
    }
    Ok(found)
}
