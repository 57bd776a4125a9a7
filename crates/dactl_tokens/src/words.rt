//! The longest token at a place.

ghost use Rattle.std.specs.Prelude.{◌≡◌, ◌==◌, ◌&&◌, ◌∷◌, true, false, IfSome, IfNone};
ghost use Rattle.dactl_tokens.specs.Spelling as spell;
ghost use Rattle.dactl_tokens.specs.Found.{IsRun, IsWord, NoWord, passes};

use crate::bytes::{
    is_character, is_digit, is_long_sign, is_lower, is_minus, is_sign_byte, is_upper, is_word,
};
use crate::token::TokenKind;

/// What a token goes on with behind its first bytes.
#[derive(Clone, Copy)]
enum Run {
    Word,
    Digits,
}

fn passes(run: Run, byte: u8) -> bool
    ensures { result ≡ passes run byte }
{
    match run {
        Run::Word => is_word(byte),
        Run::Digits => is_digit(byte),
    }
}

/// How many bytes of the front pass.
fn run_len(bytes: &[u8], run: Run) -> usize
    ensures { IsRun (passes run) result bytes.now }
{
    let mut n = 0;
    'run: while n < bytes.len() && passes(run, bytes[n]) {
        n += 1;
    }
    n
}

#[tactic(auto, unfolding(crate::specs::Spelling::is_keyword))]
fn is_keyword(wide: bool, word: &[u8]) -> bool
    ensures { result ≡ spell.is_keyword wide word.now }
{
    word == b"MODULE".as_slice()
        || word == b"ENDMODULE".as_slice()
        || word == b"IMPORTS".as_slice()
        || word == b"SYMBOL".as_slice()
        || word == b"PATTERN".as_slice()
        || word == b"RULE".as_slice()
        || word == b"INITIAL".as_slice()
        || word == b"PUBLIC".as_slice()
        || word == b"REWRITABLE".as_slice()
        || word == b"OVERWRITABLE".as_slice()
        || word == b"CREATABLE".as_slice()
        || word == b"ANY".as_slice()
        || word == b"INT".as_slice()
        || (wide && word == b"CHAR".as_slice())
}

/// The character that stands behind its first `'`.
fn character(rest: &[u8]) -> Option<(TokenKind, usize)>
    ensures some { IfSome result (λ x. IsWord true (39 ∷ rest.now) x.0 x.1) }
    ensures none { IfNone result (NoWord true (39 ∷ rest.now)) }
{
    match rest {
        [byte, last, ..] => {
            if is_character(*byte, *last) {
                return Some((TokenKind::Character, 3));
            }
            None
        }
        _ => None,
    }
}

/// The sign or the integer with a sign that stands first.
fn sign(wide: bool, first: u8, rest: &[u8]) -> Option<(TokenKind, usize)>
    requires upper { spell.is_upper first ≡ false }
    requires lower { spell.is_lower first ≡ false }
    requires digit { spell.is_digit first ≡ false }
    requires quote { ((first == 39) && wide) ≡ false }
    ensures some { IfSome result (λ x. IsWord wide (first ∷ rest.now) x.0 x.1) }
    ensures none { IfNone result (NoWord wide (first ∷ rest.now)) }
{
    match rest {
        [] => {
            if is_sign_byte(first) {
                return Some((TokenKind::Sign, 1));
            }
            None
        }
        [second, more @ ..] => {
            if is_long_sign(first, *second) {
                return Some((TokenKind::Sign, 2));
            }
            if is_minus(first, *second) {
                let n = run_len(more, Run::Digits);
                return Some((TokenKind::Integer, n + 2));
            }
            if is_sign_byte(first) {
                return Some((TokenKind::Sign, 1));
            }
            None
        }
    }
}

/// The longest token that stands first.
fn word(wide: bool, bytes: &[u8], first: u8, rest: &[u8]) -> Option<(TokenKind, usize)>
    requires { bytes.now ≡ first ∷ rest.now }
    ensures some { IfSome result (λ x. IsWord wide (first ∷ rest.now) x.0 x.1) }
    ensures none { IfNone result (NoWord wide (first ∷ rest.now)) }
{
    if is_upper(first) {
        let n = run_len(rest, Run::Word);
        let (front, _) = bytes.split_at(n + 1);
        if is_keyword(wide, front) {
            return Some((TokenKind::Keyword, n + 1));
        }
        return Some((TokenKind::Upper, n + 1));
    }
    if is_lower(first) {
        let n = run_len(rest, Run::Word);
        return Some((TokenKind::Lower, n + 1));
    }
    if is_digit(first) {
        let n = run_len(rest, Run::Digits);
        return Some((TokenKind::Integer, n + 1));
    }
    if first == b'\'' && wide {
        return character(rest);
    }
    sign(wide, first, rest)
}

/// The longest token at the front of the bytes, and its length, in language 2 where `wide` is set.
pub fn longest(wide: bool, bytes: &[u8]) -> Option<(TokenKind, usize)>
    ensures some { IfSome result (λ x. IsWord wide bytes.now x.0 x.1) }
    ensures none { IfNone result (NoWord wide bytes.now) }
{
    match bytes {
        [] => None,
        [first, rest @ ..] => word(wide, bytes, *first, rest),
    }
}
