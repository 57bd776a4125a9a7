//! The tokens of a text.

ghost use Rattle.std.specs.Prelude.{◌≡◌, ◌+◌, ◌≤◌, ◌<◌, ◌^◌, List, length, true, false, Err, IfOk};
ghost use Rattle.dactl_base.specs.declared.refusal.Refusal.{Refusal as The_refusal};
ghost use Rattle.dactl_base.specs.declared.refusal.TextFault.TheVariants.{Refused};
ghost use Rattle.dactl_tokens.specs.declared.token.Token.{Token as The_token};
ghost use Rattle.dactl_tokens.specs.declared.token.TokenKind.TheVariants as kinds;
ghost use Rattle.dactl_tokens.specs.Spelling.{is_too_wide};
ghost use Rattle.dactl_tokens.specs.Lexes.{Lexes, has_header};
ghost use Rattle.dactl_tokens.specs.Answer.{IsFirstFault, OkOrMemory, RefusedOrMemory};
ghost use Rattle.dactl_tokens.specs.Found.{IsBehind, TokenThere, FaultThere, Halts};

use crate::gaps::skip_gap;
use crate::integers::integer;
use crate::token::{Token, TokenKind};
use crate::words::longest;
use dactl_base::refusal::{Kind, Place, Refusal, TextFault};
use std::alloc::Global;

/// The token of the first bytes of a text of language 2.
const HEADER: Token = Token {
    kind: TokenKind::Header,
    from: 0,
    to: 8,
};

/// Whether the token is no integer past the range.
fn fits(wide: bool, kind: TokenKind, word: &[u8]) -> bool
    ensures yes { result ≡ true → kind ≡ kinds.Integer → is_too_wide wide word.now ≡ false }
    ensures no { result ≡ false → (kind ≡ kinds.Integer) × (is_too_wide wide word.now ≡ true) }
{
    match kind {
        TokenKind::Integer => integer(wide, word).is_some(),
        _ => true,
    }
}

fn refused(kind: Kind, byte: u32) -> TextFault
    ensures { result ≡ Refused (record { kind = kind; place = record { byte = byte } }) }
{
    TextFault::Refused(Refusal {
        kind,
        place: Place { byte },
    })
}

/// The token that stands first, and what is behind it.
fn next_token(wide: bool, place: u32, bytes: &[u8]) -> Result<(Token, &[u8]), TextFault>
    requires halts { Halts bytes.now }
    requires more { 0 < length bytes.now }
    requires fits { place + length bytes.now < 2 ^ 32 }
    ensures token { IfOk result (λ x. TokenThere wide place bytes.now x.1.now x.0) }
    ensures fault { (r : The_refusal) → result ≡ Err (Refused r) →
        FaultThere wide place bytes.now r }
{
    match longest(wide, bytes) {
        None => Err(refused(Kind::BadByte, place)),
        Some((kind, len)) => {
            let (word, rest) = bytes.split_at(len);
            if !fits(wide, kind, word) {
                return Err(refused(Kind::NumberTooWide, place));
            }
            let to = place + len as u32;
            Ok((
                Token {
                    kind,
                    from: place,
                    to,
                },
                rest,
            ))
        }
    }
}

/// Whether the text is of language 2, and what stands behind its Header, if it has one.
#[tactic(auto, unfolding(crate::specs::Lexes::has_header))]
fn language(text: &[u8]) -> (bool, &[u8])
    ensures wide { result.0 ≡ has_header text.now }
    ensures behind { IsBehind result.0 text.now result.1.now }
{
    match text.strip_prefix(b"DACTL 2;") {
        Some(behind) => (true, behind),
        None => (false, text),
    }
}

/// The tokens of a text, with rising places. The text is of language 2 where it begins with
/// `DACTL 2;`, and its first token is the Header then.
///
/// # Errors
///
/// `Refused` with the first fault of the text, at its first byte: `BadByte` where neither a gap
/// goes on nor a token stands, and `NumberTooWide` where an integer stands that the language
/// doesn't have. `Memory` where memory is wanting, which tells nothing of the text: room for as
/// many tokens as the text has bytes is asked for at once.
pub fn tokens(alloc: Global, text: &[u8]) -> Result<Vec<Token>, TextFault>
    requires short { length text.now ≤ 1048576 }
    ensures found { IfOk result (λ found. Lexes text.now found.items) }
    ensures only { (ts : List The_token) → Lexes text.now ts →
        OkOrMemory (λ found. found.items) ts result }
    ensures refused { (r : The_refusal) → result ≡ Err (Refused r) → IsFirstFault text.now r }
    ensures only_refused { (r : The_refusal) → IsFirstFault text.now r → RefusedOrMemory r result }
{
    let (wide, behind) = language(text);
    let mut found = Vec::with_capacity(alloc, text.len())?;
    if wide {
        found.push(HEADER)?;
    }
    let mut rest = skip_gap(behind);
    'token: while !rest.is_empty() {
        let place = (text.len() - rest.len()) as u32;
        let (token, after) = next_token(wide, place, rest)?;
        found.push(token)?;
        rest = skip_gap(after);
    }
    Ok(found)
}
