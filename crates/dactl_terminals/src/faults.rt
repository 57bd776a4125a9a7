//! Where a fault of a text stands.

ghost use Rattle.std.specs.Prelude.{◌≡◌, ◌-◌, ◌≤◌, drop, length};
ghost use Rattle.dactl_terminals.specs.Answer.{next_place, refusal_of};
ghost use Rattle.dactl_terminals.specs.Seen.{toks};

use crate::token::{Terminal, place_of};
use dactl_base::refusal::{Kind, Place, Refusal};
use dactl_grammar::fault::Fault;

/// Where the token stands that has so many tokens from it on: the end of the text where there are
/// none.
fn place_from(text: &[u8], tokens: &[Terminal], left: usize) -> Place
    requires { length text.now ≤ 1048576 }
    ensures { result.byte ≡
        next_place (length text.now) (drop (length tokens.now - left) (toks text.now tokens.now)) }
{
    match tokens.get(tokens.len().saturating_sub(left)) {
        Some(token) => place_of(*token),
        None => Place {
            byte: text.len() as u32,
        },
    }
}

/// What is told of a fault of the tokens of a text: its kind, and the first byte of the token that
/// it is at, which is the text's length where the tokens end too early.
pub fn refusal_of(text: &[u8], tokens: &[Terminal], fault: Fault) -> Refusal
    requires { length text.now ≤ 1048576 }
    ensures { result ≡ refusal_of (length text.now) (toks text.now tokens.now) fault }
{
    match fault {
        Fault::Unexpected { left } => Refusal {
            kind: Kind::Unexpected,
            place: place_from(text, tokens, left),
        },
        Fault::TooDeep { left } => Refusal {
            kind: Kind::TooDeep,
            place: place_from(text, tokens, left),
        },
    }
}
