//! Of several faults of equations the one that is told.

ghost use Rattle.std.specs.Prelude.{◌≡◌};
ghost use Rattle.fun_syntax.specs.Least.{rank, precedes, sooner, least, when};
ghost use Rattle.fun_syntax.specs.Least as spec;

use dactl_base::refusal::{Kind, Refusal};
use dactl_meaning::tree::Name;

/// Where the kind stands among those that count at one place.
fn rank_of(kind: Kind) -> u8
    ensures { result ≡ rank kind }
{
    match kind {
        Kind::TwiceDeclared => 0,
        Kind::RootNotRewritable => 1,
        Kind::UnknownName => 2,
        Kind::NotAConstructor => 3,
        Kind::WrongArity => 4,
        Kind::NamedTwice => 5,
        Kind::Unbound => 6,
        Kind::TooWide => 7,
        Kind::TooMany => 8,
        other => 9 + other as u8,
    }
}

fn comes_before(a: Refusal, b: Refusal) -> bool
    ensures { result ≡ precedes a b }
{
    if a.place.byte != b.place.byte {
        return a.place.byte < b.place.byte;
    }
    rank_of(a.kind) < rank_of(b.kind)
}

/// The one of two faults that is told where both hold: the one at the lesser place, and at one
/// place the one whose kind stands first. With `None` for one of them it is the other.
pub fn lesser(a: Option<Refusal>, b: Option<Refusal>) -> Option<Refusal>
    ensures { result ≡ sooner a b }
{
    match (a, b) {
        (Some(first), Some(second)) => { if comes_before(second, first) { b } else { a } }
        (None, _) => b,
        _ => a,
    }
}

/// The fault of a kind at a name, where there is one.
pub fn when(holds: bool, kind: Kind, name: &Name) -> Option<Refusal>
    ensures { result ≡ least (spec.when holds kind name.now) }
{
    if holds {
        Some(Refusal {
            kind,
            place: name.place,
        })
    } else {
        None
    }
}
