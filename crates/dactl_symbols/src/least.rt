//! Of several faults of a text the one that is told.

ghost use Rattle.std.specs.Prelude.{◌≡◌};
ghost use Rattle.dactl_meaning.specs.Faults.{phase, rank};
ghost use Rattle.dactl_symbols.specs.Least.{precedes, sooner};

use dactl_base::refusal::{Kind, Refusal};

fn phase_of(kind: Kind) -> u8
    ensures { result ≡ phase kind }
{
    match kind {
        Kind::BadByte | Kind::NumberTooWide => 1,
        Kind::Unexpected | Kind::TooDeep => 2,
        Kind::TwiceDeclared
        | Kind::UnknownModule
        | Kind::UnknownName
        | Kind::NotVisible
        | Kind::PublicTooStrong
        | Kind::NoInitial
        | Kind::TwoInitials
        | Kind::TooMany
        | Kind::NotAConstructor
        | Kind::WrongArity => 3,
        Kind::PatternCycle => 4,
        Kind::RootNotRewritable
        | Kind::BinderInChoice
        | Kind::TooWide
        | Kind::Unbound
        | Kind::NamedTwice
        | Kind::RedirectedTwice
        | Kind::NotOverwritable
        | Kind::NotCreatable
        | Kind::MarkOnBound
        | Kind::TooManyWaits => 5,
    }
}

fn rank_of(kind: Kind) -> u8
    ensures { result ≡ rank kind }
{
    kind as u8
}

fn comes_before(a: Refusal, b: Refusal) -> bool
    ensures { result ≡ precedes a b }
{
    let (first, second) = (phase_of(a.kind), phase_of(b.kind));
    if first != second {
        return first < second;
    }
    if a.place.byte != b.place.byte {
        return a.place.byte < b.place.byte;
    }
    rank_of(a.kind) < rank_of(b.kind)
}

/// The one of two faults that is told where both hold: the one that comes first by its phase, its
/// place and the order of the kinds. With `None` for one of them it is the other.
pub fn lesser(a: Option<Refusal>, b: Option<Refusal>) -> Option<Refusal>
    ensures { result ≡ sooner a b }
{
    match (a, b) {
        (Some(first), Some(second)) => { if comes_before(second, first) { b } else { a } }
        (None, _) => b,
        _ => a,
    }
}
