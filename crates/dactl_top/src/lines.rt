//! The lines of the answers that tell numbers.

ghost use Rattle.std.specs.Prelude.{◌≡◌, ◌++◌, IfOk, OnOk, decimal};
ghost use Rattle.dactl_top.specs.Lines as spec;

use dactl_base::digits::Digits;
use dactl_base::refusal::{Kind, Refusal};
use dactl_model::graph::Room;
use dactl_verify::Verdict;
use std::alloc::{AllocError, Global};

fn push_number(digits: &mut Digits, number: u64, text: &mut Vec<u8>) -> Result<(), AllocError>
    ensures { OnOk result (text.new.items ≡ text.old.items ++ decimal number) }
{
    text.extend_from_slice(digits.text(number as i128))
}

/// The line of a first graph that does not fit.
///
/// # Errors
///
/// `AllocError` where there is not the memory for the line.
pub fn small_line(alloc: Global, needed: Room) -> Result<Vec<u8>, AllocError>
    ensures { IfOk result (λ line. line.items ≡ spec.small_line needed) }
{
    let mut digits = Digits::new();
    let mut text = Vec::from_slice(alloc, b"small ")?;
    push_number(&mut digits, u64::from(needed.nodes), &mut text)?;
    text.extend_from_slice(b" ")?;
    push_number(&mut digits, u64::from(needed.arcs), &mut text)?;
    text.extend_from_slice(b"\n")?;
    Ok(text)
}

// The line of a word and a number.
fn number_line(alloc: Global, word: &[u8], number: u64) -> Result<Vec<u8>, AllocError>
    ensures { IfOk result (λ line. line.items ≡ spec.number_line word.now number) }
{
    let mut text = Vec::from_slice(alloc, word)?;
    push_number(&mut Digits::new(), number, &mut text)?;
    text.extend_from_slice(b"\n")?;
    Ok(text)
}

/// The line of a printed graph of which a line is bad.
///
/// # Errors
///
/// `AllocError` where there is not the memory for the line.
pub fn bad_graph_line(alloc: Global, bad: u32) -> Result<Vec<u8>, AllocError>
    ensures { IfOk result (λ line. line.items ≡ spec.bad_graph_line bad) }
{
    number_line(alloc, b"bad graph ", u64::from(bad))
}

/// The line of what the check of a trace found, after so many entries.
///
/// # Errors
///
/// `AllocError` where there is not the memory for the line.
pub fn verdict_line(alloc: Global, verdict: Verdict, entries: u64) -> Result<Vec<u8>, AllocError>
    ensures { IfOk result (λ line. line.items ≡ spec.verdict_line verdict entries) }
{
    match verdict {
        Verdict::Valid => number_line(alloc, b"valid ", entries),
        Verdict::Wrong { line } => number_line(alloc, b"invalid ", u64::from(line)),
        Verdict::Full { .. } => number_line(alloc, b"no room ", entries),
        Verdict::Small { needed, .. } => small_line(alloc, needed),
    }
}

fn kind_name(kind: Kind) -> &'static [u8]
    ensures { result.now ≡ spec.kind_name kind }
{
    match kind {
        Kind::BadByte => b"BadByte",
        Kind::NumberTooWide => b"NumberTooWide",
        Kind::Unexpected => b"Unexpected",
        Kind::TooDeep => b"TooDeep",
        Kind::TwiceDeclared => b"TwiceDeclared",
        Kind::UnknownModule => b"UnknownModule",
        Kind::UnknownName => b"UnknownName",
        Kind::NotVisible => b"NotVisible",
        Kind::PublicTooStrong => b"PublicTooStrong",
        Kind::NoInitial => b"NoInitial",
        Kind::TwoInitials => b"TwoInitials",
        Kind::TooMany => b"TooMany",
        Kind::PatternCycle => b"PatternCycle",
        Kind::RootNotRewritable => b"RootNotRewritable",
        Kind::BinderInChoice => b"BinderInChoice",
        Kind::TooWide => b"TooWide",
        Kind::Unbound => b"Unbound",
        Kind::NamedTwice => b"NamedTwice",
        Kind::RedirectedTwice => b"RedirectedTwice",
        Kind::NotOverwritable => b"NotOverwritable",
        Kind::NotCreatable => b"NotCreatable",
        Kind::MarkOnBound => b"MarkOnBound",
        Kind::TooManyWaits => b"TooManyWaits",
        Kind::NotAConstructor => b"NotAConstructor",
        Kind::WrongArity => b"WrongArity",
    }
}

/// The line of a text that is refused.
///
/// # Errors
///
/// `AllocError` where there is not the memory for the line.
pub fn refused_line(alloc: Global, refusal: Refusal) -> Result<Vec<u8>, AllocError>
    ensures { IfOk result (λ line. line.items ≡ spec.refused_line refusal) }
{
    let mut text = Vec::from_slice(alloc, b"refused ")?;
    text.extend_from_slice(kind_name(refusal.kind))?;
    text.extend_from_slice(b" ")?;
    push_number(&mut Digits::new(), u64::from(refusal.place.byte), &mut text)?;
    text.extend_from_slice(b"\n")?;
    Ok(text)
}
