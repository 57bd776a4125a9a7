//! What readings tell of a pattern.
ghost use Rattle.std.specs.Prelude.{◌≡◌, map};
ghost use Rattle.dactl_probe.specs.Findings.{lesser, greater, denied, finding_of, found, found_all};

use crate::reading::{has_shape, reading_of, targets_of};
use dactl_model::graph::NodeId;
use dactl_model::program::Pat;
use dactl_model::reading::Reading;

/// Whether a pattern holds as far as readings tell. Where it isn't known, there is a node that the
/// pattern tests and that wasn't read.
#[derive(Clone, Copy, Debug, PartialEq, Eq)]
pub enum Finding {
    No,
    Unknown(NodeId),
    Yes,
}

fn finding_of(holds: bool) -> Finding
    ensures { result ≡ finding_of holds }
{
    if holds { Finding::Yes } else { Finding::No }
}

fn lesser(first: Finding, second: Finding) -> Finding
    ensures { result ≡ lesser first second }
{
    match (first, second) {
        (Finding::Yes, _) => second,
        (_, Finding::No) => Finding::No,
        _ => first,
    }
}

fn greater(first: Finding, second: Finding) -> Finding
    ensures { result ≡ greater first second }
{
    match (first, second) {
        (Finding::No, _) => second,
        (_, Finding::Yes) => Finding::Yes,
        _ => first,
    }
}

fn denied(finding: Finding) -> Finding
    ensures { result ≡ denied finding }
{
    match finding {
        Finding::No => Finding::Yes,
        Finding::Unknown(node) => Finding::Unknown(node),
        Finding::Yes => Finding::No,
    }
}

/// What the readings tell of the pattern at the node.
#[cycle(look)]
pub fn look(readings: &[Reading], pattern: &Pat, node: NodeId) -> Finding
    ensures { result ≡ found readings.now pattern.now node }
{
    match pattern {
        Pat::Any => Finding::Yes,
        Pat::Int => match reading_of(readings, node) {
            Some(reading) => finding_of(reading.label.is_integer()),
            None => Finding::Unknown(node),
        },
        Pat::Char => match reading_of(readings, node) {
            Some(reading) => finding_of(reading.label.is_character()),
            None => Finding::Unknown(node),
        },
        Pat::Literal(integer) => match reading_of(readings, node) {
            Some(reading) => finding_of(reading.label.has_integer(*integer)),
            None => Finding::Unknown(node),
        },
        Pat::Letter(character) => match reading_of(readings, node) {
            Some(reading) => finding_of(reading.label.has_character(*character)),
            None => Finding::Unknown(node),
        },
        Pat::Sym { symbol, args } => match reading_of(readings, node) {
            Some(reading) => {
                if has_shape(reading, *symbol, args.len()) {
                    look_each(readings, args.as_slice(), targets_of(reading))
                } else {
                    Finding::No
                }
            }
            None => Finding::Unknown(node),
        },
        Pat::Bind { inner, .. } => look(readings, inner.get(), node),
        Pat::Union { left, right } => greater(
            look(readings, left.get(), node),
            look(readings, right.get(), node),
        ),
        Pat::Less { left, right } => lesser(
            look(readings, left.get(), node),
            denied(look(readings, right.get(), node)),
        ),
    }
}

/// What they tell of the patterns together, each at the target at its place.
#[cycle(look)]
fn look_each(readings: &[Reading], patterns: &[Pat], targets: &[NodeId]) -> Finding
    ensures { result ≡ found_all (map (found readings.now) patterns.now) targets.now }
{
    let mut finding = Finding::Yes;
    for (place, pattern) in patterns.iter().enumerate() {
        if place >= targets.len() {
            return Finding::No;
        }
        finding = lesser(finding, look(readings, pattern, targets[place]));
        if finding == Finding::No {
            return Finding::No;
        }
    }
    finding
}
