//! The nodes of a pattern's variables.
ghost use Rattle.std.specs.Prelude.{◌≡◌, map};
ghost use Rattle.std.specs.List.{list_all};
ghost use Rattle.dactl_model.specs.Patterns.{is_bound};
ghost use Rattle.dactl_model.specs.Readings.{told, told_all};
ghost use Rattle.dactl_model.specs.RuleTold.{no_conflict};
ghost use Rattle.dactl_probe.specs.Bindings.{first_node, is_first, HasRoomFor, with_nodes};

use crate::reading::{has_shape, reading_of, targets_of};
use dactl_model::footprint::Footprint;
use dactl_model::graph::NodeId;
use dactl_model::program::Pat;
use dactl_model::reading::Reading;

/// The node at which the variable's first binder stands, as far as the readings tell.
#[cycle(first)]
pub fn first_bound(
    readings: &[Reading],
    pattern: &Pat,
    node: NodeId,
    variable: u8,
) -> Option<NodeId>
    ensures { result ≡ first_node (told readings.now pattern.now node).pairs variable }
{
    match pattern {
        Pat::Any | Pat::Int | Pat::Char | Pat::Literal(_) | Pat::Letter(_) => None,
        Pat::Union { .. } => None,
        Pat::Sym { symbol, args } => match reading_of(readings, node) {
            Some(reading) => {
                if has_shape(reading, *symbol, args.len()) {
                    first_bound_each(readings, args.as_slice(), targets_of(reading), variable)
                } else {
                    None
                }
            }
            None => None,
        },
        Pat::Bind { var, inner } => {
            if *var == variable {
                Some(node)
            } else {
                first_bound(readings, inner.get(), node, variable)
            }
        }
        Pat::Less { left, .. } => first_bound(readings, left.get(), node, variable),
    }
}

/// The first such node for the patterns, each at the target at its place.
#[cycle(first)]
fn first_bound_each(
    readings: &[Reading],
    patterns: &[Pat],
    targets: &[NodeId],
    variable: u8,
) -> Option<NodeId>
    ensures { result ≡
        first_node (told_all (map (told readings.now) patterns.now) targets.now).pairs variable }
{
    for (place, pattern) in patterns.iter().enumerate() {
        if place >= targets.len() {
            return None;
        }
        if let Some(found) = first_bound(readings, pattern, targets[place], variable) {
            return Some(found);
        }
    }
    None
}

fn is_at(bound: Option<NodeId>, node: NodeId) -> bool
    ensures { result ≡ is_bound bound node }
{
    match bound {
        Some(other) => other.number == node.number,
        None => false,
    }
}

/// Whether each binder of the pattern stands where the first one of its variable stands in the
/// whole pattern, which is laid at the root.
#[cycle(agree)]
fn agrees(readings: &[Reading], pattern: &Pat, node: NodeId, whole: &Pat, root: NodeId) -> bool
    ensures { result ≡ list_all
        (is_first (told readings.now whole.now root).pairs)
        (told readings.now pattern.now node).pairs }
{
    match pattern {
        Pat::Any | Pat::Int | Pat::Char | Pat::Literal(_) | Pat::Letter(_) => true,
        Pat::Union { .. } => true,
        Pat::Sym { symbol, args } => match reading_of(readings, node) {
            Some(reading) => {
                if has_shape(reading, *symbol, args.len()) {
                    each_agrees(readings, args.as_slice(), targets_of(reading), whole, root)
                } else {
                    true
                }
            }
            None => true,
        },
        Pat::Bind { var, inner } => {
            is_at(first_bound(readings, whole, root, *var), node)
                && agrees(readings, inner.get(), node, whole, root)
        }
        Pat::Less { left, .. } => agrees(readings, left.get(), node, whole, root),
    }
}

/// The same of the patterns, each at the target at its place.
#[cycle(agree)]
fn each_agrees(
    readings: &[Reading],
    patterns: &[Pat],
    targets: &[NodeId],
    whole: &Pat,
    root: NodeId,
) -> bool
    ensures { result ≡ list_all
        (is_first (told readings.now whole.now root).pairs)
        (told_all (map (told readings.now) patterns.now) targets.now).pairs }
{
    for (place, pattern) in patterns.iter().enumerate() {
        if place >= targets.len() {
            return true;
        }
        if !agrees(readings, pattern, targets[place], whole, root) {
            return false;
        }
    }
    true
}

/// Whether no variable stands for two nodes, as far as the readings tell.
pub fn has_no_conflict(readings: &[Reading], pattern: &Pat, node: NodeId) -> bool
    ensures { result ≡ no_conflict (told readings.now pattern.now node).pairs }
{
    agrees(readings, pattern, node, pattern, node)
}

/// Puts the nodes of the pattern's binders into the footprint, in order, as far as the readings
/// tell.
#[cycle(push)]
pub fn push_bound(footprint: &mut Footprint, pattern: &Pat, node: NodeId)
    requires { HasRoomFor footprint.old (told footprint.old.readings pattern.now node).pairs }
    ensures { footprint.new ≡
        with_nodes footprint.old (told footprint.old.readings pattern.now node).pairs }
{
    match pattern {
        Pat::Any | Pat::Int | Pat::Char | Pat::Literal(_) | Pat::Letter(_) => {}
        Pat::Union { .. } => {}
        Pat::Sym { symbol, args } => {
            let Some(reading) = reading_of(footprint.readings(), node) else {
                return;
            };
            let reading = *reading;
            if has_shape(&reading, *symbol, args.len()) {
                push_each_bound(footprint, args.as_slice(), targets_of(&reading));
            }
        }
        Pat::Bind { inner, .. } => {
            footprint.push_binding(node);
            push_bound(footprint, inner.get(), node);
        }
        Pat::Less { left, .. } => push_bound(footprint, left.get(), node),
    }
}

/// The same for the patterns, each at the target at its place.
#[cycle(push)]
fn push_each_bound(footprint: &mut Footprint, patterns: &[Pat], targets: &[NodeId])
    requires { HasRoomFor footprint.old
        (told_all (map (told footprint.old.readings) patterns.now) targets.now).pairs }
    ensures { footprint.new ≡ with_nodes footprint.old
        (told_all (map (told footprint.old.readings) patterns.now) targets.now).pairs }
{
    for (place, pattern) in patterns.iter().enumerate() {
        if place >= targets.len() {
            return;
        }
        push_bound(footprint, pattern, targets[place]);
    }
}
