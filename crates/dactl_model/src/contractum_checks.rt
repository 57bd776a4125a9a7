//! Tests of the new nodes, redirections and wakes of a contractum.
ghost use Rattle.std.specs.Prelude.{◌≡◌, ◌≢◌, ◌<◌, ◌≤◌, ◌^◌, ◌↔◌, IsTrue, All, length};
ghost use Rattle.dactl_model.specs.Programs.{IsMention, IsLeft, IsLabel, fresh_flags, IsFreshMark};
ghost use Rattle.dactl_model.specs.Programs.{IsFreshNode, fresh_arcs, AreFreshNodes, IsWritten};
ghost use Rattle.dactl_model.specs.Programs.{IsBody, IsDelta, IsBesideRoot, MaySuspend};
ghost use Rattle.dactl_model.specs.Programs.{is_narrow_label, AreNarrowNodes, IsNarrowBody};
ghost use Rattle.dactl_model.specs.Validity.{AreDistinctLefts};

use crate::graph::{Label, Mark};
use crate::integers::is_word;
use crate::pattern_checks::binds_root;
use crate::program::{Body, FreshArc, FreshNode, Left, Mention, Move, Pat};

fn is_mention(variables: u8, fresh: usize, mention: Mention) -> bool
    ensures { IsTrue result ↔ IsMention variables fresh mention }
{
    match mention {
        Mention::Old(variable) => variable < variables,
        Mention::Fresh(place) => (place as usize) < fresh,
    }
}

fn is_left(variables: u8, left: Left) -> bool
    ensures { IsTrue result ↔ IsLeft variables left }
{
    match left {
        Left::Root => true,
        Left::Variable(variable) => variable < variables,
    }
}

fn is_label(symbols: usize, label: Label, arcs: usize) -> bool
    ensures { IsTrue result ↔ IsLabel symbols label arcs }
{
    match label {
        Label::Symbol(symbol) => (symbol as usize) < symbols,
        Label::Integer(_) | Label::Character(_) => arcs == 0,
    }
}

fn count_flags(arcs: &[FreshArc]) -> usize
    ensures { result ≡ fresh_flags arcs.now }
{
    arcs.iter().filter(|arc| arc.waits).count()
}

fn is_mark(mark: Mark, flags: usize) -> bool
    ensures { IsTrue result ↔ IsFreshMark mark flags }
{
    match mark {
        Mark::Idle | Mark::Active => true,
        Mark::Waiting(awaited) => 1 <= awaited && awaited as usize <= flags,
    }
}

fn are_mentions(variables: u8, fresh: usize, arcs: &[FreshArc]) -> bool
    ensures { IsTrue result ↔ All (λ a. IsMention variables fresh a.to) arcs.now }
{
    arcs.iter().all(|arc| is_mention(variables, fresh, arc.to))
}

fn is_fresh_node(symbols: usize, variables: u8, fresh: usize, node: &FreshNode) -> bool
    ensures { IsTrue result ↔ IsFreshNode symbols variables fresh node.now }
{
    let arcs = node.arcs.as_slice();
    is_label(symbols, node.label, arcs.len())
        && arcs.len() <= 16
        && are_mentions(variables, fresh, arcs)
        && is_mark(node.mark, count_flags(arcs))
}

fn is_each_fresh_node(symbols: usize, variables: u8, count: usize, fresh: &[FreshNode]) -> bool
    ensures { IsTrue result ↔ All (IsFreshNode symbols variables count) fresh.now }
{
    fresh
        .iter()
        .all(|node| is_fresh_node(symbols, variables, count, node))
}

/// Whether the nodes have fewer than 2^31 arcs together.
fn has_few_arcs(fresh: &[FreshNode]) -> bool
    ensures { IsTrue result ↔ (fresh_arcs fresh.now < 2 ^ 31) }
{
    let mut left: usize = 0x7fff_ffff;
    for node in fresh {
        let arcs = node.arcs.len();
        if arcs > left {
            return false;
        }
        left -= arcs;
    }
    true
}

/// Whether the new nodes are in range, among so many symbols and variables.
pub fn are_fresh_nodes(symbols: usize, variables: u8, fresh: &[FreshNode]) -> bool
    ensures { IsTrue result ↔ AreFreshNodes symbols variables fresh.now }
{
    is_each_fresh_node(symbols, variables, fresh.len(), fresh)
        && fresh.len() < 0x8000_0000
        && has_few_arcs(fresh)
}

fn is_move(variables: u8, fresh: usize, step: Move) -> bool
    ensures { IsTrue result ↔ (IsLeft variables step.from × IsMention variables fresh step.to) }
{
    is_left(variables, step.from) && is_mention(variables, fresh, step.to)
}

fn are_moves(variables: u8, fresh: usize, moves: &[Move]) -> bool
    ensures { IsTrue result ↔
        All (λ m. IsLeft variables m.from × IsMention variables fresh m.to) moves.now }
{
    moves.iter().all(|step| is_move(variables, fresh, *step))
}

/// Whether no redirection of the list is from there.
fn is_new_left(moves: &[Move], from: Left) -> bool
    ensures { IsTrue result ↔ All (λ m. m.from ≢ from) moves.now }
{
    moves.iter().all(|step| step.from != from)
}

fn are_distinct(moves: &[Move]) -> bool
    ensures { IsTrue result ↔ AreDistinctLefts moves.now }
{
    for (place, step) in moves.iter().enumerate() {
        if !is_new_left(&moves[..place], step.from) {
            return false;
        }
    }
    true
}

fn are_variables(variables: u8, wakes: &[u8]) -> bool
    ensures { IsTrue result ↔ All (λ v. v < variables) wakes.now }
{
    wakes.iter().all(|&variable| variable < variables)
}

fn is_written(
    symbols: usize,
    variables: u8,
    fresh: &[FreshNode],
    moves: &[Move],
    wakes: &[u8],
) -> bool
    ensures { IsTrue result ↔ IsWritten symbols variables fresh.now moves.now wakes.now }
{
    are_fresh_nodes(symbols, variables, fresh)
        && are_moves(variables, fresh.len(), moves)
        && are_distinct(moves)
        && are_variables(variables, wakes)
}

/// Whether all that the body names is in range.
pub fn is_body(symbols: usize, variables: u8, body: &Body) -> bool
    ensures { IsTrue result ↔ IsBody symbols variables body.now }
{
    match body {
        Body::Written {
            fresh,
            moves,
            wakes,
            ..
        } => is_written(
            symbols,
            variables,
            fresh.as_slice(),
            moves.as_slice(),
            wakes.as_slice(),
        ),
        Body::Delta(_) => true,
    }
}

/// Whether the body is an arithmetic one.
pub fn is_delta(body: &Body) -> bool
    ensures { IsTrue result ↔ IsDelta body.now }
{
    matches!(body, Body::Delta(_))
}

fn is_beside_root(pattern: &Pat, left: Left) -> bool
    ensures { IsTrue result ↔ IsBesideRoot pattern.now left }
{
    match left {
        Left::Root => false,
        Left::Variable(variable) => !binds_root(variable, pattern),
    }
}

fn are_beside_root(pattern: &Pat, moves: &[Move]) -> bool
    ensures { IsTrue result ↔ All (λ m. IsBesideRoot pattern.now m.from) moves.now }
{
    moves.iter().all(|step| is_beside_root(pattern, step.from))
}

/// Whether the body leaves its root where it makes it wait again, and asks for no more than 16
/// notifications.
pub fn may_suspend(pattern: &Pat, body: &Body) -> bool
    ensures { IsTrue result ↔ MaySuspend pattern.now body.now }
{
    match body {
        Body::Written { moves, suspend, .. } => {
            *suspend <= 16 && (*suspend == 0 || are_beside_root(pattern, moves.as_slice()))
        }
        Body::Delta(_) => true,
    }
}

fn is_narrow_label(label: Label) -> bool
    ensures { result ≡ is_narrow_label label }
{
    match label {
        Label::Symbol(_) => true,
        Label::Integer(integer) => is_word(integer),
        Label::Character(_) => false,
    }
}

/// Whether each new node's label is a symbol or an integer of 64 bits.
pub fn are_narrow_nodes(fresh: &[FreshNode]) -> bool
    ensures { IsTrue result ↔ AreNarrowNodes fresh.now }
{
    fresh.iter().all(|node| is_narrow_label(node.label))
}

/// Whether each node that the body makes is labelled so.
pub fn is_narrow_body(body: &Body) -> bool
    ensures { IsTrue result ↔ IsNarrowBody body.now }
{
    match body {
        Body::Written { fresh, .. } => are_narrow_nodes(fresh.as_slice()),
        Body::Delta(_) => true,
    }
}
