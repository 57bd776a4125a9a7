//! Programs of one rule beside the arithmetic ones.

use dactl_model::Memory;
use dactl_model::arithmetic::arithmetic_rule;
use dactl_model::graph::{Label, Mark};
use dactl_model::program::{
    Body, Class, FreshArc, FreshNode, Left, Mention, Move, Op, Pat, Program, Rule, Start, Symbol,
};
use sqlite_items::{Boxed, Items};
use std::alloc::Global;

pub const F: u32 = 7;

pub const G: u32 = 8;

pub const A: u32 = 9;

pub const CONS: u32 = 10;

/// Eleven symbols, which the tests know by their numbers alone.
fn symbols(alloc: Global) -> Result<Items<Symbol>, Memory> {
    let mut all = Items::new(alloc);
    for letter in b'A'..b'L' {
        all.push(Symbol {
            name: Items::from_slice(alloc, &[b'S', letter])?,
            class: Class::Rewritable,
        })?;
    }
    Ok(all)
}

fn variable(alloc: Global, var: u8, pattern: Pat) -> Result<Pat, Memory> {
    let inner = Boxed::new(alloc, pattern)?;
    Ok(Pat::Bind { var, inner })
}

/// `r:F[x y]`.
fn pattern(alloc: Global) -> Result<Pat, Memory> {
    let mut args = Items::new(alloc);
    args.push(variable(alloc, 1, Pat::Any)?)?;
    args.push(variable(alloc, 2, Pat::Any)?)?;
    variable(alloc, 0, Pat::Sym { symbol: F, args })
}

/// The node of a variable.
pub fn old(var: u8) -> Mention {
    Mention::Old(var)
}

/// A new node.
pub fn new(place: u32) -> Mention {
    Mention::Fresh(place)
}

pub fn arc(to: Mention, waits: bool) -> FreshArc {
    FreshArc { to, waits }
}

/// A plain arc.
pub fn to(mention: Mention) -> FreshArc {
    arc(mention, false)
}

/// A flagged arc.
pub fn waits_for(mention: Mention) -> FreshArc {
    arc(mention, true)
}

/// Plain arcs to two new nodes.
pub fn to_both(first: u32, second: u32) -> [FreshArc; 2] {
    [to(new(first)), to(new(second))]
}

pub fn from_root(mention: Mention) -> Move {
    Move {
        from: Left::Root,
        to: mention,
    }
}

pub fn from(var: u8, mention: Mention) -> Move {
    Move {
        from: Left::Variable(var),
        to: mention,
    }
}

/// A rule that makes nothing.
pub const NOTHING: Contractum<'static> = Contractum {
    fresh: &[],
    moves: &[],
    wakes: &[],
    suspend: 0,
};

/// A new node, with borrowed arcs.
#[derive(Clone, Copy)]
pub struct NewNode<'a> {
    pub label: Label,
    pub mark: Mark,
    pub arcs: &'a [FreshArc],
}

pub fn node(label: Label, mark: Mark, arcs: &[FreshArc]) -> NewNode<'_> {
    NewNode { label, mark, arcs }
}

fn nodes(alloc: Global, all: &[NewNode<'_>]) -> Result<Items<FreshNode>, Memory> {
    let mut fresh = Items::new(alloc);
    for node in all {
        fresh.push(FreshNode {
            label: node.label,
            arcs: Items::from_slice(alloc, node.arcs)?,
            mark: node.mark,
        })?;
    }
    Ok(fresh)
}

/// What a rule makes, with borrowed parts.
#[derive(Clone, Copy)]
pub struct Contractum<'a> {
    pub fresh: &'a [NewNode<'a>],
    pub moves: &'a [Move],
    pub wakes: &'a [u8],
    pub suspend: u8,
}

fn rule(alloc: Global, made: Contractum<'_>) -> Result<Rule, Memory> {
    Ok(Rule {
        symbol: F,
        group: 5,
        variables: 3,
        pattern: pattern(alloc)?,
        body: Body::Written {
            fresh: nodes(alloc, made.fresh)?,
            moves: Items::from_slice(alloc, made.moves)?,
            wakes: Items::from_slice(alloc, made.wakes)?,
            suspend: made.suspend,
        },
    })
}

fn rules(alloc: Global, made: Contractum<'_>) -> Result<Items<Rule>, Memory> {
    let operations = [Op::Add, Op::Sub, Op::Mul, Op::Eq, Op::Lt];
    let mut all = Items::new(alloc);
    for (number, op) in operations.into_iter().enumerate() {
        all.push(arithmetic_rule(alloc, number as u32, op)?)?;
    }
    all.push(rule(alloc, made)?)?;
    Ok(all)
}

/// The rules of the arithmetic, and as number 5 `r:F[x y]`, which makes this; and this start.
pub fn program(
    alloc: Global,
    made: Contractum<'_>,
    start: &[NewNode<'_>],
) -> Result<Program, Memory> {
    Ok(Program {
        symbols: symbols(alloc)?,
        rules: rules(alloc, made)?,
        start: Start {
            fresh: nodes(alloc, start)?,
            root: 0,
        },
        wide: true,
    })
}
