//! The programs of the tests.

use dactl_model::Memory;
use dactl_model::arithmetic::arithmetic_rule;
use dactl_model::graph::{Label, Mark};
use dactl_model::program::{
    Body, Class, FreshArc, FreshNode, Left, Mention, Move, Op, Pat, Program, Rule, Start, Symbol,
};
use sqlite_items::Items;
use std::alloc::Global;

const F: u32 = 7;

const CELL: u32 = 8;

/// Nine symbols, which the tests know by their numbers alone.
fn symbols(alloc: Global) -> Result<Items<Symbol>, Memory> {
    let mut all = Items::new(alloc);
    for letter in b'A'..b'J' {
        all.push(Symbol {
            name: Items::from_slice(alloc, &[b'S', letter])?,
            class: Class::Rewritable,
        })?;
    }
    Ok(all)
}

fn node(alloc: Global, symbol: u32, arcs: &[FreshArc]) -> Result<FreshNode, Memory> {
    Ok(FreshNode {
        label: Label::Symbol(symbol),
        arcs: Items::from_slice(alloc, arcs)?,
        mark: Mark::Active,
    })
}

/// What `F => *F` makes.
fn renewed(alloc: Global) -> Result<Body, Memory> {
    let mut fresh = Items::new(alloc);
    fresh.push(node(alloc, F, &[])?)?;
    let root = Move {
        from: Left::Root,
        to: Mention::Fresh(0),
    };
    Ok(Body::Written {
        fresh,
        moves: Items::from_slice(alloc, &[root])?,
        wakes: Items::new(alloc),
        suspend: 0,
    })
}

/// What `r:F -> #r` makes.
fn suspended(alloc: Global) -> Body {
    Body::Written {
        fresh: Items::new(alloc),
        moves: Items::new(alloc),
        wakes: Items::new(alloc),
        suspend: 1,
    }
}

fn rule(alloc: Global, body: Body) -> Rule {
    Rule {
        symbol: F,
        group: 5,
        variables: 0,
        pattern: Pat::Sym {
            symbol: F,
            args: Items::new(alloc),
        },
        body,
    }
}

fn rules(alloc: Global, body: Body) -> Result<Items<Rule>, Memory> {
    let operations = [Op::Add, Op::Sub, Op::Mul, Op::Eq, Op::Lt];
    let mut all = Items::new(alloc);
    for (number, op) in operations.into_iter().enumerate() {
        all.push(arithmetic_rule(alloc, number as u32, op)?)?;
    }
    all.push(rule(alloc, body))?;
    Ok(all)
}

/// The rules of the arithmetic, and as number 5 one of `F`. The start is `*Cell[x], x:*F`.
fn program_with(alloc: Global, body: Body) -> Result<Program, Memory> {
    let arc = FreshArc {
        to: Mention::Fresh(1),
        waits: false,
    };
    let mut fresh = Items::new(alloc);
    fresh.push(node(alloc, CELL, &[arc])?)?;
    fresh.push(node(alloc, F, &[])?)?;
    Ok(Program {
        symbols: symbols(alloc)?,
        rules: rules(alloc, body)?,
        start: Start { fresh, root: 0 },
        wide: false,
    })
}

/// The program with `F => *F`.
pub fn program(alloc: Global) -> Result<Program, Memory> {
    program_with(alloc, renewed(alloc)?)
}

/// The program with `r:F -> #r`.
pub fn suspending(alloc: Global) -> Result<Program, Memory> {
    program_with(alloc, suspended(alloc))
}
