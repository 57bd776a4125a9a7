use crate::{Verdict, verify};
use dactl_model::Memory;
use dactl_model::arithmetic::arithmetic_rule;
use dactl_model::graph::{Label, Mark, NodeId, Room};
use dactl_model::program::{
    Body, Class, FreshNode, Left, Mention, Move, Op, Pat, Program, Rule, Start, Symbol,
};
use dactl_model::validity::is_valid;
use sqlite_items::Items;
use std::alloc::Global;

fn symbols(alloc: Global) -> Result<Items<Symbol>, Memory> {
    let names: [&[u8]; 8] = [
        b"IAdd", b"ISub", b"IMul", b"IEq", b"ILt", b"True", b"False", b"Loop",
    ];
    let mut all = Items::new(alloc);
    for name in names {
        all.push(Symbol {
            name: Items::from_slice(alloc, name)?,
            class: Class::Rewritable,
        })?;
    }
    Ok(all)
}

/// An active node of the symbol.
fn active(alloc: Global, symbol: u32) -> FreshNode {
    FreshNode {
        label: Label::Symbol(symbol),
        arcs: Items::new(alloc),
        mark: Mark::Active,
    }
}

/// `Loop => *Loop`, in this group.
fn loop_rule(alloc: Global, group: u32) -> Result<Rule, Memory> {
    let mut fresh = Items::new(alloc);
    fresh.push(active(alloc, 7))?;
    let to_first = Move {
        from: Left::Root,
        to: Mention::Fresh(0),
    };
    let body = Body::Written {
        fresh,
        moves: Items::from_slice(alloc, &[to_first])?,
        wakes: Items::new(alloc),
        suspend: 0,
    };
    Ok(Rule {
        symbol: 7,
        group,
        variables: 0,
        pattern: Pat::Sym {
            symbol: 7,
            args: Items::new(alloc),
        },
        body,
    })
}

/// The rules of the arithmetic, and the rule of `Loop` in two groups.
fn rules(alloc: Global) -> Result<Items<Rule>, Memory> {
    let mut all = Items::new(alloc);
    for (number, op) in [Op::Add, Op::Sub, Op::Mul, Op::Eq, Op::Lt]
        .into_iter()
        .enumerate()
    {
        all.push(arithmetic_rule(alloc, number as u32, op)?)?;
    }
    all.push(loop_rule(alloc, 5)?)?;
    all.push(loop_rule(alloc, 6)?)?;
    Ok(all)
}

/// A program over an active node of the symbol.
fn program(alloc: Global, symbol: u32) -> Result<Program, Memory> {
    let mut fresh = Items::new(alloc);
    fresh.push(active(alloc, symbol))?;
    Ok(Program {
        symbols: symbols(alloc)?,
        rules: rules(alloc)?,
        start: Start { fresh, root: 0 },
        wide: false,
    })
}

/// Whether the check of a trace over that program comes to the verdict, with so many entries.
fn comes_to(
    alloc: Global,
    symbol: u32,
    trace: &[u8],
    nodes: u32,
    verdict: Verdict,
    entries: usize,
) -> Result<bool, Memory> {
    let program = program(alloc, symbol)?;
    if !is_valid(&program) || trace.len() > 1000 || nodes > 1000 {
        return Ok(false);
    }
    let room = Room { nodes, arcs: 0 };
    let mut journal = Vec::new(alloc);
    let found = verify(alloc, &program, trace, room, &mut journal)?;
    Ok(found == verdict && journal.len() == entries)
}

/// Whether the trace over `*Loop` is wrong at the line.
fn is_wrong_at(alloc: Global, trace: &[u8], line: u32) -> Result<bool, Memory> {
    let entries = (line as usize).saturating_sub(1);
    comes_to(alloc, 7, trace, 9, Verdict::Wrong { line }, entries)
}

/// Whether the trace over `*Loop` is a journal of so many entries.
fn is_valid_with(alloc: Global, trace: &[u8], entries: usize) -> Result<bool, Memory> {
    comes_to(alloc, 7, trace, 9, Verdict::Valid, entries)
}

#[test]
fn journals_are_valid(rt: HostRuntime) -> Result<(), Memory> {
    assert!(rt; is_valid_with(rt.alloc(), b"", 0)?);
    assert!(rt; is_valid_with(rt.alloc(), b"1 w1 fire 0 5\n", 1)?);
    assert!(rt; is_valid_with(rt.alloc(), b"1 w1 fire 0 5\n2 w16 fire 1 5\n", 2)?);
    assert!(rt; comes_to(rt.alloc(), 5, b"1 w3 note 0\n", 1, Verdict::Valid, 1)?);
    Ok(())
}

#[test]
fn the_first_wrong_line_is_told(rt: HostRuntime) -> Result<(), Memory> {
    assert!(rt; is_wrong_at(rt.alloc(), b"1 w1 fire 0 5\n2 w1 fire 0 5\n", 2)?);
    assert!(rt; is_wrong_at(rt.alloc(), b"1 w1 note 0\n2 w1 fire 1 5\n", 1)?);
    assert!(rt; is_wrong_at(rt.alloc(), b"1 w1 fire 0 5\n\n", 2)?);
    assert!(rt; is_wrong_at(rt.alloc(), b"1 w1 fire 4294967295 5\n", 1)?);
    assert!(rt; is_wrong_at(rt.alloc(), b"1 w1 fire 0 4294967296\n", 1)?);
    Ok(())
}

#[test]
fn a_rule_of_a_later_group_is_wrong(rt: HostRuntime) -> Result<(), Memory> {
    assert!(rt; is_wrong_at(rt.alloc(), b"1 w1 fire 0 6\n", 1)?);
    assert!(rt; is_wrong_at(rt.alloc(), b"1 w1 fire 0 7\n", 1)?);
    Ok(())
}

#[test]
fn a_last_line_without_its_end_is_wrong(rt: HostRuntime) -> Result<(), Memory> {
    assert!(rt; is_wrong_at(rt.alloc(), b"1 w1 fire 0 5\n2 w1 fire 1 5", 2)?);
    assert!(rt; is_wrong_at(rt.alloc(), b"1", 1)?);
    Ok(())
}

#[test]
fn numbers_are_as_they_are_printed(rt: HostRuntime) -> Result<(), Memory> {
    assert!(rt; is_wrong_at(rt.alloc(), b"2 w1 fire 0 5\n", 1)?);
    assert!(rt; is_wrong_at(rt.alloc(), b"01 w1 fire 0 5\n", 1)?);
    assert!(rt; is_wrong_at(rt.alloc(), b"1 w01 fire 0 5\n", 1)?);
    assert!(rt; is_wrong_at(rt.alloc(), b"1 w1 fire 00 5\n", 1)?);
    assert!(rt; is_wrong_at(rt.alloc(), b"1 w1 fire +0 5\n", 1)?);
    assert!(rt; is_wrong_at(rt.alloc(), b"1 w1 fire 0  5\n", 1)?);
    assert!(rt; is_wrong_at(rt.alloc(), b"1 w1 fire 0 5\r\n", 1)?);
    Ok(())
}

#[test]
fn workers_are_from_1_to_16(rt: HostRuntime) -> Result<(), Memory> {
    assert!(rt; is_wrong_at(rt.alloc(), b"1 w0 fire 0 5\n", 1)?);
    assert!(rt; is_wrong_at(rt.alloc(), b"1 w17 fire 0 5\n", 1)?);
    assert!(rt; is_wrong_at(rt.alloc(), b"1 w257 fire 0 5\n", 1)?);
    Ok(())
}

#[test]
fn the_room_is_asked(rt: HostRuntime) -> Result<(), Memory> {
    let trace = b"1 w1 fire 0 5\n2 w1 fire 1 5\n";
    let full = Verdict::Full {
        line: 2,
        node: NodeId { number: 1 },
        rule: 5,
        needed: Room { nodes: 1, arcs: 0 },
        left: Room { nodes: 0, arcs: 0 },
    };
    assert!(rt; comes_to(rt.alloc(), 7, trace, 2, full, 1)?);
    assert!(rt; comes_to(rt.alloc(), 7, trace, 3, Verdict::Valid, 2)?);
    assert!(rt;
        comes_to(
            rt.alloc(),
            7,
            b"1 w1 fire 1 5\n",
            1,
            Verdict::Wrong { line: 1 },
            0
        )?
    );
    Ok(())
}

#[test]
fn a_start_that_does_not_fit_is_small(rt: HostRuntime) -> Result<(), Memory> {
    let small = Verdict::Small {
        needed: Room { nodes: 1, arcs: 0 },
        left: Room { nodes: 0, arcs: 0 },
    };
    assert!(rt; comes_to(rt.alloc(), 7, b"no line is read", 0, small, 0)?);
    Ok(())
}
