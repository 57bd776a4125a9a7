//! Many rules of one symbol, each with 64 nodes in its pattern.

ghost use Rattle.std.specs.Prelude.{◌≡◌, ◌<◌};

use super::{BOX, F, arithmetic, id, start, symbols};
use crate::{Next, Probe};
use dactl_decide::{Deciders, compile};
use dactl_model::Memory;
use dactl_model::footprint::{Attempt, Footprint};
use dactl_model::graph::{Event, Label, NodeId};
use dactl_model::program::{Body, Pat, Program, Rule};
use dactl_model::reading::{Reading, Targets};
use dactl_model::validity::is_valid;
use sqlite_items::Items;
use std::alloc::Global;
use std::test::Fail;
use std::time::Instant;

/// How many rules there are beside the arithmetic ones.
const RULES: u32 = 4096;

/// `Box` over so many patterns, of which all but the first are `INT`.
fn boxed(alloc: Global, first: Pat, count: u32) -> Result<Pat, Memory> {
    let mut args = Items::new(alloc);
    args.push(first)?;
    for _ in 1..count {
        args.push(Pat::Int)?;
    }
    Ok(Pat::Sym { symbol: BOX, args })
}

/// `F` over 15 boxes with three leaves each and one with two. The first leaf is the literal.
fn pattern(alloc: Global, literal: i128) -> Result<Pat, Memory> {
    let mut args = Items::new(alloc);
    args.push(boxed(alloc, Pat::Literal(literal), 3)?)?;
    for _ in 0..14 {
        args.push(boxed(alloc, Pat::Int, 3)?)?;
    }
    args.push(boxed(alloc, Pat::Int, 2)?)?;
    Ok(Pat::Sym { symbol: F, args })
}

/// Which rules share a group.
#[derive(Clone, Copy)]
enum Groups {
    Each,
    One,
}

/// The group of rule `5 + number`.
fn group(groups: Groups, number: u32) -> u32
    requires { number < 5000 }
{
    match groups {
        Groups::Each => 5 + number,
        Groups::One => 5,
    }
}

/// Rule `5 + k` has the literal `k`.
fn program(alloc: Global, groups: Groups) -> Result<Program, Memory> {
    let mut rules = arithmetic(alloc)?;
    for number in 0..RULES {
        rules.push(Rule {
            symbol: F,
            group: group(groups, number),
            variables: 0,
            pattern: pattern(alloc, i128::from(number))?,
            body: Body::Written {
                fresh: Items::new(alloc),
                moves: Items::new(alloc),
                wakes: Items::new(alloc),
                suspend: 0,
            },
        })?;
    }
    Ok(Program {
        symbols: symbols(alloc)?,
        rules,
        start: start(alloc)?,
        wide: false,
    })
}

/// Sixteen nodes from this number on.
fn nodes_from(first: u32) -> [NodeId; 16]
    requires { first < 1000 }
{
    let mut nodes = [id(first); 16];
    for place in 0..16u32 {
        nodes[place as usize] = id(first + place);
    }
    nodes
}

/// What is read of a node of a graph with `F` at node 0, boxes at the nodes 1 to 16, and integers from
/// node 100 on, of which the first is the literal and the others are 0.
fn reading(node: NodeId, literal: i128) -> Reading
    ensures { result.node ≡ node }
{
    let (label, count, first) = match node.number {
        0 => (Label::Symbol(F), 16, 1),
        number @ 1..=15 => (Label::Symbol(BOX), 3, 97 + 3 * number),
        16 => (Label::Symbol(BOX), 2, 145),
        100 => (Label::Integer(literal), 0, 0),
        _ => (Label::Integer(0), 0, 0),
    };
    Reading {
        node,
        label,
        targets: Targets {
            count,
            nodes: nodes_from(first),
        },
        version: 0,
    }
}

/// The attempt of a probe of node 0 in that graph, if 64 readings suffice.
fn attempt(alloc: Global, deciders: &Deciders, literal: i128) -> Result<Option<Attempt>, Memory> {
    let room = Footprint::with_room(alloc, deciders.widest())?;
    let mut probe = Probe::start(deciders, id(0), room);
    for _ in 0..65 {
        match probe.need() {
            Next::Done => return Ok(Some(probe.attempt())),
            Next::Need(node) => {
                probe.step(reading(node, literal));
            }
        }
    }
    Ok(None)
}

/// Prints how long it took since then.
fn print_time(rt: &HostRuntime, what: &str, begun: Instant) -> Result<(), Fail> {
    let took = begun.elapsed(rt)?.as_micros();
    println!(rt; "{what}: {took} microseconds")?;
    Ok(())
}

/// Whether the probe fires the rule of the literal, after readings of 64 nodes.
fn fires(alloc: Global, deciders: &Deciders, literal: i128, rule: u32) -> Result<bool, Memory> {
    Ok(match attempt(alloc, deciders, literal)? {
        Some(found) => {
            found.event == Event::Fire { node: id(0), rule }
                && found.footprint.readings().len() == 64
        }
        None => false,
    })
}

/// Whether the first leaf decides which rule fires, and the other nodes of its pattern are read
/// then.
fn are_told_apart(rt: &HostRuntime, groups: Groups) -> Result<bool, Fail> {
    let program = program(rt.alloc(), groups)?;
    if !is_valid(&program) {
        return Ok(false);
    }
    let begun = Instant::now(rt)?;
    let deciders = compile(rt.alloc(), &program)?;
    print_time(rt, "4096 rules compiled", begun)?;
    for (literal, rule) in [(0, 5), (2048, 2053), (4095, 4100)] {
        let begun = Instant::now(rt)?;
        if !fires(rt.alloc(), &deciders, literal, rule)? {
            return Ok(false);
        }
        print_time(rt, "64 nodes read", begun)?;
    }
    Ok(deciders.widest() == 64)
}

#[test]
fn many_rules_are_told_apart_by_a_leaf(rt: HostRuntime) -> Result<(), Fail> {
    assert!(rt; are_told_apart(&rt, Groups::Each)?);
    Ok(())
}

/// The rules that are lost by the leaf stand on both sides of the one that is open.
#[test]
fn rules_of_one_group_are_told_apart_by_a_leaf(rt: HostRuntime) -> Result<(), Fail> {
    assert!(rt; are_told_apart(&rt, Groups::One)?);
    Ok(())
}
