use crate::fault::{GraphFault, NotResumed};
use crate::reading::read_graph;
use crate::resuming::resumed;
use dactl_model::Memory;
use dactl_model::arithmetic::arithmetic_rule;
use dactl_model::graph::{Arc, Graph, Label, Mark};
use dactl_model::program::{Class, FreshNode, Op, Program, Rule, Start, Symbol};
use dactl_model::validity::is_valid;
use sqlite_items::Items;
use std::alloc::{AllocError, Global};

fn symbols(alloc: Global) -> Result<Items<Symbol>, Memory> {
    let names: [&[u8]; 10] = [
        b"IAdd", b"ISub", b"IMul", b"IEq", b"ILt", b"True", b"False", b"Both", b"A", b"B",
    ];
    let mut all = Items::new(alloc);
    for name in names {
        all.push(Symbol {
            name: Items::from_slice(alloc, name)?,
            class: Class::Rewritable,
        })?;
    }
    Ok(all)
}

fn rules(alloc: Global) -> Result<Items<Rule>, Memory> {
    let mut all = Items::new(alloc);
    for (number, op) in [Op::Add, Op::Sub, Op::Mul, Op::Eq, Op::Lt]
        .into_iter()
        .enumerate()
    {
        all.push(arithmetic_rule(alloc, number as u32, op)?)?;
    }
    Ok(all)
}

/// A program of either language, with the symbols `Both`, `A` and `B`.
fn program(alloc: Global, wide: bool) -> Result<Program, Memory> {
    let mut fresh = Items::new(alloc);
    fresh.push(FreshNode {
        label: Label::Symbol(8),
        arcs: Items::new(alloc),
        mark: Mark::Idle,
    })?;
    Ok(Program {
        symbols: symbols(alloc)?,
        rules: rules(alloc)?,
        start: Start { fresh, root: 0 },
        wide,
    })
}

/// The line at which the text is bad, or 0 where a graph is read from it.
fn bad_line(alloc: Global, wide: bool, text: &[u8]) -> Result<u32, Memory> {
    let program = program(alloc, wide)?;
    if !is_valid(&program) || text.len() > 1000 {
        return Ok(1000);
    }
    match resumed(alloc, program, text) {
        Ok(_) => Ok(0),
        Err(NotResumed::Bad { line, .. }) => Ok(line),
        Err(NotResumed::Memory) => Err(AllocError),
    }
}

/// Whether the first argument waits, and leads to node 1.
fn waits_first(arcs: &[Arc]) -> bool {
    match arcs {
        [first, ..] => first.waits && first.target.number == 1,
        [] => false,
    }
}

/// Whether the first node awaits two notifications, the first of them from node 1.
fn awaits_two(graph: &Graph) -> bool {
    match graph.nodes.as_slice() {
        [node, ..] => node.mark == Mark::Waiting(2) && waits_first(node.arcs.as_slice()),
        [] => false,
    }
}

/// Whether a graph is read from the text whose first node awaits two notifications.
fn reads_awaiting(alloc: Global, text: &[u8]) -> Result<bool, Memory> {
    let program = program(alloc, false)?;
    if !is_valid(&program) || text.len() > 1000 {
        return Ok(false);
    }
    match read_graph(alloc, &program, text) {
        Ok(graph) => Ok(awaits_two(&graph)),
        Err(GraphFault::Bad { .. }) => Ok(false),
        Err(GraphFault::Memory) => Err(AllocError),
    }
}

#[test]
fn marks_and_flags_are_read(rt: HostRuntime) -> Result<(), Memory> {
    assert!(rt; reads_awaiting(rt.alloc(), b"@1 ##Both[^@2 ^@3]\n@2 *A\n@3 *A\n")?);
    Ok(())
}

#[test]
fn the_first_bad_line_is_told(rt: HostRuntime) -> Result<(), Memory> {
    let alloc = rt.alloc();
    assert!(rt; bad_line(alloc, false, b"@1 ##Both[^@2 ^@3]\n@2 *A\n@3 *A\n")? == 0);
    assert!(rt; bad_line(alloc, false, b"@1 ##Both[^@3 ^@2]\n@2 *A\n@3 *A\n")? == 1);
    assert!(rt; bad_line(alloc, false, b"@1 #Both[@2 @2]\n@2 A\n")? == 1);
    assert!(rt; bad_line(alloc, false, b"@1 B\n@2 A\n")? == 2);
    assert!(rt; bad_line(alloc, false, b"")? == 1);
    assert!(rt; bad_line(alloc, false, b"@1 Both[@1 @2]\n@2 Both[@1 @3]\n")? == 2);
    assert!(rt; bad_line(alloc, false, b"@1 A[@2]\n@2 A")? == 2);
    Ok(())
}

#[test]
fn labels_are_those_of_the_language(rt: HostRuntime) -> Result<(), Memory> {
    let alloc = rt.alloc();
    assert!(rt; bad_line(alloc, false, b"@1 -9223372036854775808\n")? == 0);
    assert!(rt; bad_line(alloc, false, b"@1 9223372036854775808\n")? == 1);
    assert!(rt;
        bad_line(
            alloc,
            true,
            b"@1 -170141183460469231731687303715884105728\n"
        )? == 0
    );
    assert!(rt; bad_line(alloc, true, b"@1 170141183460469231731687303715884105728\n")? == 1);
    assert!(rt; bad_line(alloc, false, b"@1 'a'\n")? == 1);
    assert!(rt; bad_line(alloc, true, b"@1 *'['\n")? == 0);
    assert!(rt; bad_line(alloc, true, b"@1 '''\n")? == 0);
    assert!(rt; bad_line(alloc, false, b"@1 -0\n")? == 1);
    assert!(rt; bad_line(alloc, false, b"@1 C\n")? == 1);
    assert!(rt; bad_line(alloc, false, b"@1 7[@1]\n")? == 1);
    Ok(())
}
