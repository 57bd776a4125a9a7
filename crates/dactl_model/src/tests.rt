ghost use Rattle.std.specs.Prelude.{IsTrue};
ghost use Rattle.dactl_model.specs.Graphs.{IsSmall};

use crate::Memory;
use crate::arithmetic::{arithmetic_rule, has_result, result_label};
use crate::footprint::{Footprint, Woken};
use crate::graph::{Arc, Graph, Label, Mark, Node, NodeId};
use crate::program::{
    Body, Class, FreshNode, Left, Mention, Move, Op, Pat, Program, Rule, Start, Symbol,
};
use crate::reading::{Reading, Targets};
use crate::view::View;
use sqlite_items::{Boxed, Items};
use std::alloc::Global;
use std::test::Fail;

fn id(number: u32) -> NodeId {
    NodeId { number }
}

/// `@1 *Pair[@2 ^@1]`, `@2 7`, with the second node as the root.
fn pair(alloc: Global) -> Result<Graph, Memory> {
    let arcs = [
        Arc {
            target: id(1),
            waits: false,
        },
        Arc {
            target: id(0),
            waits: true,
        },
    ];
    let mut nodes = Items::new(alloc);
    nodes.push(Node {
        label: Label::Symbol(9),
        arcs: Items::from_slice(alloc, &arcs)?,
        mark: Mark::Active,
    })?;
    nodes.push(Node {
        label: Label::Integer(7),
        arcs: Items::new(alloc),
        mark: Mark::Idle,
    })?;
    Ok(Graph { nodes, root: id(1) })
}

fn is_small(graph: &Graph) -> bool
    ensures { IsTrue result → IsSmall graph.now }
{
    let nodes = graph.nodes.as_slice();
    nodes.len() < 0x1_0000_0000 && nodes.iter().all(|node| node.arcs.len() <= 16)
}

/// The node's label, mark and arity, as a view gives them.
fn seen(graph: &Graph, node: NodeId) -> Option<(Label, Mark, u32)> {
    if !is_small(graph) || node.number >= graph.nodes.len() as u32 {
        return None;
    }
    Some((graph.label(node), graph.mark(node), graph.arity(node)))
}

/// An arc of the node, as a view gives it.
fn seen_arc(graph: &Graph, node: NodeId, place: u32) -> Option<Arc> {
    if !is_small(graph) || node.number >= graph.nodes.len() as u32 {
        return None;
    }
    if place >= graph.arity(node) {
        return None;
    }
    Some(graph.arc(node, place))
}

#[test]
fn a_graph_is_seen_node_by_node(rt: HostRuntime) -> Result<(), Fail> {
    let graph = pair(rt.alloc())?;
    assert!(rt; is_small(&graph));
    assert_eq!(rt; graph.count(), 2);
    assert_eq!(rt; View::root(&graph), id(1));
    assert_eq!(rt;
        seen(&graph, id(0)),
        Some((Label::Symbol(9), Mark::Active, 2))
    );
    assert_eq!(rt;
        seen(&graph, id(1)),
        Some((Label::Integer(7), Mark::Idle, 0))
    );
    let second = seen_arc(&graph, id(0), 1).ok_or("no arc")?;
    assert_eq!(rt; second.target, id(0));
    assert!(rt; second.waits);
    Ok(())
}

fn reading(number: u32, version: u32) -> Reading {
    Reading {
        node: id(number),
        label: Label::Symbol(9),
        targets: Targets {
            count: 0,
            nodes: [id(0); 16],
        },
        version,
    }
}

#[test]
fn a_footprint_keeps_what_is_pushed_until_it_is_cleared(rt: HostRuntime) -> Result<(), Fail> {
    let mut footprint = Footprint::with_room(rt.alloc(), 2)?;
    footprint.push_reading(reading(4, 0));
    footprint.push_reading(reading(1, 3));
    footprint.push_binding(id(1));
    let last = footprint.readings().last().ok_or("no reading")?;
    assert_eq!(rt; last.node, id(1));
    assert_eq!(rt; last.version, 3);
    assert_eq!(rt; footprint.bindings(), [id(1)].as_slice());
    footprint.clear();
    assert!(rt; footprint.readings().is_empty());
    assert!(rt; footprint.bindings().is_empty());
    Ok(())
}

#[test]
fn woken_nodes_are_sorted(rt: HostRuntime) -> Result<(), Fail> {
    let mut woken = Woken::with_room(rt.alloc(), 3)?;
    woken.push(id(2));
    woken.push(id(0));
    woken.push(id(1));
    woken.sort();
    assert_eq!(rt; woken.list(), [id(0), id(1), id(2)].as_slice());
    woken.clear();
    assert!(rt; woken.list().is_empty());
    Ok(())
}

fn sum_of(x: i128, y: i128) -> Option<Label> {
    if has_result(true, Op::Add, x, y) {
        return Some(result_label(Op::Add, x, y));
    }
    None
}

/// `F[x:(ANY - 3)]`, where `F` has the number 0.
fn pattern(alloc: Global) -> Result<Pat, Memory> {
    let inner = Boxed::new(
        alloc,
        Pat::Less {
            left: Boxed::new(alloc, Pat::Any)?,
            right: Boxed::new(alloc, Pat::Literal(3))?,
        },
    )?;
    let mut args = Items::new(alloc);
    args.push(Pat::Bind { var: 0, inner })?;
    Ok(Pat::Sym { symbol: 0, args })
}

fn leaf(alloc: Global) -> Result<Items<FreshNode>, Memory> {
    let mut fresh = Items::new(alloc);
    fresh.push(FreshNode {
        label: Label::Integer(5),
        arcs: Items::new(alloc),
        mark: Mark::Active,
    })?;
    Ok(fresh)
}

/// `F[x:(ANY - 3)] => *5`, which wakes `x`.
fn rule(alloc: Global) -> Result<Rule, Memory> {
    let to_new = Move {
        from: Left::Root,
        to: Mention::Fresh(0),
    };
    Ok(Rule {
        symbol: 0,
        group: 1,
        variables: 1,
        pattern: pattern(alloc)?,
        body: Body::Written {
            fresh: leaf(alloc)?,
            moves: Items::from_slice(alloc, &[to_new])?,
            wakes: Items::from_slice(alloc, &[0])?,
            suspend: 0,
        },
    })
}

/// One symbol with a sum and the rule above.
fn program(alloc: Global) -> Result<Program, Memory> {
    let mut symbols = Items::new(alloc);
    symbols.push(Symbol {
        name: Items::from_slice(alloc, b"F")?,
        class: Class::Rewritable,
    })?;
    let mut rules = Items::new(alloc);
    rules.push(arithmetic_rule(alloc, 0, Op::Add)?)?;
    rules.push(rule(alloc)?)?;
    Ok(Program {
        symbols,
        rules,
        start: Start {
            fresh: leaf(alloc)?,
            root: 0,
        },
        wide: true,
    })
}

#[test]
fn a_program_is_copied(rt: HostRuntime) -> Result<(), Fail> {
    let copy = program(rt.alloc())?.copy(rt.alloc())?;
    assert_eq!(rt; copy.symbols.len(), 1);
    assert_eq!(rt; copy.start.fresh.len(), 1);
    let last = copy.rules.as_slice().last().ok_or("no rule")?;
    assert_eq!(rt; last.variables, 1);
    assert!(rt; copy.wide);
    Ok(())
}

#[test]
fn a_label_is_one_of_three(rt: HostRuntime) -> Result<(), Fail> {
    let letter = Label::Character(b'a');
    assert!(rt; letter.is_character() && letter.has_character(b'a'));
    assert!(rt; !letter.is_integer() && !letter.has_integer(97));
    assert!(rt; Label::Integer(3).has_integer(3) && Label::Symbol(3).has_symbol(3));
    assert_eq!(rt; Label::Integer(3).integer(), 3);
    Ok(())
}

#[test]
fn a_result_lies_in_the_range_of_the_program(rt: HostRuntime) -> Result<(), Fail> {
    let most: i128 = 0x7fff_ffff_ffff_ffff;
    assert!(rt; !has_result(false, Op::Add, most, 1));
    assert!(rt; has_result(true, Op::Add, most, 1));
    assert!(rt; !has_result(true, Op::Add, i128::MAX, 1));
    assert!(rt; has_result(false, Op::Lt, most, 1));
    assert_eq!(rt; sum_of(40, 2), Some(Label::Integer(42)));
    Ok(())
}
