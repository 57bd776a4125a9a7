mod labels;
mod wide;

ghost use Rattle.std.specs.Prelude.{◌≡◌};

use crate::{Next, Probe};
use dactl_decide::compile;
use dactl_model::Memory;
use dactl_model::arithmetic::arithmetic_rule;
use dactl_model::footprint::{Attempt, Footprint};
use dactl_model::graph::{Event, Label, Mark, NodeId};
use dactl_model::program::{Body, Class, FreshNode, Op, Pat, Program, Rule, Start, Symbol};
use dactl_model::reading::{Reading, Targets};
use dactl_model::validity::is_valid;
use sqlite_items::{Boxed, Items};
use std::alloc::Global;
use std::test::Fail;

const GET: u32 = 7;

const PUT: u32 = 8;

const CELL: u32 = 9;

const BOX: u32 = 10;

const F: u32 = 11;

const NIL: u32 = 12;

fn symbols(alloc: Global) -> Result<Items<Symbol>, Memory> {
    let names: [&[u8]; 13] = [
        b"IAdd", b"ISub", b"IMul", b"IEq", b"ILt", b"True", b"False", b"Get", b"Put", b"Cell",
        b"Box", b"F", b"Nil",
    ];
    let mut all = Items::new(alloc);
    for name in names {
        all.push(Symbol {
            name: Items::from_slice(alloc, name)?,
            class: Class::Rewritable,
        })?;
    }
    Ok(all)
}

fn leaf(alloc: Global, symbol: u32) -> Pat {
    Pat::Sym {
        symbol,
        args: Items::new(alloc),
    }
}

/// The symbol over one argument.
fn over(alloc: Global, symbol: u32, argument: Pat) -> Result<Pat, Memory> {
    let mut args = Items::new(alloc);
    args.push(argument)?;
    Ok(Pat::Sym { symbol, args })
}

/// Variable 0 at the pattern.
fn bound(alloc: Global, pattern: Pat) -> Result<Pat, Memory> {
    let inner = Boxed::new(alloc, pattern)?;
    Ok(Pat::Bind { var: 0, inner })
}

/// A rule of the symbol over one argument. Probes do not look at bodies, so it is empty.
fn rule(
    alloc: Global,
    symbol: u32,
    group: u32,
    variables: u8,
    argument: Pat,
) -> Result<Rule, Memory> {
    let body = Body::Written {
        fresh: Items::new(alloc),
        moves: Items::new(alloc),
        wakes: Items::new(alloc),
        suspend: 0,
    };
    Ok(Rule {
        symbol,
        group,
        variables,
        pattern: over(alloc, symbol, argument)?,
        body,
    })
}

fn arithmetic(alloc: Global) -> Result<Items<Rule>, Memory> {
    let mut all = Items::new(alloc);
    let operations = [Op::Add, Op::Sub, Op::Mul, Op::Eq, Op::Lt];
    for (number, op) in operations.into_iter().enumerate() {
        all.push(arithmetic_rule(alloc, number as u32, op)?)?;
    }
    Ok(all)
}

/// The rules of the arithmetic, and these as numbers 5 and 6.
fn rules(alloc: Global, first: Rule, second: Rule) -> Result<Items<Rule>, Memory> {
    let mut all = arithmetic(alloc)?;
    all.push(first)?;
    all.push(second)?;
    Ok(all)
}

fn start(alloc: Global) -> Result<Start, Memory> {
    let mut fresh = Items::new(alloc);
    fresh.push(FreshNode {
        label: Label::Symbol(NIL),
        arcs: Items::new(alloc),
        mark: Mark::Idle,
    })?;
    Ok(Start { fresh, root: 0 })
}

fn program(alloc: Global, wide: bool, first: Rule, second: Rule) -> Result<Program, Memory> {
    Ok(Program {
        symbols: symbols(alloc)?,
        rules: rules(alloc, first, second)?,
        start: start(alloc)?,
        wide,
    })
}

/// `F[ANY]`, and in a later group `F[Nil]`.
fn any_before_nil(alloc: Global) -> Result<Program, Memory> {
    let any = rule(alloc, F, 5, 0, Pat::Any)?;
    let nil = rule(alloc, F, 6, 0, leaf(alloc, NIL))?;
    program(alloc, false, any, nil)
}

/// `F[x:(ANY - Nil)]`, and in the same group `F[Nil]`.
fn other_than_nil_beside_nil(alloc: Global) -> Result<Program, Memory> {
    let left = Boxed::new(alloc, Pat::Any)?;
    let right = Boxed::new(alloc, leaf(alloc, NIL))?;
    let other = bound(alloc, Pat::Less { left, right })?;
    let other = rule(alloc, F, 5, 1, other)?;
    let nil = rule(alloc, F, 5, 0, leaf(alloc, NIL))?;
    program(alloc, false, other, nil)
}

/// `Get[Box[Cell]]`, and in a later group `Put[c:Cell]`.
fn get_and_put(alloc: Global, wide: bool) -> Result<Program, Memory> {
    let full = over(alloc, BOX, leaf(alloc, CELL))?;
    let get = rule(alloc, GET, 5, 0, full)?;
    let cell = bound(alloc, leaf(alloc, CELL))?;
    let put = rule(alloc, PUT, 6, 1, cell)?;
    program(alloc, wide, get, put)
}

fn id(number: u32) -> NodeId
    ensures { result ≡ record { number = number } }
{
    NodeId { number }
}

/// What is read of a node with the label and the targets of these numbers, the first 16 of them.
fn content(label: Label, targets: &[u32]) -> Reading {
    let count = targets.len().min(16);
    let mut nodes = [id(0); 16];
    for place in 0..count {
        nodes[place] = id(targets[place]);
    }
    Reading {
        node: id(0),
        label,
        targets: Targets {
            count: count as u8,
            nodes,
        },
        version: 0,
    }
}

/// What is read of a node with the symbol.
fn term(symbol: u32, targets: &[u32]) -> Reading {
    content(Label::Symbol(symbol), targets)
}

/// The attempt of a probe of the node, in a graph where node `k` has the content at place `k`:
/// `None` where the program is not valid, or a node is asked for that is not there, or five
/// readings do not suffice.
fn attempt_at(
    alloc: Global,
    program: &Program,
    graph: &[Reading],
    node: u32,
) -> Result<Option<Attempt>, Memory> {
    if !is_valid(program) {
        return Ok(None);
    }
    let deciders = compile(alloc, program)?;
    let room = Footprint::with_room(alloc, deciders.widest())?;
    let mut probe = Probe::start(&deciders, id(node), room);
    for _ in 0..5 {
        match probe.need() {
            Next::Done => return Ok(Some(probe.attempt())),
            Next::Need(node) => match graph.get(node.number as usize) {
                Some(&content) => {
                    probe.step(Reading { node, ..content });
                }
                None => return Ok(None),
            },
        }
    }
    Ok(None)
}

/// Whether the attempt is of this event, after readings of these nodes and with these bindings.
fn is_attempt(attempt: &Attempt, event: Event, read: &[u32], bindings: &[u32]) -> bool {
    let footprint = &attempt.footprint;
    attempt.event == event
        && footprint
            .readings()
            .iter()
            .map(|reading| reading.node.number)
            .eq(read.iter().copied())
        && footprint
            .bindings()
            .iter()
            .map(|node| node.number)
            .eq(bindings.iter().copied())
}

/// At `F[Nil]` a rule that tests no argument fires after one reading; one that may fail at the
/// argument waits for a second.
#[test]
fn only_nodes_that_decide_are_read(rt: HostRuntime) -> Result<(), Fail> {
    let alloc = rt.alloc();
    let graph = [term(F, &[1]), term(NIL, &[])];
    let found = attempt_at(alloc, &any_before_nil(alloc)?, &graph, 0)?.ok_or("no attempt")?;
    let fire = |rule| Event::Fire { node: id(0), rule };
    assert!(rt; is_attempt(&found, fire(5), &[0], &[]));
    let program = other_than_nil_beside_nil(alloc)?;
    let found = attempt_at(alloc, &program, &graph, 0)?.ok_or("no attempt")?;
    assert!(rt; is_attempt(&found, fire(6), &[0, 1], &[]));
    Ok(())
}

/// `Get` at node 2 and `Put` at node 4, over one cell; and `Get` once the cell is gone.
#[test]
fn nodes_are_read_from_the_root_downwards(rt: HostRuntime) -> Result<(), Fail> {
    let alloc = rt.alloc();
    let program = get_and_put(alloc, false)?;
    let mut graph = [
        term(NIL, &[]),
        term(CELL, &[]),
        term(GET, &[3]),
        term(BOX, &[1]),
        term(PUT, &[1]),
    ];
    let get = attempt_at(alloc, &program, &graph, 2)?.ok_or("no attempt")?;
    let fire = Event::Fire {
        node: id(2),
        rule: 5,
    };
    assert!(rt; is_attempt(&get, fire, &[2, 3, 1], &[]));
    let put = attempt_at(alloc, &program, &graph, 4)?.ok_or("no attempt")?;
    let fire = Event::Fire {
        node: id(4),
        rule: 6,
    };
    assert!(rt; is_attempt(&put, fire, &[4, 1], &[1]));
    graph[1] = term(NIL, &[]);
    let get = attempt_at(alloc, &program, &graph, 2)?.ok_or("no attempt")?;
    assert!(rt; is_attempt(&get, Event::Note { node: id(2) }, &[2, 3, 1], &[]));
    Ok(())
}
