ghost use Rattle.std.specs.Prelude.{◌≡◌, ◌<◌, ◌^◌, IfOk, IfSome, length};
ghost use Rattle.dactl_model.specs.Graphs.{HasNode, IsWellFormed};
ghost use Rattle.dactl_model.specs.Programs.{IsValid};

use crate::{Choice, allowed, choose, fire, matches, note, replay, start_graph};
use dactl_model::Memory;
use dactl_model::arithmetic::arithmetic_rule;
use dactl_model::graph::{Entry, Event, Graph, Label, Mark, NodeId};
use dactl_model::program::{
    Body, Class, FreshArc, FreshNode, Left, Mention, Move, Op, Pat, Program, Rule, Start, Symbol,
};
use dactl_model::validity::is_valid;
use sqlite_items::Items;
use std::alloc::Global;
use std::test::Fail;

/// What a step does at the node, if it is active.
fn stepped(
    alloc: Global,
    program: &Program,
    graph: &Graph,
    node: NodeId,
) -> Result<Option<Graph>, Memory>
    requires program { IsValid program.now }
    requires graph { IsWellFormed graph.now }
    requires node { HasNode graph.now node }
    requires small { length graph.now.nodes < 2 ^ 31 }
    ensures { IfOk result (λ after. IfSome after IsWellFormed) }
{
    match choose(alloc, program, graph, node)? {
        Choice::Resting => Ok(None),
        Choice::Fire { rule, bindings } => {
            let after = fire(alloc, program, graph, node, rule, bindings.as_slice())?;
            Ok(Some(after))
        }
        Choice::Note => {
            let after = note(alloc, graph, node)?;
            Ok(Some(after))
        }
    }
}

/// The same at the node of this number, if there is one.
fn stepped_at(
    alloc: Global,
    program: &Program,
    graph: &Graph,
    number: u32,
) -> Result<Option<Graph>, Memory>
    requires program { IsValid program.now }
    requires graph { IsWellFormed graph.now }
    ensures { IfOk result (λ after. IfSome after IsWellFormed) }
{
    if number as usize >= graph.nodes.len() || graph.nodes.len() > 1000 {
        return Ok(None);
    }
    stepped(alloc, program, graph, NodeId { number })
}

fn begun(alloc: Global, program: &Program) -> Result<Graph, Memory>
    requires { IsValid program.now }
    ensures { IfOk result IsWellFormed }
{
    start_graph(alloc, program)
}

/// The number of the first active node.
fn first_active(graph: &Graph) -> Option<u32> {
    let place = graph
        .nodes
        .as_slice()
        .iter()
        .position(|node| node.mark == Mark::Active)?;
    u32::try_from(place).ok()
}

/// The graph after at most ten steps, each at the first active node, and the number of steps.
fn run(alloc: Global, program: &Program) -> Result<(Graph, u32), Memory>
    requires { IsValid program.now }
{
    let mut graph = begun(alloc, program)?;
    for count in 0..10 {
        let Some(number) = first_active(&graph) else {
            return Ok((graph, count));
        };
        let Some(after) = stepped_at(alloc, program, &graph, number)? else {
            return Ok((graph, count));
        };
        graph = after;
    }
    Ok((graph, 10))
}

fn symbol(alloc: Global, name: &[u8]) -> Result<Symbol, Memory> {
    Ok(Symbol {
        name: Items::from_slice(alloc, name)?,
        class: Class::Rewritable,
    })
}

fn symbols(alloc: Global) -> Result<Items<Symbol>, Memory> {
    let names: [&[u8]; 10] = [
        b"IAdd", b"ISub", b"IMul", b"IEq", b"ILt", b"True", b"False", b"Both", b"A", b"B",
    ];
    let mut all = Items::new(alloc);
    for name in names {
        all.push(symbol(alloc, name)?)?;
    }
    Ok(all)
}

fn node(alloc: Global, symbol: u32, mark: Mark, arcs: &[FreshArc]) -> Result<FreshNode, Memory> {
    Ok(FreshNode {
        label: Label::Symbol(symbol),
        arcs: Items::from_slice(alloc, arcs)?,
        mark,
    })
}

fn leaf(alloc: Global, symbol: u32) -> Pat {
    Pat::Sym {
        symbol,
        args: Items::new(alloc),
    }
}

/// `Both[A A]`.
fn pattern(alloc: Global) -> Result<Pat, Memory> {
    let mut args = Items::new(alloc);
    args.push(leaf(alloc, 8))?;
    args.push(leaf(alloc, 8))?;
    Ok(Pat::Sym { symbol: 7, args })
}

/// `*B` in the place of the root.
fn contractum(alloc: Global) -> Result<Body, Memory> {
    let mut fresh = Items::new(alloc);
    fresh.push(node(alloc, 9, Mark::Active, &[])?)?;
    let to_first = Move {
        from: Left::Root,
        to: Mention::Fresh(0),
    };
    Ok(Body::Written {
        fresh,
        moves: Items::from_slice(alloc, &[to_first])?,
        wakes: Items::new(alloc),
        suspend: 0,
    })
}

/// The rules of the arithmetic, and one of `Both`.
fn rules(alloc: Global, pattern: Pat, body: Body) -> Result<Items<Rule>, Memory> {
    let mut all = Items::new(alloc);
    for (number, op) in [Op::Add, Op::Sub, Op::Mul, Op::Eq, Op::Lt]
        .into_iter()
        .enumerate()
    {
        all.push(arithmetic_rule(alloc, number as u32, op)?)?;
    }
    all.push(Rule {
        symbol: 7,
        group: 5,
        variables: 0,
        pattern,
        body,
    })?;
    Ok(all)
}

/// `##Both` with two flagged arcs, to the nodes of these numbers among active `A`s, which have the
/// numbers from 1 up to the greater of the two.
fn start(alloc: Global, targets: [u32; 2]) -> Result<Start, Memory> {
    let [first, second] = targets;
    let flagged = |node| FreshArc {
        to: Mention::Fresh(node),
        waits: true,
    };
    let mut fresh = Items::new(alloc);
    fresh.push(node(
        alloc,
        7,
        Mark::Waiting(2),
        &[flagged(first), flagged(second)],
    )?)?;
    for _ in 0..first.max(second) {
        fresh.push(node(alloc, 8, Mark::Active, &[])?)?;
    }
    Ok(Start { fresh, root: 0 })
}

/// `Both[A A] => *B` over that start.
fn both(alloc: Global, targets: [u32; 2]) -> Result<Program, Memory> {
    Ok(Program {
        symbols: symbols(alloc)?,
        rules: rules(alloc, pattern(alloc)?, contractum(alloc)?)?,
        start: start(alloc, targets)?,
        wide: false,
    })
}

/// `##Both[^*A ^*A]` takes a notification from each `A`, and `##Both[^*x:A ^x]` takes both from
/// one.
#[test]
fn both_waits_for_each_of_its_arcs(rt: HostRuntime) -> Result<(), Fail> {
    for (targets, entries, root) in [([1, 2], 4, 3), ([1, 1], 3, 2)] {
        let program = both(rt.alloc(), targets)?;
        assert!(rt; is_valid(&program));
        let (graph, steps) = run(rt.alloc(), &program)?;
        assert_eq!(rt; steps, entries);
        assert_eq!(rt; graph.root, NodeId { number: root });
    }
    Ok(())
}

/// The start, after both notifications.
fn notified(alloc: Global, program: &Program) -> Result<Option<Graph>, Memory>
    requires { IsValid program.now }
    ensures { IfOk result (λ after. IfSome after IsWellFormed) }
{
    let graph = begun(alloc, program)?;
    let Some(graph) = stepped_at(alloc, program, &graph, 1)? else {
        return Ok(None);
    };
    stepped_at(alloc, program, &graph, 2)
}

/// What was found at the root, and the graph after it has fired.
#[derive(Drop)]
struct Fired {
    mark: Mark,
    is_allowed: bool,
    bindings: usize,
    after: Graph,
}

/// The root once it is notified, by the last rule.
fn fired_root(alloc: Global, program: &Program) -> Result<Option<Fired>, Memory>
    requires { IsValid program.now }
{
    let Some(graph) = notified(alloc, program)? else {
        return Ok(None);
    };
    if program.rules.len() <= 5 {
        return Ok(None);
    }
    let root = NodeId { number: 0 };
    let Some(node) = graph.nodes.as_slice().first() else {
        return Ok(None);
    };
    let mark = node.mark;
    let is_allowed = allowed(alloc, program, &graph, root, 5)?;
    let Some(bindings) = matches(alloc, program, &graph, root, 5)? else {
        return Ok(None);
    };
    let Some(after) = stepped_at(alloc, program, &graph, 0)? else {
        return Ok(None);
    };
    Ok(Some(Fired {
        mark,
        is_allowed,
        bindings: bindings.len(),
        after,
    }))
}

/// Whether the graph has four nodes, and its root is the last, an active `B`.
fn ends_with_an_active_b(graph: &Graph) -> bool {
    let nodes = graph.nodes.as_slice();
    match nodes.last() {
        Some(last) => {
            nodes.len() == 4
                && graph.root.number == 3
                && last.label == Label::Symbol(9)
                && last.mark == Mark::Active
        }
        None => false,
    }
}

#[test]
fn both_fires_once_it_is_notified(rt: HostRuntime) -> Result<(), Fail> {
    let program = both(rt.alloc(), [1, 2])?;
    assert!(rt; is_valid(&program));
    let fired = fired_root(rt.alloc(), &program)?.ok_or("no step")?;
    assert_eq!(rt; fired.mark, Mark::Active);
    assert!(rt; fired.is_allowed);
    assert_eq!(rt; fired.bindings, 0);
    assert!(rt; ends_with_an_active_b(&fired.after));
    Ok(())
}

/// What is to be done at the first two nodes of the start.
fn first_choices(alloc: Global, program: &Program) -> Result<Option<(Choice, Choice)>, Memory>
    requires { IsValid program.now }
{
    let graph = begun(alloc, program)?;
    if graph.nodes.len() < 2 {
        return Ok(None);
    }
    let first = choose(alloc, program, &graph, NodeId { number: 0 })?;
    let second = choose(alloc, program, &graph, NodeId { number: 1 })?;
    Ok(Some((first, second)))
}

#[test]
fn both_rests_at_first(rt: HostRuntime) -> Result<(), Fail> {
    let program = both(rt.alloc(), [1, 2])?;
    assert!(rt; is_valid(&program));
    let (first, second) = first_choices(rt.alloc(), &program)?.ok_or("small")?;
    assert!(rt; matches!(first, Choice::Resting));
    assert!(rt; matches!(second, Choice::Note));
    Ok(())
}

fn noting(number: u32) -> Entry {
    let node = NodeId { number };
    Entry {
        worker: 1,
        event: Event::Note { node },
    }
}

fn firing(number: u32, rule: u32) -> Entry {
    let node = NodeId { number };
    Entry {
        worker: 2,
        event: Event::Fire { node, rule },
    }
}

/// Whether the journal leads from the start of `##Both[^*A ^*A]` to a graph of so many nodes.
fn leads_to(alloc: Global, journal: &[Entry], nodes: usize) -> Result<bool, Memory> {
    let program = both(alloc, [1, 2])?;
    if !is_valid(&program) {
        return Ok(false);
    }
    match replay(alloc, &program, journal)? {
        Some(graph) => Ok(graph.nodes.len() == nodes),
        None => Ok(false),
    }
}

#[test]
fn journals_are_replayed(rt: HostRuntime) -> Result<(), Fail> {
    let journal = [noting(1), noting(2), firing(0, 5), noting(3)];
    for (entries, nodes) in [(0, 3), (1, 3), (2, 3), (3, 4), (4, 4)] {
        assert!(rt; leads_to(rt.alloc(), &journal[..entries], nodes)?);
    }
    Ok(())
}

/// Whether there is no such journal from the start of `##Both[^*A ^*A]`.
fn leads_nowhere(alloc: Global, journal: &[Entry]) -> Result<bool, Memory> {
    let program = both(alloc, [1, 2])?;
    if !is_valid(&program) {
        return Ok(false);
    }
    Ok(replay(alloc, &program, journal)?.is_none())
}

#[test]
fn a_journal_with_an_entry_out_of_place_is_none(rt: HostRuntime) -> Result<(), Fail> {
    let waiting = [noting(2), firing(0, 5)];
    let again = [noting(1), noting(1)];
    let other_rule = [noting(1), noting(2), firing(0, 0)];
    assert!(rt; leads_nowhere(rt.alloc(), &waiting)?);
    assert!(rt; leads_nowhere(rt.alloc(), &again)?);
    assert!(rt; leads_nowhere(rt.alloc(), &other_rule)?);
    Ok(())
}

#[test]
fn a_journal_of_no_node_or_no_rule_is_none(rt: HostRuntime) -> Result<(), Fail> {
    assert!(rt; leads_nowhere(rt.alloc(), &[noting(9)])?);
    assert!(rt; leads_nowhere(rt.alloc(), &[firing(9, 5)])?);
    assert!(rt; leads_nowhere(rt.alloc(), &[noting(1), noting(2), firing(0, 9)])?);
    Ok(())
}

/// An active node with two arcs, which wait or not, to leaves of these labels.
fn start_over(
    alloc: Global,
    symbol: u32,
    leaves: [Label; 2],
    waits: [bool; 2],
) -> Result<Start, Memory> {
    let [first, second] = waits;
    let arcs = [
        FreshArc {
            to: Mention::Fresh(1),
            waits: first,
        },
        FreshArc {
            to: Mention::Fresh(2),
            waits: second,
        },
    ];
    let mut fresh = Items::new(alloc);
    fresh.push(node(alloc, symbol, Mark::Active, &arcs)?)?;
    for label in leaves {
        fresh.push(FreshNode {
            label,
            arcs: Items::new(alloc),
            mark: Mark::Idle,
        })?;
    }
    Ok(Start { fresh, root: 0 })
}

/// What the first node becomes by a step there, if the program is valid.
fn first_after(alloc: Global, program: &Program) -> Result<Option<Graph>, Memory> {
    if !is_valid(program) {
        return Ok(None);
    }
    let graph = begun(alloc, program)?;
    stepped_at(alloc, program, &graph, 0)
}

/// Whether the root of the graph has the label.
fn root_is(graph: &Graph, label: Label) -> bool {
    let nodes = graph.nodes.as_slice();
    match nodes.get(graph.root.number as usize) {
        Some(root) => root.label == label,
        None => false,
    }
}

/// Whether a program leads to a graph whose root has the label, by one step at its first node.
fn leads_to_label(alloc: Global, program: &Program, label: Label) -> Result<bool, Memory> {
    match first_after(alloc, program)? {
        Some(graph) => Ok(root_is(&graph, label)),
        None => Ok(false),
    }
}

/// `Both['a' CHAR] => *B`, at a `Both` over these leaves.
fn lettered(alloc: Global, leaves: [Label; 2]) -> Result<Program, Memory> {
    let mut args = Items::new(alloc);
    args.push(Pat::Letter(b'a'))?;
    args.push(Pat::Char)?;
    let pattern = Pat::Sym { symbol: 7, args };
    Ok(Program {
        symbols: symbols(alloc)?,
        rules: rules(alloc, pattern, contractum(alloc)?)?,
        start: start_over(alloc, 7, leaves, [false, false])?,
        wide: true,
    })
}

/// Whether the rule of `Both` fires over these leaves.
fn fires_over(alloc: Global, leaves: [Label; 2]) -> Result<bool, Memory> {
    let program = lettered(alloc, leaves)?;
    leads_to_label(alloc, &program, Label::Symbol(9))
}

#[test]
fn characters_are_matched(rt: HostRuntime) -> Result<(), Fail> {
    let [a, b] = [Label::Character(b'a'), Label::Character(b'b')];
    let number = Label::Integer(97);
    assert!(rt; fires_over(rt.alloc(), [a, b])?);
    for other in [[b, a], [number, a], [a, number]] {
        assert!(rt; !fires_over(rt.alloc(), other)?);
    }
    Ok(())
}

/// `IAdd[9223372036854775807 1]`.
fn sum(alloc: Global, wide: bool) -> Result<Program, Memory> {
    let most = Label::Integer(0x7fff_ffff_ffff_ffff);
    Ok(Program {
        symbols: symbols(alloc)?,
        rules: rules(alloc, pattern(alloc)?, contractum(alloc)?)?,
        start: start_over(alloc, 0, [most, Label::Integer(1)], [false, false])?,
        wide,
    })
}

/// Whether that sum is made.
fn adds_past_64_bits(alloc: Global, wide: bool) -> Result<bool, Memory> {
    let program = sum(alloc, wide)?;
    leads_to_label(alloc, &program, Label::Integer(0x8000_0000_0000_0000))
}

#[test]
fn a_sum_past_64_bits_is_made_in_a_wide_program_alone(rt: HostRuntime) -> Result<(), Fail> {
    assert!(rt; !adds_past_64_bits(rt.alloc(), false)?);
    assert!(rt; adds_past_64_bits(rt.alloc(), true)?);
    Ok(())
}

/// `r:Both[ANY ANY] -> #r` with so many `#`, at a `Both` with arcs that wait or not.
fn suspending(alloc: Global, suspend: u8, waits: [bool; 2]) -> Result<Program, Memory> {
    let mut args = Items::new(alloc);
    args.push(Pat::Any)?;
    args.push(Pat::Any)?;
    let body = Body::Written {
        fresh: Items::new(alloc),
        moves: Items::new(alloc),
        wakes: Items::new(alloc),
        suspend,
    };
    let leaf = Label::Symbol(8);
    Ok(Program {
        symbols: symbols(alloc)?,
        rules: rules(alloc, Pat::Sym { symbol: 7, args }, body)?,
        start: start_over(alloc, 7, [leaf, leaf], waits)?,
        wide: false,
    })
}

/// Whether that root has the mark once it has fired.
fn suspends_to(alloc: Global, suspend: u8, waits: [bool; 2], mark: Mark) -> Result<bool, Memory> {
    let program = suspending(alloc, suspend, waits)?;
    let Some(graph) = first_after(alloc, &program)? else {
        return Ok(false);
    };
    match graph.nodes.as_slice().first() {
        Some(root) => Ok(root.mark == mark),
        None => Ok(false),
    }
}

#[test]
fn a_root_waits_again_along_its_arcs(rt: HostRuntime) -> Result<(), Fail> {
    let [one, both] = [[true, false], [true, true]];
    assert!(rt; suspends_to(rt.alloc(), 1, one, Mark::Waiting(1))?);
    assert!(rt; suspends_to(rt.alloc(), 3, both, Mark::Waiting(2))?);
    assert!(rt; suspends_to(rt.alloc(), 1, [false, false], Mark::Active)?);
    Ok(())
}
