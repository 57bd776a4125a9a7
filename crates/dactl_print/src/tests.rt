ghost use Rattle.std.specs.Prelude.{◌≡◌, ℕ, ◌<◌, ◌≤◌, ◌↔◌, All, IsTrue, length};
ghost use Rattle.dactl_model.specs.Graphs.{FitsLabel, FitsMark, IsFineNode, IsWellFormed, flags};
ghost use Rattle.dactl_print.specs.Lines.{HasSymbolsOf, IsLabelAmong};

use crate::laws::{one_order, one_text};
use crate::printer::{Numbering, flush, show, show_end, show_trace};
use dactl_base::memory::{MemorySink, NullSink};
use dactl_base::sink::Sink;
use dactl_base::source::Failed;
use dactl_model::graph::{Arc, End, Entry, Event, Graph, Label, Mark, Node, NodeId};
use dactl_model::program::{Class, Program, Start, Symbol};
use sqlite_items::Items;
use std::alloc::{AllocError, Global};

fn has_targets(arcs: &[Arc], count: usize) -> bool
    ensures { IsTrue result ↔ All (λ a. a.target.number < count) arcs.now }
{
    arcs.iter().all(|arc| (arc.target.number as usize) < count)
}

fn flags_of(arcs: &[Arc]) -> usize
    ensures { result ≡ flags arcs.now }
{
    arcs.iter().filter(|arc| arc.waits).count()
}

fn fits_label(label: Label, arcs: &[Arc]) -> bool
    ensures { IsTrue result → FitsLabel label arcs.now }
{
    match label {
        Label::Symbol(_) => true,
        Label::Integer(_) | Label::Character(_) => arcs.is_empty(),
    }
}

fn fits_mark(mark: Mark, arcs: &[Arc]) -> bool
    ensures { IsTrue result → FitsMark mark arcs.now }
{
    match mark {
        Mark::Idle => true,
        Mark::Active => true,
        Mark::Waiting(count) => 1 <= count && count as usize <= flags_of(arcs),
    }
}

fn is_symbol_among(label: Label, symbols: usize) -> bool
    ensures { IsTrue result → IsLabelAmong symbols label }
{
    match label {
        Label::Symbol(number) => (number as usize) < symbols,
        Label::Integer(_) | Label::Character(_) => true,
    }
}

fn is_fine(node: &Node, count: usize) -> bool
    ensures { IsTrue result → IsFineNode count node.now }
{
    let arcs = node.arcs.as_slice();
    has_targets(arcs, count)
        && arcs.len() <= 16
        && fits_label(node.label, arcs)
        && fits_mark(node.mark, arcs)
}

fn is_well_formed(graph: &Graph) -> bool
    ensures { IsTrue result → IsWellFormed graph.now }
{
    let nodes = graph.nodes.as_slice();
    (graph.root.number as usize) < nodes.len()
        && nodes.iter().all(|node| is_fine(node, nodes.len()))
}

fn has_symbols_of(program: &Program, graph: &Graph) -> bool
    ensures { IsTrue result → HasSymbolsOf program.now graph.now }
{
    let symbols = program.symbols.len();
    graph
        .nodes
        .as_slice()
        .iter()
        .all(|node| is_symbol_among(node.label, symbols))
}

const NAMES: [&str; 7] = ["Cons", "Nil", "Pair", "F", "A", "Append", "G_2"];

fn program(alloc: Global) -> Result<Program, AllocError> {
    let mut symbols = Vec::new(alloc);
    for name in NAMES {
        symbols.push(Symbol {
            name: Items::from_slice(alloc, name.as_bytes())?,
            class: Class::Creatable,
        })?;
    }
    Ok(Program {
        symbols: Items::from_vec(symbols),
        rules: Items::from_vec(Vec::new(alloc)),
        start: Start {
            fresh: Items::from_vec(Vec::new(alloc)),
            root: 0,
        },
        wide: true,
    })
}

fn node(alloc: Global, label: Label, mark: Mark, arcs: &[(u32, bool)]) -> Result<Node, AllocError> {
    let mut items = Vec::new(alloc);
    for (number, waits) in arcs {
        items.push(Arc {
            target: NodeId { number: *number },
            waits: *waits,
        })?;
    }
    Ok(Node {
        label,
        arcs: Items::from_vec(items),
        mark,
    })
}

type Drawn<'a> = (Label, Mark, &'a [(u32, bool)]);

fn graph(alloc: Global, nodes: &[Drawn], root: u32) -> Result<Graph, AllocError> {
    let mut items = Vec::new(alloc);
    for (label, mark, arcs) in nodes {
        items.push(node(alloc, *label, *mark, arcs)?)?;
    }
    Ok(Graph {
        nodes: Items::from_vec(items),
        root: NodeId { number: root },
    })
}

// The output of a whole run.
fn print_run<K: Sink>(
    program: &Program,
    graph: &Graph,
    end: &End,
    journal: &[Entry],
    numbering: &mut Numbering,
    sink: &mut K,
) -> Result<(), Failed>
    requires formed { IsWellFormed graph.now }
    requires symbols { HasSymbolsOf program.now graph.now }
    requires room { length graph.now.nodes ≤ numbering.old.room }
{
    show_end(end, 4, numbering, sink)?;
    show_trace(journal, numbering, sink)?;
    show(graph, program, numbering, sink)?;
    flush(numbering, sink)
}

const JOURNAL: [Entry; 3] = [
    Entry {
        worker: 1,
        event: Event::Fire {
            node: NodeId { number: 0 },
            rule: 5,
        },
    },
    Entry {
        worker: 16,
        event: Event::Note {
            node: NodeId { number: 2 },
        },
    },
    Entry {
        worker: 2,
        event: Event::Fire {
            node: NodeId { number: 10 },
            rule: 4101,
        },
    },
];

const APPENDED: [Drawn<'static>; 7] = [
    (Label::Symbol(5), Mark::Idle, &[(1, false), (4, false)]),
    (Label::Symbol(0), Mark::Idle, &[(2, false), (3, false)]),
    (Label::Symbol(1), Mark::Idle, &[]),
    (Label::Symbol(1), Mark::Idle, &[]),
    (Label::Symbol(1), Mark::Idle, &[]),
    (Label::Symbol(0), Mark::Idle, &[(2, false), (4, false)]),
    (Label::Symbol(5), Mark::Idle, &[(3, false), (4, false)]),
];

#[test]
fn graphs_are_printed(rt: HostRuntime) -> Result<(), AllocError> {
    let alloc = rt.alloc();
    let program = program(alloc)?;
    let rows: [(&[Drawn], u32, &str); 7] = [
        (&APPENDED, 5, "@1 Cons[@2 @3]\n@2 Nil\n@3 Nil\n"),
        (
            &[
                (Label::Symbol(2), Mark::Idle, &[(1, false), (1, false)]),
                (Label::Symbol(1), Mark::Idle, &[]),
            ],
            0,
            "@1 Pair[@2 @2]\n@2 Nil\n",
        ),
        (
            &[
                (Label::Symbol(0), Mark::Idle, &[(1, false), (0, false)]),
                (Label::Symbol(1), Mark::Idle, &[]),
            ],
            0,
            "@1 Cons[@2 @1]\n@2 Nil\n",
        ),
        (
            &[
                (Label::Symbol(3), Mark::Waiting(1), &[(1, true)]),
                (Label::Symbol(4), Mark::Idle, &[]),
            ],
            0,
            "@1 #F[^@2]\n@2 A\n",
        ),
        (
            &[
                (Label::Integer(-42), Mark::Active, &[]),
                (Label::Symbol(6), Mark::Active, &[(0, false)]),
                (
                    Label::Symbol(3),
                    Mark::Waiting(2),
                    &[(1, true), (3, true), (0, false)],
                ),
                (Label::Symbol(4), Mark::Idle, &[]),
            ],
            2,
            "@1 ##F[^@2 ^@4 @3]\n@2 *G_2[@3]\n@3 *-42\n@4 A\n",
        ),
        (
            &[(Label::Symbol(3), Mark::Idle, &[(0, false), (0, false)])],
            0,
            "@1 F[@1 @1]\n",
        ),
        (
            &[
                (Label::Symbol(3), Mark::Idle, &[(1, false), (2, false)]),
                (Label::Character(b'a'), Mark::Active, &[]),
                (Label::Integer(i128::MAX), Mark::Idle, &[]),
            ],
            0,
            "@1 F[@2 @3]\n@2 *'a'\n@3 170141183460469231731687303715884105727\n",
        ),
    ];
    for (nodes, root, text) in rows {
        let graph = graph(alloc, nodes, root)?;
        assert!(rt; is_well_formed(&graph) && has_symbols_of(&program, &graph));
        assert!(rt; graph.nodes.len() <= 10);
        let mut numbering = Numbering::with_room(alloc, 10)?;
        assert!(rt; show(&graph, &program, &mut numbering, &mut NullSink).is_ok());
        assert!(rt; flush(&mut numbering, &mut NullSink).is_ok());
        let mut sink = MemorySink::new(alloc, 100, 1, Vec::new(alloc))?;
        assert!(rt; show(&graph, &program, &mut numbering, &mut sink).is_ok());
        assert!(rt; flush(&mut numbering, &mut sink).is_ok());
        assert_eq!(rt; sink.held(), text.as_bytes());
    }
    one_order();
    one_text();
    Ok(())
}

#[test]
fn runs_are_printed_in_whole_or_in_part(rt: HostRuntime) -> Result<(), AllocError> {
    let alloc = rt.alloc();
    let program = program(alloc)?;
    let graph = graph(alloc, &APPENDED, 5)?;
    assert!(rt; is_well_formed(&graph) && has_symbols_of(&program, &graph));
    assert!(rt; graph.nodes.len() <= 7);
    let text =
        b"budget 4\n1 w1 fire 0 5\n2 w16 note 2\n3 w2 fire 10 4101\n@1 Cons[@2 @3]\n@2 Nil\n@3 Nil\n";
    for (room, most, fails_at, taken) in [
        (100, 100, 9, 83),
        (100, 1, 99, 83),
        (5, 2, 9, 5),
        (100, 10, 5, 40),
        (60, 60, 1, 0),
    ] {
        let mut numbering = Numbering::with_room(alloc, 7)?;
        let mut sink = MemorySink::new(alloc, room, most, vec![in alloc; fails_at]?)?;
        let printed = print_run(
            &program,
            &graph,
            &End::Budget,
            &JOURNAL,
            &mut numbering,
            &mut sink,
        );
        assert_eq!(rt;
            printed.is_ok(),
            taken == text.len(),
            "room {room}, {most} a call"
        );
        assert_eq!(rt; sink.held(), &text[..taken], "room {room}, {most} a call");
    }
    Ok(())
}

#[test]
fn full_pages_are_handed_on(rt: HostRuntime) -> Result<(), AllocError> {
    let alloc = rt.alloc();
    let note = Entry {
        worker: 1,
        event: Event::Note {
            node: NodeId { number: 2 },
        },
    };
    let journal = vec![in alloc; note; 5000]?;
    let mut numbering = Numbering::with_room(alloc, 0)?;
    let mut sink = MemorySink::new(alloc, 100_000, 1000, Vec::new(alloc))?;
    assert!(rt; show_trace(&journal, &mut numbering, &mut sink).is_ok());
    assert_eq!(rt; sink.held().len(), 65_536);
    assert!(rt; flush(&mut numbering, &mut sink).is_ok());
    assert_eq!(rt; sink.held().len(), 73_893);
    assert!(rt; sink.held().ends_with(b"\n4999 w1 note 2\n5000 w1 note 2\n"));
    assert!(rt; show_end(&End::Normal, 0, &mut numbering, &mut NullSink).is_ok());
    Ok(())
}

#[test]
fn a_long_chain_is_printed(rt: HostRuntime) -> Result<(), AllocError> {
    let alloc = rt.alloc();
    let program = program(alloc)?;
    let mut nodes = Vec::new(alloc);
    for number in 1..2_000_000u32 {
        nodes.push(node(
            alloc,
            Label::Symbol(3),
            Mark::Idle,
            &[(number, true), (number, false)],
        )?)?;
    }
    nodes.push(node(alloc, Label::Integer(7), Mark::Active, &[])?)?;
    let graph = Graph {
        nodes: Items::from_vec(nodes),
        root: NodeId { number: 0 },
    };
    assert!(rt; is_well_formed(&graph) && has_symbols_of(&program, &graph));
    assert!(rt; graph.nodes.len() <= 2_000_000);
    let mut numbering = Numbering::with_room(alloc, 2_000_000)?;
    let mut sink = MemorySink::new(alloc, 80_000_000, 80_000_000, Vec::new(alloc))?;
    assert!(rt; show(&graph, &program, &mut numbering, &mut sink).is_ok());
    assert!(rt; flush(&mut numbering, &mut sink).is_ok());
    assert!(rt;
        sink.held()
            .ends_with(b"@1999999 F[^@2000000 @2000000]\n@2000000 *7\n")
    );
    Ok(())
}
