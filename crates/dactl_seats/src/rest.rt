//! What is left of a run, against what should be.

ghost use Rattle.std.specs.Prelude.{◌≡◌};
ghost use Rattle.dactl_model.specs.Graphs.{IsWellFormed};
ghost use Rattle.dactl_print.specs.Lines.{HasSymbolsOf};

use dactl_base::memory::MemorySink;
use dactl_model::graph::{Arc, End, Entry, Graph, Node, NodeId};
use dactl_model::reading::Targets;
use dactl_model::validity::is_valid;
use dactl_model::view::View;
use dactl_plain::replay;
use dactl_print::printer::{Numbering, flush, show};
use dactl_state::Finished;
use dactl_store::Store;
use std::alloc::Global;

/// How a run ended, if it has ended, its journal, and its last graph as it is printed.
#[derive(Clone, Copy)]
pub(crate) struct Rest<'a> {
    pub end: Option<End>,
    pub journal: &'a [Entry],
    pub graph: &'a [u8],
}

// The graph as it is printed.
fn printed(alloc: Global, finished: &Finished) -> Option<MemorySink>
    requires formed { IsWellFormed finished.now.store.graph }
    requires symbols { HasSymbolsOf finished.now.program finished.now.store.graph }
{
    let mut numbering = Numbering::with_room(alloc, finished.store.next_number()).ok()?;
    let mut sink = MemorySink::new(alloc, 4_096, 4_096, Vec::new(alloc)).ok()?;
    show(
        &finished.store,
        &finished.program,
        &mut numbering,
        &mut sink,
    )
    .ok()?;
    flush(&mut numbering, &mut sink).ok()?;
    Some(sink)
}

/// Whether the run has left this.
pub(crate) fn is_left(alloc: Global, finished: &Finished, rest: &Rest) -> Option<bool>
    requires formed { IsWellFormed finished.now.store.graph }
    requires symbols { HasSymbolsOf finished.now.program finished.now.store.graph }
{
    let sink = printed(alloc, finished)?;
    Some(
        finished.end == rest.end
            && finished.journal.as_slice() == rest.journal
            && sink.held() == rest.graph,
    )
}

// Whether the arcs lead to the targets.
fn lead_to(arcs: &[Arc], targets: &Targets) -> bool {
    arcs.len() == usize::from(targets.count)
        && arcs
            .iter()
            .zip(targets.nodes.iter())
            .all(|(arc, target)| arc.target == *target)
}

// Whether the store has this at the node of this number.
fn has_node(store: &Store, number: u32, node: &Node) -> bool {
    if number >= store.next_number() {
        return false;
    }
    let reading = store.reading(NodeId { number });
    reading.label == node.label
        && store.mark(NodeId { number }) == node.mark
        && lead_to(node.arcs.as_slice(), &reading.targets)
}

// Whether the store has this graph.
fn has_graph(store: &Store, graph: &Graph) -> bool {
    if store.next_number() as usize != graph.nodes.len() {
        return false;
    }
    for number in 0..store.next_number() {
        if !has_node(store, number, &graph.nodes.as_slice()[number as usize]) {
            return false;
        }
    }
    true
}

/// Whether the journal is, step by step, a run of the program to the last graph.
pub(crate) fn is_run(alloc: Global, finished: &Finished) -> bool {
    if !is_valid(&finished.program) {
        return false;
    }
    match replay(alloc, &finished.program, &finished.journal) {
        Ok(Some(graph)) => has_graph(&finished.store, &graph),
        _ => false,
    }
}
