//! Runs on whole graphs and on the store, side by side: the graph with its marks, the versions and
//! the woken nodes after each entry.

ghost use Rattle.std.specs.Prelude.{◌≡◌, ◌+◌, ◌<◌, ◌≤◌, ◌^◌, IfOk, IfSome, length};
ghost use Rattle.dactl_model.specs.Graphs.{HasNode, IsSmall, IsWellFormed};
ghost use Rattle.dactl_model.specs.Matching.{IsActive};
ghost use Rattle.dactl_model.specs.Programs.{IsValid};
ghost use Rattle.dactl_store.specs.Redirecting.{IsLatest};

use crate::compiling::compile;
use crate::texts::{APPEND, BOTH, CHAIN, CHOICES, KEPT_FLAG, SHARED_CELL, SUM, TWO_OF_ONE};
use dactl_base::refusal::TextFault;
use dactl_model::footprint::Woken;
use dactl_model::graph::{Graph, Mark, Node, NodeId, Room};
use dactl_model::program::Program;
use dactl_model::view::View;
use dactl_plain::{Choice, choose, start_graph};
use dactl_store::Store;
use std::alloc::{AllocError, Global};

// The store, and the nodes that its last step made active.
#[derive(Drop)]
struct Stored {
    store: Store,
    woken: Woken,
}

// Takes the step at an active node that the plain executor chooses, on the graph and on the store.
fn step(
    alloc: Global,
    program: &Program,
    graph: &Graph,
    stored: &mut Stored,
    node: NodeId,
    entry: u32,
) -> Result<Graph, AllocError>
    requires program { IsValid program.now }
    requires formed { IsWellFormed graph.now }
    requires small { length graph.now.nodes < 2 ^ 31 }
    requires same { stored.old.store.graph ≡ graph.now }
    requires latest { IsLatest entry stored.old.store }
    requires room { stored.old.store.room.nodes ≤ stored.old.woken.room }
    requires node { HasNode graph.now node }
    requires active { IsActive graph.now node }
    ensures formed { IfOk result IsWellFormed }
    ensures same { IfOk result (λ after. stored.new.store.graph ≡ after) }
    ensures latest { IfOk result (λ _. IsLatest (entry + 1) stored.new.store) }
    ensures room { stored.new.store.room.nodes ≤ stored.new.woken.room }
{
    let Stored { store, woken } = stored;
    match choose(alloc, program, graph, node)? {
        Choice::Resting => unreachable!(),
        Choice::Fire { rule, bindings } => {
            let bindings = bindings.as_slice();
            let after = dactl_plain::fire(alloc, program, graph, node, rule, bindings)?;
            match dactl_firing::fire(store, program, node, rule, bindings, entry, woken) {
                Ok(()) => Ok(after),
                Err(_) => Err(AllocError),
            }
        }
        Choice::Note => {
            let after = dactl_plain::note(alloc, graph, node)?;
            let _left = store.left();
            dactl_firing::note(store, node, woken);
            Ok(after)
        }
    }
}

// Whether a node is alike in both.
fn is_node_alike(store: &Store, graph: &Graph, node: NodeId) -> bool
    requires small { IsSmall graph.now }
    requires same { store.now.graph ≡ graph.now }
    requires node { HasNode graph.now node }
{
    if store.label(node) != graph.label(node) || store.mark(node) != graph.mark(node) {
        return false;
    }
    let count = graph.arity(node);
    if store.arity(node) != count {
        return false;
    }
    for place in 0..count {
        if store.arc(node, place) != graph.arc(node, place) {
            return false;
        }
    }
    true
}

// Whether both have the same nodes and the same root.
fn is_alike(store: &Store, graph: &Graph) -> bool
    requires small { IsSmall graph.now }
    requires same { store.now.graph ≡ graph.now }
{
    if store.count() != graph.count() || store.root() != graph.root() {
        return false;
    }
    for number in 0..graph.count() {
        if !is_node_alike(store, graph, NodeId { number }) {
            return false;
        }
    }
    true
}

// Whether the two nodes have the same label and the same targets.
fn is_content_alike(one: &Node, other: &Node) -> bool {
    let arcs = one.arcs.as_slice();
    let others = other.arcs.as_slice();
    if one.label != other.label || arcs.len() != others.len() {
        return false;
    }
    for (place, arc) in arcs.iter().enumerate() {
        if arc.target != others[place].target {
            return false;
        }
    }
    true
}

// The versions after an entry: that of the entry for new nodes and for those whose label or targets
// changed.
fn renew(
    versions: &mut Vec<u32>,
    before: &Graph,
    after: &Graph,
    entry: u32,
) -> Result<(), AllocError> {
    let old = before.nodes.as_slice();
    for (number, node) in after.nodes.as_slice().iter().enumerate() {
        if number >= old.len() {
            versions.push(entry)?;
        } else if !is_content_alike(node, &old[number]) && number < versions.len() {
            versions[number] = entry;
        }
    }
    Ok(())
}

// Whether the store has these versions.
fn has_versions(store: &Store, versions: &[u32]) -> bool {
    if store.next_number() as usize != versions.len() {
        return false;
    }
    for number in 0..store.next_number() {
        if store.version(NodeId { number }) != versions[number as usize] {
            return false;
        }
    }
    true
}

// The nodes that a step at a node made active: those that are active and were not, and the node
// itself where it is active.
fn made_active(
    alloc: Global,
    before: &Graph,
    after: &Graph,
    node: NodeId,
) -> Result<Vec<NodeId>, AllocError>
    requires { length after.now.nodes < 2 ^ 31 }
{
    let old = before.nodes.as_slice();
    let mut made = Vec::new(alloc);
    for (number, now) in after.nodes.as_slice().iter().enumerate() {
        let was_active = number < old.len() && old[number].mark == Mark::Active;
        let is_site = number == node.number as usize;
        if now.mark == Mark::Active && (!was_active || is_site) {
            made.push(NodeId {
                number: number as u32,
            })?;
        }
    }
    Ok(made)
}

// The first active node, if there is one.
fn first_active(graph: &Graph) -> Option<NodeId>
    requires { length graph.now.nodes < 2 ^ 32 }
    ensures active { IfSome result (IsActive graph.now) }
    ensures inside { IfSome result (HasNode graph.now) }
{
    for (number, node) in graph.nodes.as_slice().iter().enumerate() {
        if matches!(node.mark, Mark::Active) {
            return Some(NodeId {
                number: number as u32,
            });
        }
    }
    None
}

// Room for the nodes of these runs.
const NODES: u32 = 64;

// How many entries the run has, if after each of them graph and store are alike.
fn entries_alike(alloc: Global, program: &Program) -> Result<Option<u32>, AllocError>
    requires { IsValid program.now }
{
    let room = Room {
        nodes: NODES,
        arcs: 4 * NODES,
    };
    let Ok(store) = Store::begin(alloc, &program.start, room) else {
        return Ok(None);
    };
    let mut graph = start_graph(alloc, program)?;
    let woken = Woken::with_room(alloc, NODES)?;
    let mut stored = Stored { store, woken };
    let mut versions = vec![in alloc; 0u32; graph.nodes.len()]?;
    for done in 0..40 {
        let entry = done + 1;
        if graph.nodes.len() > NODES as usize {
            return Ok(None);
        }
        let Some(node) = first_active(&graph) else {
            return Ok(Some(done));
        };
        let after = step(alloc, program, &graph, &mut stored, node, entry)?;
        if after.nodes.len() > NODES as usize || !is_alike(&stored.store, &after) {
            return Ok(None);
        }
        renew(&mut versions, &graph, &after, entry)?;
        let made = made_active(alloc, &graph, &after, node)?;
        let (store, woken) = (&stored.store, &stored.woken);
        if !has_versions(store, versions.as_slice()) || made.as_slice() != woken.list() {
            return Ok(None);
        }
        graph = after;
    }
    Ok(None)
}

// The same for the program of a text.
fn text_alike(alloc: Global, text: &str) -> Result<Option<u32>, TextFault> {
    if text.len() > 1_048_576 {
        return Ok(None);
    }
    let program = compile(alloc, text.as_bytes())?;
    Ok(entries_alike(alloc, &program)?)
}

#[test]
fn the_store_goes_with_whole_graphs(rt: HostRuntime) -> Result<(), TextFault> {
    for (text, entries) in [
        (APPEND, 4),
        (BOTH, 4),
        (KEPT_FLAG, 4),
        (CHOICES, 2),
        (TWO_OF_ONE, 1),
        (CHAIN, 1),
        (SHARED_CELL, 2),
        (SUM, 2),
    ] {
        assert!(rt; text_alike(rt.alloc(), text)? == Some(entries), "{text}");
    }
    Ok(())
}
