//! One step of a run, over a graph that is handed on.
ghost use Rattle.std.specs.Prelude.{◌<◌, ◌^◌, ◌↔◌, IfOk, IfSome, IfNone, IsTrue, None, length};
ghost use Rattle.dactl_model.specs.declared.graph.Event.TheVariants.{Fire, Note};
ghost use Rattle.dactl_model.specs.Graphs.{HasNode, IsWellFormed};
ghost use Rattle.dactl_model.specs.Matching.{IsQuiet};
ghost use Rattle.dactl_model.specs.Programs.{IsValid};
ghost use Rattle.dactl_model.specs.Steps.{MayHappen};
ghost use Rattle.dactl_plain.specs.Replaying.{IsStepped};

use crate::choosing::{Choice, allowed, choose};
use crate::firing::fire_in_place;
use crate::matching::matches;
use crate::noting::note_in_place;
use dactl_model::Memory;
use dactl_model::graph::{Event, Graph, NodeId};
use dactl_model::program::Program;
use std::alloc::{AllocError, Global};

/// Whether the graph has the node.
fn has_node(graph: &Graph, node: NodeId) -> bool
    ensures { IsTrue result ↔ HasNode graph.now node }
{
    (node.number as usize) < graph.nodes.len()
}

/// Whether the numbers of the nodes have 31 bits.
fn has_few_nodes(graph: &Graph) -> bool
    ensures { IsTrue result ↔ (length graph.now.nodes < 2 ^ 31) }
{
    graph.nodes.len() < 1 << 31
}

/// The match with which the rule may fire at the node, or none where it may not. It may not where
/// the graph has no such node, or the program no such rule.
///
/// # Errors
///
/// When memory is wanting.
pub fn allowed_match(
    alloc: Global,
    program: &Program,
    graph: &Graph,
    node: NodeId,
    rule: u32,
) -> Result<Option<Vec<NodeId>>, Memory>
    requires program { IsValid program.now }
    requires graph { IsWellFormed graph.now }
    ensures found { IfOk result (λ found. IfSome found (λ h.
        MayHappen program.now graph.now h.items (Fire node rule))) }
    ensures none { IfOk result (λ found. IfNone found (
        IsStepped program.now graph.now (Fire node rule) None)) }
{
    if !has_node(graph, node) || rule as usize >= program.rules.len() {
        return Ok(None);
    }
    if !allowed(alloc, program, graph, node, rule)? {
        return Ok(None);
    }
    matches(alloc, program, graph, node, rule)
}

/// The graph after the rule has fired at the node, or none where it may not.
fn after_fire(
    alloc: Global,
    program: &Program,
    graph: Graph,
    node: NodeId,
    rule: u32,
) -> Result<Option<Graph>, Memory>
    requires program { IsValid program.now }
    requires graph { IsWellFormed graph }
    ensures { IfOk result (IsStepped program.now graph (Fire node rule)) }
{
    let Some(bindings) = allowed_match(alloc, program, &graph, node, rule)? else {
        return Ok(None);
    };
    if !has_few_nodes(&graph) {
        return Err(AllocError);
    }
    let after = fire_in_place(alloc, program, graph, node, rule, bindings.as_slice())?;
    Ok(Some(after))
}

/// Whether the node is active and no rule matches there.
fn is_quiet(alloc: Global, program: &Program, graph: &Graph, node: NodeId) -> Result<bool, Memory>
    requires program { IsValid program.now }
    requires graph { IsWellFormed graph.now }
    ensures { IfOk result (λ is. IsTrue is ↔ IsQuiet program.now graph.now node) }
{
    if !has_node(graph, node) {
        return Ok(false);
    }
    match choose(alloc, program, graph, node)? {
        Choice::Note => Ok(true),
        Choice::Resting | Choice::Fire { .. } => Ok(false),
    }
}

/// The graph after the node has notified those that wait for it, or none where it may not.
fn after_note(
    alloc: Global,
    program: &Program,
    graph: Graph,
    node: NodeId,
) -> Result<Option<Graph>, Memory>
    requires program { IsValid program.now }
    requires graph { IsWellFormed graph }
    ensures { IfOk result (IsStepped program.now graph (Note node)) }
{
    if !is_quiet(alloc, program, &graph, node)? {
        return Ok(None);
    }
    let after = note_in_place(alloc, graph, node)?;
    Ok(Some(after))
}

/// The graph after the event, or none where it may not happen. The graph is handed over and changed
/// where it lies, in one pass over its arcs: only the nodes that change are made anew.
///
/// # Errors
///
/// When memory is wanting, or a rule fires in a graph of 2^31 nodes or more.
pub fn step(
    alloc: Global,
    program: &Program,
    graph: Graph,
    event: Event,
) -> Result<Option<Graph>, Memory>
    requires program { IsValid program.now }
    requires graph { IsWellFormed graph }
    ensures { IfOk result (IsStepped program.now graph event) }
{
    match event {
        Event::Fire { node, rule } => after_fire(alloc, program, graph, node, rule),
        Event::Note { node } => after_note(alloc, program, graph, node),
    }
}
