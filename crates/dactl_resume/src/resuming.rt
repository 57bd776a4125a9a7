//! A program that goes on from a printed graph.
ghost use Rattle.std.specs.Prelude.{◌≡◌, ◌≤◌, map, IfOk, IfErr, length};
ghost use Rattle.dactl_model.specs.Firing.{start_of};
ghost use Rattle.dactl_model.specs.Programs.{IsValid};
ghost use Rattle.dactl_resume.specs.Resumed.{fresh_of, fresh_arc_of, as_start};
ghost use Rattle.dactl_resume.specs.Resumed.{IsResumed, IsNotResumed};

use crate::fault::{GraphFault, NotResumed};
use crate::reading::read_graph;
use dactl_model::Memory;
use dactl_model::graph::{Arc, Graph, Node};
use dactl_model::program::{FreshArc, FreshNode, Mention, Program, Start};
use sqlite_items::Items;
use std::alloc::Global;

fn fresh_arcs(alloc: Global, arcs: &[Arc]) -> Result<Items<FreshArc>, Memory>
    ensures { IfOk result (λ fresh. fresh ≡ map fresh_arc_of arcs.now) }
{
    let mut fresh = Vec::with_capacity(alloc, arcs.len())?;
    for arc in arcs {
        fresh.push(FreshArc {
            to: Mention::Fresh(arc.target.number),
            waits: arc.waits,
        })?;
    }
    Ok(Items::from_vec(fresh))
}

fn fresh_node(alloc: Global, node: &Node) -> Result<FreshNode, Memory>
    ensures { IfOk result (λ fresh. fresh ≡ fresh_of node.now) }
{
    Ok(FreshNode {
        label: node.label,
        arcs: fresh_arcs(alloc, node.arcs.as_slice())?,
        mark: node.mark,
    })
}

/// The contractum whose graph this one is: node `k` of the graph is its item at place `k`.
///
/// # Errors
///
/// `Memory` where there is not the memory for the contractum; the graph is gone then.
pub fn as_start(alloc: Global, graph: Graph) -> Result<Start, Memory>
    ensures start { IfOk result (λ start. start ≡ as_start graph) }
    ensures graph { IfOk result (λ start. start_of start ≡ graph) }
{
    let nodes = graph.nodes.as_slice();
    let mut fresh = Vec::with_capacity(alloc, nodes.len())?;
    for node in nodes {
        fresh.push(fresh_node(alloc, node)?)?;
    }
    Ok(Start {
        fresh: Items::from_vec(fresh),
        root: graph.root.number,
    })
}

/// The program with the graph that is read from the text in place of its start. It is valid, and
/// nothing else of it has changed.
///
/// # Errors
///
/// `Bad` comes where the text is no printed graph of the program; it tells the line as
/// [`read_graph`] does, and hands the program back unchanged. `Memory` comes where memory is
/// wanting; the program is gone then.
pub fn resumed(alloc: Global, program: Program, text: &[u8]) -> Result<Program, NotResumed>
    requires valid { IsValid program }
    requires few { length text.now ≤ 1048576 }
    ensures resumed { IfOk result (IsResumed program text.now) }
    ensures fault { IfErr result (IsNotResumed program text.now) }
{
    match read_graph(alloc, &program, text) {
        Ok(graph) => match as_start(alloc, graph) {
            Ok(start) => Ok(Program {
                symbols: program.symbols,
                rules: program.rules,
                start,
                wide: program.wide,
            }),
            Err(_) => Err(NotResumed::Memory),
        },
        Err(GraphFault::Bad { line }) => Err(NotResumed::Bad { program, line }),
        Err(GraphFault::Memory) => Err(NotResumed::Memory),
    }
}
