//! Copies of whole graphs.
ghost use Rattle.std.specs.Prelude.{◌≡◌, IfOk};

use dactl_model::Memory;
use dactl_model::graph::{Graph, Node};
use sqlite_items::Items;
use std::alloc::Global;

fn copied_node(alloc: Global, node: &Node) -> Result<Node, Memory>
    ensures { IfOk result (λ copy. copy ≡ node.now) }
{
    Ok(Node {
        label: node.label,
        arcs: Items::from_slice(alloc, node.arcs.as_slice())?,
        mark: node.mark,
    })
}

fn copied_nodes(alloc: Global, nodes: &[Node]) -> Result<Items<Node>, Memory>
    ensures { IfOk result (λ copy. copy ≡ nodes.now) }
{
    let mut copy = Items::new(alloc);
    for node in nodes {
        copy.push(copied_node(alloc, node)?)?;
    }
    Ok(copy)
}

/// A copy of the graph, which shares nothing with it.
///
/// # Errors
///
/// When memory is wanting. Nothing is left of the copy then.
pub fn copied(alloc: Global, graph: &Graph) -> Result<Graph, Memory>
    ensures { IfOk result (λ copy. copy ≡ graph.now) }
{
    Ok(Graph {
        nodes: copied_nodes(alloc, graph.nodes.as_slice())?,
        root: graph.root,
    })
}
