//! The store's graph, read one node at a time.

ghost use Rattle.std.specs.Prelude.{◌≡◌};

use crate::store::Store;
use dactl_model::graph::{Arc, Label, Mark, NodeId};
use dactl_model::view::View;

impl View for Store {
    ghost graph = { λ s. s.graph };

    fn count(&self) -> u32 {
        self.nodes.count()
    }

    fn root(&self) -> NodeId {
        self.root
    }

    fn label(&self, node: NodeId) -> Label {
        self.nodes.get(node.number).label
    }

    fn arity(&self, node: NodeId) -> u32 {
        self.nodes.get(node.number).span.count as u32
    }

    fn arc(&self, node: NodeId, place: u32) -> Arc {
        let record = self
            .arcs
            .arc(self.nodes.get(node.number).span.first + place);
        Arc {
            target: NodeId {
                number: record.target,
            },
            waits: record.waits,
        }
    }

    fn mark(&self, node: NodeId) -> Mark {
        self.nodes.get(node.number).mark
    }
}
