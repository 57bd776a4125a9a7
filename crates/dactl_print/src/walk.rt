//! The visit of the nodes below the root, and the numbers that it gives them.

ghost use Rattle.std.specs.Prelude.{◌≡◌, ℕ, ◌+◌, ◌<◌, ◌≤◌, ◌^◌, ◌++◌, ◌∷◌, List};
ghost use Rattle.std.specs.Prelude.{[], length, vec_len, vec_capacity, slice_get};
ghost use Rattle.std.specs.Prelude.{slice_index, slice_set, IfOk, IfSome};
ghost use Rattle.dactl_model.specs.Graphs.{HasNode, IsSmall, IsWellFormed};
ghost use Rattle.dactl_print.specs.Order.{IsOrder, number_in, targets};
ghost use Rattle.dactl_print.specs.Walks.{Visited, HasNumbers, AreNodesOf, AreBelow};

use dactl_model::Memory;
use dactl_model::graph::NodeId;
use dactl_model::view::View;
use std::alloc::Global;
use std::marker::Model;

// A node that was reached, and how many of its targets have been visited.
#[derive(Clone, Copy)]
struct Frame {
    node: NodeId,
    done: u32,
}

/// The nodes in the order of their visits, and the number of each. A node without a number has 0.
#[derive(Drop)]
pub struct Walk {
    numbers: Vec<u32>,
    order: Vec<NodeId>,
    path: Vec<Frame>,
}

impl Model for Walk {
    ghost Value = { Visited };

    ghost view = { λ w. record {
      room = length w.numbers.items;
      order = w.order.items;
    } };

    ghost invariant = { λ w.
        HasNumbers w.numbers.items w.order.items
        × AreBelow (length w.numbers.items) w.order.items
        × (length w.numbers.items < 2 ^ 32)
        × (length w.numbers.items ≤ vec_capacity w.order)
        × (length w.numbers.items ≤ vec_capacity w.path) };
}

// Adds an item for which there is room.
fn put<T: Drop>(items: &mut Vec<T>, item: T)
    requires { vec_len items.old < vec_capacity items.old }
    ensures items { items.new.items ≡ items.old.items ++ item ∷ [] }
    ensures capacity { vec_capacity items.old ≤ vec_capacity items.new }
{
    let Ok(()) = items.push(item) else {
        unreachable!()
    };
}

// The target of the next arc of the node, if one is left.
fn next_target<V: View>(view: &V, frame: Frame) -> Option<NodeId>
    requires formed { IsWellFormed (V.graph view.now) }
    requires small { IsSmall (V.graph view.now) }
    requires node { HasNode (V.graph view.now) frame.node }
    ensures target { result ≡ slice_get (targets (V.graph view.now) frame.node) frame.done }
    ensures node { IfSome result (HasNode (V.graph view.now)) }
    ensures few { IfSome result (λ _. frame.done < 16) }
{
    if frame.done < view.arity(frame.node) {
        Some(view.arc(frame.node, frame.done).target)
    } else {
        None
    }
}

// Gives the node the next number, and begins with its targets.
fn enter(numbers: &mut [u32], order: &mut Vec<NodeId>, path: &mut Vec<Frame>, node: NodeId)
    requires inside { node.number < length numbers.old }
    requires few { length numbers.old < 2 ^ 32 }
    requires order_room { vec_len order.old < length numbers.old }
    requires order_capacity { length numbers.old ≤ vec_capacity order.old }
    requires path_room { vec_len path.old < length numbers.old }
    requires path_capacity { length numbers.old ≤ vec_capacity path.old }
    ensures numbers { numbers.new ≡ slice_set numbers.old node.number (vec_len order.old + 1) }
    ensures order { order.new.items ≡ order.old.items ++ node ∷ [] }
    ensures path { path.new.items ≡ path.old.items ++ record { node = node; done = 0 } ∷ [] }
    ensures order_capacity { vec_capacity order.old ≤ vec_capacity order.new }
    ensures path_capacity { vec_capacity path.old ≤ vec_capacity path.new }
{
    put(order, node);
    numbers[node.number as usize] = order.len() as u32;
    put(path, Frame { node, done: 0 });
}

// Takes back the numbers of these nodes.
fn forget(numbers: &mut [u32], order: &[NodeId])
    requires numbers { HasNumbers numbers.old order.now }
    requires inside { AreBelow (length numbers.old) order.now }
    ensures { HasNumbers numbers.new [] }
{
    for node in order {
        numbers[node.number as usize] = 0;
    }
}

// Visits the nodes below the root. The path holds the nodes whose targets are being visited, the
// last one on top.
fn visit_all<V: View>(view: &V, numbers: &mut [u32], order: &mut Vec<NodeId>, path: &mut Vec<Frame>)
    requires formed { IsWellFormed (V.graph view.now) }
    requires small { IsSmall (V.graph view.now) }
    requires room { length (V.graph view.now).nodes ≤ length numbers.old }
    requires few { length numbers.old < 2 ^ 32 }
    requires none { HasNumbers numbers.old [] }
    requires no_order { order.old.items ≡ [] }
    requires no_path { path.old.items ≡ [] }
    requires order_capacity { length numbers.old ≤ vec_capacity order.old }
    requires path_capacity { length numbers.old ≤ vec_capacity path.old }
    ensures order { IsOrder (V.graph view.now) order.new.items }
    ensures nodes { AreNodesOf (V.graph view.now) order.new.items }
    ensures numbers { HasNumbers numbers.new order.new.items }
    ensures order_capacity { vec_capacity order.old ≤ vec_capacity order.new }
    ensures path_capacity { vec_capacity path.old ≤ vec_capacity path.new }
{
    enter(numbers, order, path, view.root());
    while let Some(frame) = path.pop() {
        if let Some(target) = next_target(view, frame) {
            put(
                path,
                Frame {
                    node: frame.node,
                    done: frame.done + 1,
                },
            );
            if numbers[target.number as usize] == 0 {
                enter(numbers, order, path, target);
            }
        }
    }
}

impl Walk {
    /// Room for graphs of so many nodes. None is visited yet.
    ///
    /// # Errors
    ///
    /// `Memory` where there is not the memory.
    pub fn with_room(alloc: Global, nodes: u32) -> Result<Walk, Memory>
        ensures { IfOk result (λ walk. walk ≡ record { room = nodes; order = [] }) }
    {
        let room = nodes as usize;
        Ok(Walk {
            numbers: vec![in alloc; 0u32; room]?,
            order: Vec::with_capacity(alloc, room)?,
            path: Vec::with_capacity(alloc, room)?,
        })
    }

    /// Visits the nodes below the root of the graph.
    pub fn visit<V: View>(&mut self, view: &V)
        requires formed { IsWellFormed (V.graph view.now) }
        requires room { length (V.graph view.now).nodes ≤ self.old.room }
        ensures order { IsOrder (V.graph view.now) self.new.order }
        ensures nodes { AreNodesOf (V.graph view.now) self.new.order }
        ensures small { IsSmall (V.graph view.now) }
        ensures room { self.new.room ≡ self.old.room }
    {
        forget(&mut self.numbers, &self.order);
        self.order.clear();
        self.path.clear();
        visit_all(view, &mut self.numbers, &mut self.order, &mut self.path);
    }

    /// The nodes that were visited, in order.
    pub fn order(&self) -> &[NodeId]
        ensures { result.now ≡ self.now.order }
    {
        &self.order
    }

    /// The number of a node, from 1; 0 where it wasn't visited.
    pub fn number(&self, node: NodeId) -> u32
        requires { node.number < self.now.room }
        ensures { result ≡ number_in self.now.order node }
    {
        self.numbers[node.number as usize]
    }
}
