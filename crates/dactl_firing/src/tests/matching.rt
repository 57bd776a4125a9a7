//! Whether a rule of the tests' programs matches at a node.

ghost use Rattle.std.specs.Prelude.{◌≡◌, ◌<◌, IsTrue, All, IsSomeAnd, length, map, slice_get};
ghost use Rattle.dactl_model.specs.Graphs.{HasNode, node_at};
ghost use Rattle.dactl_model.specs.Patterns.{sat, is_bound, all_hold};
ghost use Rattle.dactl_model.specs.Matching as spec;
ghost use Rattle.dactl_store.specs.Held.{IsValid};

use dactl_model::arithmetic;
use dactl_model::graph::NodeId;
use dactl_model::program::{Body, Pat, Program};
use dactl_model::view::View;
use dactl_store::Store;

fn is_bound_to(bound: &[NodeId], variable: u8, node: NodeId) -> bool
    ensures { result ≡ is_bound (slice_get bound.now variable) node }
{
    match bound.get(variable as usize) {
        Some(other) => other.number == node.number,
        None => false,
    }
}

/// Whether the pattern holds at the node. Single integers and characters, unions, differences, and symbols
/// with other than two arguments count as failing, since the rules of the tests have none.
#[cycle(holds)]
fn holds(store: &Store, bound: &[NodeId], pattern: &Pat, node: NodeId) -> bool
    requires { IsValid store.now }
    ensures { IsTrue result → IsTrue (sat store.now.graph bound.now pattern.now node) }
{
    if node.number >= store.next_number() {
        return false;
    }
    match pattern {
        Pat::Any => true,
        Pat::Int => store.label(node).is_integer(),
        Pat::Bind { var, inner } => {
            is_bound_to(bound, *var, node) && holds(store, bound, inner.get(), node)
        }
        Pat::Sym { symbol, args } => {
            store.label(node).has_symbol(*symbol) && both_hold(store, bound, args.as_slice(), node)
        }
        Pat::Char | Pat::Literal(_) | Pat::Letter(_) => false,
        Pat::Union { .. } | Pat::Less { .. } => false,
    }
}

/// Whether there are two patterns and two arcs of the node, and each pattern holds at its arc's target.
#[cycle(holds)]
fn both_hold(store: &Store, bound: &[NodeId], patterns: &[Pat], node: NodeId) -> bool
    requires valid { IsValid store.now }
    requires node { HasNode store.now.graph node }
    ensures { let tests = map (sat store.now.graph bound.now) patterns.now in
        IsTrue result →
        IsSomeAnd (node_at store.now.graph node) (λ n. IsTrue (all_hold tests n.arcs)) }
{
    if patterns.len() != 2 || store.arity(node) != 2 {
        return false;
    }
    let first = store.arc(node, 0).target;
    let second = store.arc(node, 1).target;
    holds(store, bound, &patterns[0], first) && holds(store, bound, &patterns[1], second)
}

/// Whether all nodes are there.
fn are_nodes(store: &Store, bound: &[NodeId]) -> bool
    ensures { IsTrue result → All (HasNode store.now.graph) bound.now }
{
    let count = store.next_number();
    bound.iter().all(|node| node.number < count)
}

/// The integer at the node of a variable.
fn operand(store: &Store, bound: &[NodeId], variable: usize) -> i128
    requires valid { IsValid store.now }
    requires bound { All (HasNode store.now.graph) bound.now }
    requires variable { variable < length bound.now }
    ensures { result ≡ spec.operand store.now.graph bound.now variable }
{
    store.label(bound[variable]).integer()
}

/// Whether the body is written, or its operation has a result.
fn has_result(store: &Store, wide: bool, body: &Body, bound: &[NodeId]) -> bool
    requires valid { IsValid store.now }
    requires bound { All (HasNode store.now.graph) bound.now }
    ensures { IsTrue result → spec.HasResult wide body.now store.now.graph bound.now }
{
    let Body::Delta(op) = body else {
        return true;
    };
    if bound.len() != 2 {
        return false;
    }
    let x = operand(store, bound, 0);
    let y = operand(store, bound, 1);
    arithmetic::has_result(wide, *op, x, y)
}

/// Whether the rule of this number matches at the node, with these nodes for its variables.
pub fn is_match(store: &Store, program: &Program, node: NodeId, rule: u32, bound: &[NodeId]) -> bool
    requires { IsValid store.now }
    ensures { IsTrue result → spec.Matches program.now store.now.graph node rule bound.now }
{
    let Some(found) = program.rules.as_slice().get(rule as usize) else {
        return false;
    };
    if bound.len() != found.variables as usize || !are_nodes(store, bound) {
        return false;
    }
    has_result(store, program.wide, &found.body, bound) && holds(store, bound, &found.pattern, node)
}
