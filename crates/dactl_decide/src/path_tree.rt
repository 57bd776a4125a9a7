//! The places of the tests of patterns.
ghost use Rattle.std.specs.Prelude.{◌≡◌, ◌≤◌, ◌^◌, ◌||◌, ℕ, false, List, OnOk, IfSome, IfNone};
ghost use Rattle.std.specs.Prelude.{length, map, sum};
ghost use Rattle.dactl_decide.specs.Paths.{is_root, tests, tests_below};
ghost use Rattle.dactl_decide.specs.PathTrees.{has, size};

use crate::Memory;
use dactl_model::program::Pat;
use std::alloc::Global;

/// Argument paths that begin at one node, merged where they begin alike. The tree of a node says
/// whether the node is tested, and has a tree for each of its first arguments.
#[derive(Drop)]
pub struct PathTree {
    tested: bool,
    below: Vec<PathTree>,
}

impl PathTree {
    /// The path of the root alone.
    pub fn root(alloc: Global) -> PathTree
        ensures { (path : List ℕ) → has result path ≡ is_root path }
    {
        PathTree {
            tested: true,
            below: Vec::new(alloc),
        }
    }

    fn untested(alloc: Global) -> PathTree
        ensures { (path : List ℕ) → has result path ≡ false }
    {
        PathTree {
            tested: false,
            below: Vec::new(alloc),
        }
    }
}

/// Makes the list at least so long, by trees without tests.
fn widen(alloc: Global, trees: &mut Vec<PathTree>, count: usize) -> Result<(), Memory>
    ensures long { OnOk result (count ≤ length trees.new.items) }
    ensures same { OnOk result ((path : List ℕ) →
        tests_below (map has trees.new.items) path ≡ tests_below (map has trees.old.items) path) }
{
    for _ in trees.len()..count {
        trees.push(PathTree::untested(alloc))?;
    }
    Ok(())
}

/// Adds the places at which the pattern tests nodes.
///
/// # Errors
///
/// `Memory` where the tree cannot grow. Some of the places may have been added then.
#[cycle(add)]
pub fn add(alloc: Global, pattern: &Pat, tree: &mut PathTree) -> Result<(), Memory>
    ensures { OnOk result ((path : List ℕ) →
        has tree.new path ≡ (has tree.old path || tests pattern.now path)) }
{
    match pattern {
        Pat::Any => {}
        Pat::Int | Pat::Char | Pat::Literal(_) | Pat::Letter(_) => tree.tested = true,
        Pat::Sym { args, .. } => {
            tree.tested = true;
            widen(alloc, &mut tree.below, args.len())?;
            add_each(alloc, args.as_slice(), &mut tree.below)?;
        }
        Pat::Bind { inner, .. } => add(alloc, inner.get(), tree)?,
        Pat::Union { left, right } => {
            add(alloc, left.get(), tree)?;
            add(alloc, right.get(), tree)?;
        }
        Pat::Less { left, right } => {
            add(alloc, left.get(), tree)?;
            add(alloc, right.get(), tree)?;
        }
    }
    Ok(())
}

/// Adds those of the patterns, each to the tree at its place.
#[cycle(add)]
fn add_each(alloc: Global, patterns: &[Pat], trees: &mut Vec<PathTree>) -> Result<(), Memory>
    requires { length patterns.now ≤ length trees.old.items }
    ensures { OnOk result ((path : List ℕ) →
        tests_below (map has trees.new.items) path ≡
        (tests_below (map has trees.old.items) path || tests_below (map tests patterns.now) path)) }
{
    for (place, pattern) in patterns.iter().enumerate() {
        add(alloc, pattern, &mut trees[place])?;
    }
    Ok(())
}

/// How many paths the tree has, or None where there are 2^32 or more.
#[cycle(count)]
pub fn count(tree: &PathTree) -> Option<u32>
    ensures number { IfSome result (λ n. n ≡ size tree.now) }
    ensures many { IfNone result (2 ^ 32 ≤ size tree.now) }
{
    let below = count_each(tree.below.as_slice())?;
    if tree.tested {
        below.checked_add(1)
    } else {
        Some(below)
    }
}

#[cycle(count)]
fn count_each(trees: &[PathTree]) -> Option<u32>
    ensures number { IfSome result (λ n. n ≡ sum (map size trees.now)) }
    ensures many { IfNone result (2 ^ 32 ≤ sum (map size trees.now)) }
{
    let mut total = 0u32;
    for tree in trees {
        total = total.checked_add(count(tree)?)?;
    }
    Some(total)
}
