//! Patterns of equations as patterns of rules.

ghost use Rattle.std.specs.Prelude.{◌≡◌, ◌∷◌, [], IfOk, map, replicate};
ghost use Rattle.dactl_meaning.specs.declared.tree.PatternTree.TheVariants as p;
ghost use Rattle.fun_compile.specs.Translated as spec;

use crate::names::word;
use dactl_meaning::tree::{PatternTree, Sign};
use dactl_model::Memory;
use fun_meaning::tree::Expr;
use sqlite_items::{Boxed, Items};
use std::alloc::Global;

/// The pattern as it stands in a rule.
#[cycle(patterns)]
fn pattern_tree(alloc: Global, pattern: &Expr) -> Result<PatternTree, Memory>
    ensures { IfOk result (λ tree. tree ≡ spec.pattern_tree pattern.now) }
{
    match pattern {
        Expr::Variable { name } => Ok(PatternTree::Variable {
            name: word(alloc, name.text.as_slice())?,
        }),
        Expr::Integer { value } => Ok(PatternTree::Integer {
            value: *value as i128,
        }),
        Expr::Made { name, args } => Ok(PatternTree::Sym {
            name: word(alloc, name.text.as_slice())?,
            args: pattern_trees(alloc, args.as_slice())?,
        }),
    }
}

/// The patterns as they stand in a rule.
///
/// # Errors
///
/// `Memory` where memory is wanting.
#[cycle(patterns)]
pub fn pattern_trees(alloc: Global, patterns: &[Expr]) -> Result<Items<PatternTree>, Memory>
    ensures { IfOk result (λ trees. trees ≡ map spec.pattern_tree patterns.now) }
{
    let mut trees = Items::new(alloc);
    for pattern in patterns {
        trees.push(pattern_tree(alloc, pattern)?)?;
    }
    Ok(trees)
}

/// As many patterns `ANY`.
fn any_patterns(alloc: Global, count: usize) -> Result<Items<PatternTree>, Memory>
    ensures { IfOk result (λ trees. trees ≡ replicate count p.Any) }
{
    let mut trees = Items::new(alloc);
    for _ in 0..count {
        trees.push(PatternTree::Any)?;
    }
    Ok(trees)
}

/// The pattern of a symbol over any arguments.
///
/// # Errors
///
/// `Memory` where memory is wanting.
pub fn any_call(alloc: Global, symbol: &[u8], count: usize) -> Result<PatternTree, Memory>
    ensures { IfOk result (λ tree. tree ≡ p.Sym (spec.word symbol.now) (replicate count p.Any)) }
{
    Ok(PatternTree::Sym {
        name: word(alloc, symbol)?,
        args: any_patterns(alloc, count)?,
    })
}

/// The pattern with the name of a variable before it.
///
/// # Errors
///
/// `Memory` where memory is wanting.
pub fn bound(alloc: Global, variable: &[u8], inner: PatternTree) -> Result<PatternTree, Memory>
    ensures { IfOk result (λ tree. tree ≡ p.Binder (spec.word variable.now) inner) }
{
    Ok(PatternTree::Binder {
        name: word(alloc, variable)?,
        inner: Boxed::new(alloc, inner)?,
    })
}

/// `INT + True + False`.
///
/// # Errors
///
/// `Memory` where memory is wanting.
pub fn values(alloc: Global) -> Result<PatternTree, Memory>
    ensures { IfOk result (λ tree. tree ≡ spec.values_tree) }
{
    let mut rest = Items::new(alloc);
    rest.push((Sign::Plus, any_call(alloc, b"True", 0)?))?;
    rest.push((Sign::Plus, any_call(alloc, b"False", 0)?))?;
    Ok(PatternTree::Chain {
        first: Boxed::new(alloc, PatternTree::Int)?,
        rest,
    })
}
