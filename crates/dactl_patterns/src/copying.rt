//! Copies of patterns.

ghost use Rattle.std.specs.Prelude.{◌≡◌, IfOk};

use dactl_model::Memory;
use dactl_model::program::Pat;
use sqlite_items::{Boxed, Items};
use std::alloc::Global;

/// A pattern equal to this one.
///
/// # Errors
/// `AllocError` for want of memory.
#[cycle(copying)]
pub fn copied(alloc: Global, pattern: &Pat) -> Result<Pat, Memory>
    ensures { IfOk result (λ p. p ≡ pattern.now) }
{
    match pattern {
        Pat::Any => Ok(Pat::Any),
        Pat::Int => Ok(Pat::Int),
        Pat::Char => Ok(Pat::Char),
        Pat::Literal(value) => Ok(Pat::Literal(*value)),
        Pat::Letter(value) => Ok(Pat::Letter(*value)),
        Pat::Sym { symbol, args } => {
            let args = all_copied(alloc, args.as_slice())?;
            Ok(Pat::Sym {
                symbol: *symbol,
                args,
            })
        }
        Pat::Bind { var, inner } => {
            let inner = boxed(alloc, inner.get())?;
            Ok(Pat::Bind { var: *var, inner })
        }
        Pat::Union { left, right } => {
            let left = boxed(alloc, left.get())?;
            let right = boxed(alloc, right.get())?;
            Ok(Pat::Union { left, right })
        }
        Pat::Less { left, right } => {
            let left = boxed(alloc, left.get())?;
            let right = boxed(alloc, right.get())?;
            Ok(Pat::Less { left, right })
        }
    }
}

#[cycle(copying)]
fn boxed(alloc: Global, pattern: &Pat) -> Result<Boxed<Pat>, Memory>
    ensures { IfOk result (λ p. p ≡ pattern.now) }
{
    Ok(Boxed::new(alloc, copied(alloc, pattern)?)?)
}

#[cycle(copying)]
fn all_copied(alloc: Global, patterns: &[Pat]) -> Result<Items<Pat>, Memory>
    ensures { IfOk result (λ ps. ps ≡ patterns.now) }
{
    let mut copies = Items::new(alloc);
    for pattern in patterns {
        copies.push(copied(alloc, pattern)?)?;
    }
    Ok(copies)
}
