//! Patterns whose variables stand in the order of their numbers.
ghost use Rattle.std.specs.Prelude.{◌≡◌, ◌≤◌, map};
ghost use Rattle.dactl_decide.specs.Orders.{after, after_all, is_orderly};

use dactl_model::program::{Pat, Rule};

/// The number after those of the binders, if these have the numbers from `next` on, in order.
#[cycle(after)]
fn after(pattern: &Pat, next: u32) -> Option<u32>
    ensures { result ≡ after pattern.now next }
{
    match pattern {
        Pat::Any | Pat::Int | Pat::Char | Pat::Literal(_) | Pat::Letter(_) => Some(next),
        Pat::Union { .. } => Some(next),
        Pat::Sym { args, .. } => after_each(args.as_slice(), next),
        Pat::Bind { var, inner } => {
            if u32::from(*var) == next {
                after(inner.get(), next + 1)
            } else {
                None
            }
        }
        Pat::Less { left, .. } => after(left.get(), next),
    }
}

/// The same for the binders of the patterns, one after another.
#[cycle(after)]
fn after_each(patterns: &[Pat], mut next: u32) -> Option<u32>
    ensures { result ≡ after_all (map after patterns.now) next }
{
    for pattern in patterns {
        next = after(pattern, next)?;
    }
    Some(next)
}

/// Whether each variable of the rule has one binder, and these stand in the order of their numbers.
pub fn is_orderly(rule: &Rule) -> bool
    ensures { result ≡ is_orderly rule.now }
{
    match after(&rule.pattern, 0) {
        Some(next) => next == u32::from(rule.variables),
        None => false,
    }
}
