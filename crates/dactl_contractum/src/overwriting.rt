//! Which variables of a pattern stand for over-writable nodes.
ghost use Rattle.std.specs.Prelude.{◌≡◌, ℕ, map};
ghost use Rattle.dactl_model.specs.declared.program.Class.TheVariants as classes;
ghost use Rattle.dactl_meaning.specs.RuleFaults.{is_class};
ghost use Rattle.dactl_symbols.specs.Scoping.{class_in};
ghost use Rattle.dactl_contractum.specs.Writing.{is_so, gives, some_give};

use dactl_model::program::{Class, Pat};
use dactl_symbols::sight::Scopes;

/// Whether the symbol is rewritable for the module.
pub fn is_rewritable(scopes: &Scopes, owner: usize, symbol: u32) -> bool
    ensures { result ≡ is_class classes.Rewritable (class_in scopes.now owner symbol) }
{
    match scopes.class_for(owner, symbol) {
        Some(Class::Rewritable) => true,
        _ => false,
    }
}

fn is_overwritable_symbol(scopes: &Scopes, owner: usize, symbol: u32) -> bool
    ensures { result ≡ is_class classes.Overwritable (class_in scopes.now owner symbol) }
{
    match scopes.class_for(owner, symbol) {
        Some(Class::Overwritable) => true,
        _ => false,
    }
}

/// Whether the pattern holds at over-writable nodes alone.
fn holds_at_overwritable(scopes: &Scopes, owner: usize, variable: usize, pattern: &Pat) -> bool
    ensures { result
        ≡ is_so (λ f. is_class classes.Overwritable (class_in scopes.now owner f)) variable
        pattern.now }
{
    match pattern {
        Pat::Any | Pat::Int | Pat::Char | Pat::Literal(_) | Pat::Letter(_) => false,
        Pat::Sym { symbol, .. } => is_overwritable_symbol(scopes, owner, *symbol),
        Pat::Bind { inner, .. } => holds_at_overwritable(scopes, owner, variable, inner.get()),
        Pat::Union { left, right } => {
            holds_at_overwritable(scopes, owner, variable, left.get())
                && holds_at_overwritable(scopes, owner, variable, right.get())
        }
        Pat::Less { left, .. } => holds_at_overwritable(scopes, owner, variable, left.get()),
    }
}

/// Whether the pattern behind the variable holds at over-writable nodes alone.
#[cycle(overwritable)]
pub fn is_overwritable(scopes: &Scopes, owner: usize, variable: usize, pattern: &Pat) -> bool
    ensures { result
        ≡ gives (λ f. is_class classes.Overwritable (class_in scopes.now owner f)) variable
        pattern.now }
{
    match pattern {
        Pat::Any | Pat::Int | Pat::Char | Pat::Literal(_) | Pat::Letter(_) => false,
        Pat::Sym { args, .. } => in_arguments(scopes, owner, variable, args.as_slice()),
        Pat::Bind { var, inner } => {
            let here = *var as usize == variable
                && holds_at_overwritable(scopes, owner, variable, inner.get());
            here || is_overwritable(scopes, owner, variable, inner.get())
        }
        Pat::Union { left, right } | Pat::Less { left, right } => {
            is_overwritable(scopes, owner, variable, left.get())
                || is_overwritable(scopes, owner, variable, right.get())
        }
    }
}

#[cycle(overwritable)]
fn in_arguments(scopes: &Scopes, owner: usize, variable: usize, args: &[Pat]) -> bool
    ensures { result
        ≡ some_give (λ f. is_class classes.Overwritable (class_in scopes.now owner f)) variable
        args.now }
{
    for argument in args {
        if is_overwritable(scopes, owner, variable, argument) {
            return true;
        }
    }
    false
}
