//! The head of a pattern's expansion.

ghost use Rattle.std.specs.Prelude.{◌≡◌, IfOk};
ghost use Rattle.std.specs.Option.{option_copied};
ghost use Rattle.dactl_symbols.specs.Scoping.{IsScopesOf};
ghost use Rattle.dactl_patterns.specs.Table as spec;

use crate::lookups::seen;
use crate::named::NamedPatterns;
use crate::occurrences::has_plus;
use dactl_meaning::tree::{Name, PatternTree};
use dactl_model::Memory;
use dactl_symbols::sight::Seen;
use std::alloc::AllocError;

fn at_name(patterns: &NamedPatterns, owner: usize, name: &Name) -> Result<Option<u32>, Memory>
    requires { IsScopesOf patterns.now.text.now patterns.now.scopes.now }
    ensures { IfOk result (spec.IsHeadSeen patterns.now owner name.now.text) }
{
    match seen(patterns.text, patterns.scopes, owner, name) {
        Some(Seen::Symbol { id, .. }) => Ok(Some(id)),
        Some(Seen::Pattern { module, item }) => match patterns.known.get(&(module, item)) {
            Some(known) => Ok(known.head),
            None => Err(AllocError),
        },
        None => Ok(None),
    }
}

/// The name at the head of a pattern.
fn head_name(tree: &PatternTree) -> Option<&Name>
    ensures { option_copied result ≡ spec.head_name tree.now }
{
    match tree {
        PatternTree::Any
        | PatternTree::Int
        | PatternTree::Char
        | PatternTree::Integer { .. }
        | PatternTree::Letter { .. }
        | PatternTree::Variable { .. } => None,
        PatternTree::Sym { name, .. } => Some(name),
        PatternTree::Binder { inner, .. } => head_name(inner.get()),
        PatternTree::Chain { first, rest } => {
            if has_plus(rest.as_slice()) {
                None
            } else {
                head_name(first.get())
            }
        }
    }
}

/// The symbol at the head of a pattern of the module, also where it is that of a named pattern.
///
/// # Errors
/// `AllocError` where the head is that of a named pattern that isn't in the table; it asks for no
/// memory.
pub fn head_symbol(
    patterns: &NamedPatterns,
    owner: usize,
    tree: &PatternTree,
) -> Result<Option<u32>, Memory>
    requires { IsScopesOf patterns.now.text.now patterns.now.scopes.now }
    ensures { IfOk result (spec.IsHead patterns.now owner tree.now) }
{
    match head_name(tree) {
        Some(name) => at_name(patterns, owner, name),
        None => Ok(None),
    }
}
