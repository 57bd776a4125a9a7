//! The named patterns of a text, each looked through once, after those that it names.

ghost use Rattle.std.specs.Prelude.{◌≡◌, length, vec_len, IfOk, OnOk};
ghost use Rattle.dactl_meaning.specs.Expansion.{named_count};
ghost use Rattle.dactl_meaning.specs.Faults.{TellsFaults};
ghost use Rattle.dactl_meaning.specs.Meaning.{CycleFault};
ghost use Rattle.dactl_symbols.specs.Scoping.{IsScopesOf};
ghost use Rattle.dactl_patterns.specs.Table as spec;

use crate::cycling::first_cycle;
use crate::declarations::{Declared, declarations};
use crate::expanding::{Expander, Small};
use crate::heads::head_symbol;
use crate::levels::{level, levels};
use crate::lookups::named_tree;
use crate::uses::{Pattern, Web};
use dactl_base::refusal::TextFault;
use dactl_meaning::tree::{PatternTree, Text};
use dactl_model::Memory;
use dactl_symbols::sight::Scopes;
use indexmap::IndexMap;
use std::alloc::Global;

/// How many nodes an expanded pattern may have; binders don't count.
pub const MOST_NODES: usize = 64;

/// What is known of a named pattern: the symbol at the head of its expansion, and the expansion, if
/// it isn't too large.
#[derive(Drop)]
pub struct Known {
    pub(crate) head: Option<u32>,
    pub(crate) small: Option<Small>,
}

/// The named patterns of a text: what its modules see, and what is known of each named pattern, by
/// the numbers of its module and of its item there.
#[derive(Drop)]
pub struct NamedPatterns<'a> {
    pub text: &'a Text,
    pub scopes: &'a Scopes,
    pub(crate) known: IndexMap<Pattern, Known>,
}

/// Looks through the named pattern whose tree this is.
fn look_through(
    alloc: Global,
    patterns: &NamedPatterns,
    owner: usize,
    tree: &PatternTree,
) -> Result<Known, Memory>
    requires { IsScopesOf patterns.now.text.now patterns.now.scopes.now }
    ensures { IfOk result (spec.IsKnownOf patterns.now owner tree.now) }
{
    let head = head_symbol(patterns, owner, tree)?;
    let expander = Expander {
        alloc,
        patterns,
        owner,
        variables: None,
    };
    let small = expander.expand(tree, MOST_NODES)?;
    Ok(Known { head, small })
}

fn enter(alloc: Global, patterns: &mut NamedPatterns, pattern: Pattern) -> Result<(), Memory>
    requires { IsScopesOf patterns.old.text.now patterns.old.scopes.now }
    ensures same { spec.IsSameText patterns.old patterns.new }
    ensures right { OnOk result (spec.Deepens patterns.old patterns.new) }
{
    if let Some(tree) = named_tree(patterns.text, pattern) {
        let known = look_through(alloc, patterns, pattern.0, tree)?;
        patterns.known.insert(pattern, known)?;
    }
    Ok(())
}

/// The named patterns, entered in this order.
fn entered<'a>(
    alloc: Global,
    text: &'a Text,
    scopes: &'a Scopes,
    order: &[Declared],
) -> Result<NamedPatterns<'a>, Memory>
    requires { IsScopesOf text.now scopes.now }
    ensures right { IfOk result (spec.IsRightFrom (length order.now)) }
    ensures text { IfOk result (λ n. n.text ≡ text.entry) }
    ensures scopes { IfOk result (λ n. n.scopes ≡ scopes.entry) }
{
    let mut patterns = NamedPatterns {
        text,
        scopes,
        known: IndexMap::new(alloc),
    };
    for declared in order {
        enter(alloc, &mut patterns, declared.pattern)?;
    }
    Ok(patterns)
}

/// The named patterns of a text, each after those that it names. The text is refused for the one
/// whose name stands first among those that reach themselves.
fn ordered(alloc: Global, text: &Text, scopes: &Scopes) -> Result<Vec<Declared>, TextFault>
    requires { IsScopesOf text.now scopes.now }
    ensures faults { TellsFaults (CycleFault text.now) result }
    ensures count { IfOk result (λ order. vec_len order ≡ named_count text.now) }
{
    let web = Web {
        alloc,
        text,
        scopes,
    };
    let mut order = declarations(alloc, text)?;
    let levels = levels(&web, order.as_slice())?;
    if let Some(refusal) = first_cycle(&web, &levels, order.as_slice())? {
        return Err(TextFault::Refused(refusal));
    }
    order.sort_by_key(|declared| level(&levels, declared.pattern))?;
    Ok(order)
}

/// Looks through the named patterns of a text, each after those that it names: the table by which
/// patterns are examined, which is made once for a text.
///
/// # Errors
/// `Refused` with a `PatternCycle` at the name that stands first among those of named patterns that
/// reach themselves; `Memory` for want of memory, or where one named pattern comes before another
/// that it names. The text and its scopes are only read.
pub fn named_patterns<'a>(
    alloc: Global,
    text: &'a Text,
    scopes: &'a Scopes,
) -> Result<NamedPatterns<'a>, TextFault>
    requires { IsScopesOf text.now scopes.now }
    ensures faults { TellsFaults (CycleFault text.now) result }
    ensures named { IfOk result spec.AreNamed }
    ensures text { IfOk result (λ n. n.text ≡ text.entry) }
    ensures scopes { IfOk result (λ n. n.scopes ≡ scopes.entry) }
{
    let order = ordered(alloc, text, scopes)?;
    Ok(entered(alloc, text, scopes, order.as_slice())?)
}

/// Looks for named patterns that reach themselves through named patterns.
///
/// # Errors
/// `Refused` with a `PatternCycle` at the name of the one of them whose name stands first; `Memory`
/// for want of memory.
pub fn cycles(alloc: Global, text: &Text, scopes: &Scopes) -> Result<(), TextFault>
    requires { IsScopesOf text.now scopes.now }
    ensures { TellsFaults (CycleFault text.now) result }
{
    let _ = ordered(alloc, text, scopes)?;
    Ok(())
}
