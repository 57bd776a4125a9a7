//! What is read of a rule before its pattern is expanded.
ghost use Rattle.std.specs.Prelude.{◌≡◌, IfOk, map};
ghost use Rattle.dactl_meaning.specs.Contractum.{term_of_part};
ghost use Rattle.dactl_meaning.specs.Expansion as spec;
ghost use Rattle.dactl_meaning.specs.RuleFaults.{lefts_of, suspendable as suspendable_names};
ghost use Rattle.dactl_contractum.specs.Lefts.{words};
ghost use Rattle.dactl_patterns.specs.Table.{AreNamed};
ghost use Rattle.dactl_contractum.specs.Terms.{seen};
ghost use Rattle.dactl_rules.specs.Reading.{IsRead};

use crate::roots::root_names;
use dactl_base::refusal::Memory;
use dactl_contractum::lefts::{lefts, redirect_root};
use dactl_contractum::{Contractum, USUAL, Variables, draw};
use dactl_meaning::tree::{Name, Part, PatternTree, RuleTree, TermTree};
use dactl_patterns::{NamedPatterns, head_symbol};
use sqlite_items::Items;
use std::alloc::Global;

/// The symbol at the head of a rule, its variables, the names of its root, those among them that
/// may have `#`, its left sides and its contractum.
#[derive(Drop)]
pub struct RuleParts<'a> {
    pub head: Option<u32>,
    pub variables: Variables,
    pub roots: Variables,
    pub suspendable: Variables,
    pub lefts: Vec<&'a Name>,
    pub contractum: Contractum<'a>,
}

fn term_of(part: &Part) -> &TermTree
    ensures { result.now ≡ term_of_part part.now }
{
    match part {
        Part::Term { term } => term,
        Part::Redirect { term, .. } => term,
    }
}

fn terms<'a>(alloc: Global, parts: &'a [Part]) -> Result<Vec<&'a TermTree>, Memory>
    ensures { IfOk result (λ terms. seen terms.items ≡ map term_of_part parts.now) }
{
    let mut terms = Vec::with_capacity(alloc, parts.len())?;
    for part in parts {
        terms.push(term_of(part))?;
    }
    Ok(terms)
}

fn roots_of(alloc: Global, tree: &PatternTree) -> Result<Variables, Memory>
    ensures { IfOk result (λ roots. roots ≡ spec.root_names tree.now) }
{
    let mut names = Items::new(alloc);
    root_names(alloc, &mut names, tree)?;
    Variables::new(alloc, names)
}

/// The names of the root that may have `#`: all, where the rule does not redirect its root.
fn suspendable(
    alloc: Global,
    tree: &RuleTree,
    roots: &Variables,
    lefts: &[&Name],
) -> Result<Variables, Memory>
    requires roots { roots.now ≡ spec.root_names tree.now.pattern }
    requires lefts { words lefts.now ≡ lefts_of tree.now.parts }
    ensures { IfOk result (λ names. names ≡ suspendable_names tree.now) }
{
    if tree.redirects || redirect_root(roots, lefts) {
        Variables::new(alloc, Items::new(alloc))
    } else {
        roots_of(alloc, &tree.pattern)
    }
}

/// Reads a rule of the module, whose pattern has these variables. Nothing is checked yet.
///
/// # Errors
///
/// Want of memory.
pub fn read<'a>(
    alloc: Global,
    patterns: &NamedPatterns,
    owner: usize,
    tree: &'a RuleTree,
    variables: Items<Items<u8>>,
) -> Result<RuleParts<'a>, Memory>
    requires patterns { AreNamed patterns.now }
    requires variables { variables ≡ spec.variables_of tree.now.pattern }
    ensures { IfOk result (IsRead patterns.now.text.now owner tree.now) }
{
    let head = head_symbol(patterns, owner, &tree.pattern)?;
    let variables = Variables::new(alloc, variables)?;
    let roots = roots_of(alloc, &tree.pattern)?;
    let lefts = lefts(alloc, tree.parts.as_slice())?;
    let suspendable = suspendable(alloc, tree, &roots, lefts.as_slice())?;
    let terms = terms(alloc, tree.parts.as_slice())?;
    let contractum = draw(alloc, terms.as_slice(), USUAL)?;
    Ok(RuleParts {
        head,
        variables,
        roots,
        suspendable,
        lefts,
        contractum,
    })
}
