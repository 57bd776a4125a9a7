//! A rule: its first fault, or what it means.
ghost use Rattle.std.specs.Prelude.{◌≡◌, ◌≤◌, ◌++◌, ◌⊎◌, ℕ, List, Contains, IfOk, length, map};
ghost use Rattle.std.specs.List.{flat_map};
ghost use Rattle.dactl_model.specs.declared.program.Class.TheVariants as classes;
ghost use Rattle.dactl_meaning.specs.Contractum.{term_of_part};
ghost use Rattle.dactl_meaning.specs.Faults.{TellsFaults};
ghost use Rattle.dactl_meaning.specs.Meaning.{rule_of};
ghost use Rattle.dactl_meaning.specs.RuleFaults.{head_is, is_class, rule_faults};
ghost use Rattle.dactl_base.specs.declared.refusal.Refusal.{Refusal};
ghost use Rattle.dactl_symbols.specs.Least.{TellsLeast};
ghost use Rattle.dactl_symbols.specs.Scoping.{class_in};
ghost use Rattle.dactl_patterns.specs.Table.{AreNamed};
ghost use Rattle.dactl_validity.specs.Counting.{AreCountable};
ghost use Rattle.dactl_contractum.specs.Terms.{IsReady, AreDrawn};
ghost use Rattle.dactl_contractum.specs.Drawing.{made_in};
ghost use Rattle.dactl_names.specs.Found.{found};
ghost use Rattle.dactl_contractum.specs.Numbers.{node_number};
ghost use Rattle.dactl_rules.specs.Rules.{early_faults as faults_before, fixed_faults};
ghost use Rattle.dactl_rules.specs.Rules.{symbols_of, meant_of, IsAnswerFor};

use crate::reading::{RuleParts, read};
use dactl_base::refusal::{Kind, Memory, Place, Refusal, TextFault};
use dactl_contractum::faults::{contractum_faults, fault_at, first};
use dactl_contractum::lefts::{are_behind, not_overwritable, redirected_twice, unbound};
use dactl_contractum::{Variables, Viewer, is_rewritable};
use dactl_meaning::tree::{Name, RuleTree};
use dactl_model::program::{Body, Pat, Rule};
use dactl_patterns::{Examined, NamedPatterns, examine};
use dactl_symbols::least::lesser;
use dactl_symbols::sight::Scopes;
use sqlite_items::Items;
use std::alloc::Global;

fn has_rewritable_head(scopes: &Scopes, owner: usize, head: Option<u32>) -> bool
    ensures { result
        ≡ head_is (λ f. is_class classes.Rewritable (class_in scopes.now owner f)) head }
{
    match head {
        Some(symbol) => is_rewritable(scopes, owner, symbol),
        None => false,
    }
}

/// A rule as the text has it, and the number of its group.
#[derive(Clone, Copy)]
struct Grouped<'a> {
    group: u32,
    tree: &'a RuleTree,
}

/// What is known of a rule before its pattern's expansion is needed: the faults that are told
/// without it, apart from those of the pattern; the first fault of the pattern; and the numbers of
/// the symbols of the new nodes.
#[derive(Drop)]
struct Known {
    faults: Vec<Refusal>,
    of_pattern: Option<Refusal>,
    symbols: Vec<u32>,
}

/// Looks for the faults of a rule that its pattern's expansion is not needed for, where that is the
/// first fault of its pattern.
fn early_faults(
    alloc: Global,
    viewer: Viewer,
    tree: &RuleTree,
    parts: &RuleParts,
    of_pattern: Option<Refusal>,
) -> Result<Known, Memory>
    requires { (w : List ℕ) → found parts.now.contractum.given w
        ≡ node_number (made_in parts.now.contractum.drawing) w }
    ensures faults { IfOk result
        (λ k. k.faults.items
        ≡ faults_before viewer.entry.scopes.now viewer.entry.owner tree.now parts.now) }
    ensures of_pattern { IfOk result (λ k. k.of_pattern ≡ of_pattern) }
    ensures symbols { IfOk result
        (λ k. k.symbols.items ≡ symbols_of viewer.entry.scopes.now viewer.entry.owner parts.now) }
{
    let mut faults = Vec::new(alloc);
    let headless = !has_rewritable_head(viewer.scopes, viewer.owner, parts.head);
    fault_at(&mut faults, headless, Kind::RootNotRewritable, tree.place)?;
    let symbols = contractum_faults(
        alloc,
        &mut faults,
        viewer,
        &parts.variables,
        &parts.suspendable,
        &parts.contractum,
    )?;
    let lefts = parts.lefts.as_slice();
    unbound(&mut faults, &parts.variables, lefts)?;
    let none = Variables::new(alloc, Items::new(alloc))?;
    let redirected = if tree.redirects { &parts.roots } else { &none };
    redirected_twice(alloc, &mut faults, &parts.variables, redirected, lefts)?;
    Ok(Known {
        faults,
        of_pattern,
        symbols,
    })
}

/// The answer for a rule whose pattern is too wide as a whole, where this is the first of its other
/// faults and those of its pattern. Left sides before the rule's first token, which no text has,
/// are want of memory: what is over-writable is known of an expansion alone.
fn too_wide(least: Option<Refusal>, lefts: &[&Name], place: Place) -> TextFault
    ensures { IsAnswerFor least lefts.now place result }
{
    match least {
        Some(refusal) if are_behind(lefts, place.byte) => TextFault::Refused(refusal),
        _ => TextFault::Memory,
    }
}

/// What a rule without faults means, where the symbols of its new nodes have these numbers.
fn meant(
    alloc: Global,
    grouped: Grouped,
    parts: &RuleParts,
    symbols: &[u32],
    pattern: Pat,
) -> Result<Rule, Memory>
    requires ready { IsReady parts.now.variables parts.now.contractum }
    requires drawn { AreDrawn (map term_of_part grouped.tree.now.parts) parts.now.contractum.drawing
        parts.now.contractum.targets.items }
    requires symbols { length symbols.now ≡ length parts.now.contractum.drawing.made.items }
    ensures { IfOk result
        (λ r. r
        ≡ meant_of symbols.now grouped.entry.group grouped.entry.tree.now parts.now pattern) }
{
    let tree = grouped.tree;
    let contractum = &parts.contractum;
    let variables = &parts.variables;
    let fresh = contractum.fresh(alloc, variables, symbols)?;
    let moves = contractum.moves(alloc, variables, tree.redirects, tree.parts.as_slice())?;
    let wakes = contractum.wakes(alloc, variables)?;
    let suspend = contractum.suspend(&parts.suspendable);
    let body = Body::Written {
        fresh,
        moves,
        wakes,
        suspend,
    };
    let symbol = match parts.head {
        Some(symbol) => symbol,
        None => 0,
    };
    Ok(Rule {
        symbol,
        group: grouped.group,
        variables: variables.count() as u8,
        pattern,
        body,
    })
}

/// The first fault of a rule by those that are known and those of left sides whose nodes are not
/// over-writable; or what it means.
fn with_pattern(
    alloc: Global,
    viewer: Viewer,
    grouped: Grouped,
    parts: &RuleParts,
    known: Known,
    pattern: Pat,
) -> Result<Rule, TextFault>
    requires ready { IsReady parts.now.variables parts.now.contractum }
    requires drawn { AreDrawn (map term_of_part grouped.tree.now.parts) parts.now.contractum.drawing
        parts.now.contractum.targets.items }
    requires symbols { length known.symbols.items ≡ length parts.now.contractum.drawing.made.items }
    ensures faults { (told : List Refusal) → TellsLeast (Contains told) known.of_pattern
        → TellsFaults
        (λ r. Contains
        (known.faults.items
        ++ fixed_faults viewer.entry.scopes.now viewer.entry.owner parts.now pattern) r
        ⊎ Contains told r) result }
    ensures meaning { IfOk result
        (λ r. r
        ≡ meant_of known.symbols.items grouped.entry.group grouped.entry.tree.now parts.now
        pattern) }
{
    let Known {
        mut faults,
        of_pattern,
        symbols,
    } = known;
    not_overwritable(
        &mut faults,
        viewer,
        &parts.variables,
        &parts.roots,
        &pattern,
        parts.lefts.as_slice(),
    )?;
    match lesser(first(faults.as_slice()), of_pattern) {
        Some(refusal) => Err(TextFault::Refused(refusal)),
        None => Ok(meant(alloc, grouped, parts, symbols.as_slice(), pattern)?),
    }
}

/// A rule of the module, in the group of that number.
///
/// # Errors
///
/// `Refused` with the rule's first fault: by place, and at one place by the order of the kinds.
/// `Memory` is want of memory, which may hide a fault.
pub fn rule(
    alloc: Global,
    patterns: &NamedPatterns,
    owner: usize,
    group: u32,
    tree: &RuleTree,
) -> Result<Rule, TextFault>
    requires { AreNamed patterns.now }
    ensures faults { TellsFaults (Contains (rule_faults patterns.now.text.now owner tree.now))
        result }
    ensures meaning { IfOk result (λ r. r ≡ rule_of patterns.now.text.now owner group tree.now) }
    ensures counts { IfOk result (λ r. AreCountable (map term_of_part tree.now.parts)) }
{
    let Examined {
        variables,
        fault,
        pat,
    } = examine(alloc, patterns, owner, false, tree.place, &tree.pattern)?;
    let parts = read(alloc, patterns, owner, tree, variables)?;
    let viewer = Viewer {
        scopes: patterns.scopes,
        owner,
    };
    let known = early_faults(alloc, viewer, tree, &parts, fault)?;
    match pat {
        Some(pattern) => {
            let grouped = Grouped { group, tree };
            with_pattern(alloc, viewer, grouped, &parts, known, pattern)
        }
        None => {
            let least = lesser(first(known.faults.as_slice()), known.of_pattern);
            Err(too_wide(least, parts.lefts.as_slice(), tree.place))
        }
    }
}
