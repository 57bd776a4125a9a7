//! The rules of a text, group by group, and the first of their faults.
ghost use Rattle.std.specs.Prelude.{◌≡◌, [], ◌∷◌, IfOk, OnOk, map};
ghost use Rattle.std.specs.List.{flat_map};
ghost use Rattle.dactl_meaning.specs.Meaning.{rule_of};
ghost use Rattle.dactl_meaning.specs.RuleFaults.{rule_faults};
ghost use Rattle.dactl_patterns.specs.Table.{AreNamed};
ghost use Rattle.dactl_contractum.specs.Listing.{placed};
ghost use Rattle.dactl_rules.specs.RuleLists.{Adds, AddsGroups, HasRules, terms_of, placed_groups};
ghost use Rattle.dactl_rules.specs.RuleLists.{groups_in};

use crate::rule::rule;
use dactl_base::refusal::{Memory, Refusal, TextFault};
use dactl_contractum::listing::Placed;
use dactl_meaning::tree::{Group, Item, RuleTree};
use dactl_model::program::Rule;
use dactl_patterns::NamedPatterns;
use dactl_symbols::least::lesser;
use std::alloc::{AllocError, Global};

/// Rules so far, the number of the next group, and the first fault so far. Behind a fault there may
/// be rules missing.
#[derive(Drop)]
pub struct CompiledRules {
    pub rules: Vec<Rule>,
    pub group: u32,
    pub fault: Option<Refusal>,
}

impl CompiledRules {
    fn add_rule(
        &mut self,
        alloc: Global,
        patterns: &NamedPatterns,
        owner: usize,
        tree: &RuleTree,
    ) -> Result<(), Memory>
        requires { AreNamed patterns.now }
        ensures { OnOk result
            (Adds (rule_faults patterns.now.text.now owner tree.now)
            (rule_of patterns.now.text.now owner self.old.group tree.now ∷ [])
            (terms_of tree.now ∷ []) 0 self.old self.new) }
    {
        match rule(alloc, patterns, owner, self.group, tree) {
            Ok(rule) => {
                self.rules.push(rule)?;
            }
            Err(TextFault::Refused(refusal)) => {
                self.fault = lesser(self.fault, Some(refusal));
            }
            Err(TextFault::Memory) => return Err(AllocError),
        }
        Ok(())
    }

    fn add_rules(
        &mut self,
        alloc: Global,
        patterns: &NamedPatterns,
        owner: usize,
        rules: &[RuleTree],
    ) -> Result<(), Memory>
        requires { AreNamed patterns.now }
        ensures { OnOk result
            (Adds (flat_map (rule_faults patterns.now.text.now owner) rules.now)
            (map (rule_of patterns.now.text.now owner self.old.group) rules.now)
            (map terms_of rules.now) 0 self.old self.new) }
    {
        for tree in rules {
            self.add_rule(alloc, patterns, owner, tree)?;
        }
        Ok(())
    }

    fn add_group(
        &mut self,
        alloc: Global,
        patterns: &NamedPatterns,
        owner: usize,
        group: &Group,
    ) -> Result<(), Memory>
        requires { AreNamed patterns.now }
        ensures { OnOk result
            (Adds (flat_map (rule_faults patterns.now.text.now owner) group.now.rules)
            (map (rule_of patterns.now.text.now owner self.old.group) group.now.rules)
            (map terms_of group.now.rules) 1 self.old self.new) }
    {
        self.add_rules(alloc, patterns, owner, group.rules.as_slice())?;
        self.group = self.group.checked_add(1).ok_or(AllocError)?;
        Ok(())
    }

    fn add_groups(
        &mut self,
        alloc: Global,
        patterns: &NamedPatterns,
        owner: usize,
        groups: &[Group],
    ) -> Result<(), Memory>
        requires { AreNamed patterns.now }
        ensures { OnOk result
            (AddsGroups patterns.now.text.now (placed_groups owner groups.now) self.old self.new) }
    {
        for group in groups {
            self.add_group(alloc, patterns, owner, group)?;
        }
        Ok(())
    }

    fn add_item(
        &mut self,
        alloc: Global,
        patterns: &NamedPatterns,
        item: Placed,
    ) -> Result<(), Memory>
        requires { AreNamed patterns.now }
        ensures { OnOk result
            (AddsGroups patterns.now.text.now (groups_in (placed item.entry)) self.old self.new) }
    {
        match item.item {
            Item::Rules { groups } => {
                self.add_groups(alloc, patterns, item.owner, groups.as_slice())
            }
            _ => Ok(()),
        }
    }
}

/// The rules of the items, whose first group has the number 5, behind those of the arithmetic; and
/// their first fault, behind which there may be rules missing.
///
/// # Errors
///
/// Want of memory, and more groups than a `u32` counts.
pub fn rules(
    alloc: Global,
    patterns: &NamedPatterns,
    items: &[Placed],
) -> Result<CompiledRules, Memory>
    requires { AreNamed patterns.now }
    ensures { IfOk result
        (HasRules patterns.now.text.now (flat_map groups_in (map placed items.now))) }
{
    let mut compiled = CompiledRules {
        rules: Vec::new(alloc),
        group: 5,
        fault: None,
    };
    for item in items {
        compiled.add_item(alloc, patterns, *item)?;
    }
    Ok(compiled)
}
