//! Whether one reading shows an event at its node, for rules whose pattern is a symbol.

ghost use Rattle.std.specs.Prelude.{◌≡◌, ◌≤◌, ◌⊎◌, [], ◌∷◌, Bool, IsTrue, All};
ghost use Rattle.dactl_model.specs.declared.graph.Event.TheVariants.{Fire, Note};
ghost use Rattle.dactl_model.specs.RuleTold.{IsRuleYes, IsRuleNo, bindings_told, Shows};

use dactl_model::program::{Body, Pat, Program, Rule};
use dactl_model::reading::Reading;

/// Whether the pattern is of another symbol.
fn is_no(rule: &Rule, reading: &Reading) -> bool
    ensures { (wide : Bool) → IsTrue result →
        IsRuleNo wide (reading.now ∷ []) reading.now.node rule.now }
{
    match &rule.pattern {
        Pat::Sym { symbol, .. } => !reading.label.has_symbol(*symbol),
        _ => false,
    }
}

/// Whether the pattern is the node's symbol, and neither of them has arguments.
fn is_yes(rule: &Rule, reading: &Reading) -> bool
    ensures yes { (wide : Bool) → IsTrue result →
        IsRuleYes wide (reading.now ∷ []) reading.now.node rule.now }
    ensures none { IsTrue result → bindings_told (reading.now ∷ []) reading.now.node rule.now ≡ [] }
{
    let Pat::Sym { symbol, args } = &rule.pattern else {
        return false;
    };
    reading.label.has_symbol(*symbol)
        && args.is_empty()
        && reading.targets.count == 0
        && rule.variables == 0
        && matches!(rule.body, Body::Written { .. })
}

/// Whether the rule is of no earlier group, or its pattern is of another symbol.
fn is_past(rule: &Rule, group: u32, reading: &Reading) -> bool
    ensures { (wide : Bool) → IsTrue result →
        (group ≤ rule.now.group) ⊎ IsRuleNo wide (reading.now ∷ []) reading.now.node rule.now }
{
    rule.group >= group || is_no(rule, reading)
}

fn are_past(rules: &[Rule], group: u32, reading: &Reading) -> bool
    ensures { (wide : Bool) → IsTrue result → All
        (λ rule. (group ≤ rule.group) ⊎ IsRuleNo wide (reading.now ∷ []) reading.now.node rule)
        rules.now }
{
    for rule in rules {
        if !is_past(rule, group, reading) {
            return false;
        }
    }
    true
}

/// Whether the reading shows that the rule may fire at its node.
pub fn shows_fire(program: &Program, reading: &Reading, rule: u32) -> bool
    ensures { IsTrue result →
        Shows program.now (reading.now ∷ []) [] (Fire reading.now.node rule) }
{
    let rules = program.rules.as_slice();
    if rule as usize >= rules.len() {
        return false;
    }
    let chosen = program.rule(rule);
    is_yes(chosen, reading) && are_past(rules, chosen.group, reading)
}

/// Whether the reading shows that no rule matches at its node.
pub fn shows_note(program: &Program, reading: &Reading) -> bool
    ensures { IsTrue result → Shows program.now (reading.now ∷ []) [] (Note reading.now.node) }
{
    program
        .rules
        .as_slice()
        .iter()
        .all(|rule| is_no(rule, reading))
}
