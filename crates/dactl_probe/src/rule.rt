//! What readings tell of a rule.
ghost use Rattle.std.specs.Prelude.{◌≡◌, ◌<◌, ◌↔◌, true, IsTrue, length};
ghost use Rattle.dactl_model.specs.Matching.{bound_node};
ghost use Rattle.dactl_model.specs.Programs.{IsDelta};
ghost use Rattle.dactl_model.specs.Readings.{reading_of, told};
ghost use Rattle.dactl_model.specs.RuleTold.{no_conflict, bindings_told, integer_read};
ghost use Rattle.dactl_model.specs.RuleTold.{HasResultTold};
ghost use Rattle.dactl_decide.specs.Orders.{is_orderly};
ghost use Rattle.dactl_probe.specs.Lost.{AreLost};
ghost use Rattle.dactl_probe.specs.Verdicts.{IsRuleFound, IsNumberFound};

use crate::binding::{first_bound, has_no_conflict};
use crate::finding::{Finding, look};
use crate::lost::Lost;
use crate::reading::reading_of;
use dactl_decide::Deciders;
use dactl_model::arithmetic;
use dactl_model::graph::NodeId;
use dactl_model::program::{Body, Rule};
use dactl_model::reading::Reading;

/// What readings tell of a rule: it fails whatever is read further, it fails, it may match once the
/// node is read, or it matches.
#[derive(Clone, Copy, Debug)]
pub enum Found {
    Lost,
    No,
    Unknown(NodeId),
    Yes,
}

/// The node of the rule's variable: node 0 while no reading tells it.
pub fn bound(readings: &[Reading], rule: &Rule, node: NodeId, variable: u8) -> NodeId
    requires { variable < rule.now.variables }
    ensures { result ≡ bound_node (bindings_told readings.now node rule.now) variable }
{
    match first_bound(readings, &rule.pattern, node, variable) {
        Some(found) => found,
        None => NodeId { number: 0 },
    }
}

fn integer_read(readings: &[Reading], node: NodeId) -> i128
    ensures { result ≡ integer_read (reading_of readings.now node) }
{
    match reading_of(readings, node) {
        Some(reading) => reading.label.integer(),
        None => 0,
    }
}

/// Whether the result of the rule, if it is an arithmetic one, is in the range of its program.
fn has_result(wide: bool, readings: &[Reading], rule: &Rule, node: NodeId) -> bool
    requires { IsDelta rule.now.body → rule.now.variables ≡ 2 }
    ensures { IsTrue result ↔
        HasResultTold wide rule.now.body readings.now
        (bindings_told readings.now node rule.now) }
{
    match &rule.body {
        Body::Written { .. } => true,
        Body::Delta(op) => {
            let first = bound(readings, rule, node, 0);
            let second = bound(readings, rule, node, 1);
            arithmetic::has_result(
                wide,
                *op,
                integer_read(readings, first),
                integer_read(readings, second),
            )
        }
    }
}

/// Whether no variable stands for two nodes, as far as the readings tell. That is sure of a rule
/// whose variables have one binder each.
fn is_consistent(readings: &[Reading], rule: &Rule, orderly: bool, node: NodeId) -> bool
    requires { orderly ≡ true → is_orderly rule.now ≡ true }
    ensures { result ≡ no_conflict (told readings.now rule.now.pattern node).pairs }
{
    orderly || has_no_conflict(readings, &rule.pattern, node)
}

/// What the readings tell of the rule of a program at the node.
fn find_rule(wide: bool, readings: &[Reading], rule: &Rule, orderly: bool, node: NodeId) -> Found
    requires operands { IsDelta rule.now.body → rule.now.variables ≡ 2 }
    requires orderly { orderly ≡ true → is_orderly rule.now ≡ true }
    ensures { IsRuleFound wide readings.now node rule.now result }
{
    match look(readings, &rule.pattern, node) {
        Finding::No => Found::Lost,
        Finding::Unknown(need) => {
            if is_consistent(readings, rule, orderly, node) {
                Found::Unknown(need)
            } else {
                Found::Lost
            }
        }
        Finding::Yes => {
            if !is_consistent(readings, rule, orderly, node) {
                Found::Lost
            } else if has_result(wide, readings, rule, node) {
                Found::Yes
            } else {
                Found::No
            }
        }
    }
}

/// The same of the rule with the number. It isn't looked at if it is known to be lost.
pub fn find(
    deciders: &Deciders,
    number: u32,
    lost: &Lost,
    readings: &[Reading],
    node: NodeId,
) -> Found
    requires within { number < length deciders.now.program.rules }
    requires lost { AreLost deciders.now.program.rules readings.now node lost.now }
    ensures { IsNumberFound deciders.now.program readings.now node number result }
{
    if lost.has(number) {
        return Found::Lost;
    }
    let program = deciders.program();
    let rule = program.rule(number);
    let orderly = deciders.is_orderly(number);
    find_rule(program.wide, readings, rule, orderly, node)
}
