//! What readings decide.
ghost use Rattle.dactl_decide.specs.Decisions.{AreDecisions};
ghost use Rattle.dactl_probe.specs.Lost.{AreLost};
ghost use Rattle.dactl_probe.specs.Verdicts.{IsFirstOpen, IsFirstWaiting, IsYesBeside};
ghost use Rattle.dactl_probe.specs.Verdicts.{HasSymbolRead, IsVerdict};

use crate::lost::Lost;
use crate::reading::reading_of;
use crate::rule::{Found, find};
use dactl_decide::Deciders;
use dactl_model::graph::{Label, NodeId};
use dactl_model::reading::Reading;

/// What is to be done at a node as far as readings tell: another node is to be read first, the rule
/// of this number may fire, or no rule matches.
#[derive(Clone, Copy, Debug)]
pub enum Verdict {
    Need(NodeId),
    Fire(u32),
    Note,
}

/// A rule that isn't known to fail: it matches, or waits for a node to be read.
#[derive(Clone, Copy, Debug)]
enum Open {
    Fires(u32),
    Waits { rule: u32, need: NodeId },
}

/// The first rule of the symbol that isn't known to fail. Adds the rules before it to the lost ones.
fn first_open(
    deciders: &Deciders,
    symbol: u32,
    lost: &mut Lost,
    readings: &[Reading],
    node: NodeId,
) -> Option<Open>
    requires symbol { HasSymbolRead readings.now node symbol }
    requires lost { AreLost deciders.now.program.rules readings.now node lost.old }
    ensures open { IsFirstOpen deciders.now.program symbol readings.now node result }
    ensures lost { AreLost deciders.now.program.rules readings.now node lost.new }
{
    let _program = deciders.program();
    let numbers = deciders.rules(symbol);
    let mut passing = true;
    for place in lost.among(numbers)..numbers.len() {
        let rule = numbers[place];
        match find(deciders, rule, lost, readings, node) {
            Found::Lost => {
                if passing {
                    lost.pass(rule, place + 1);
                }
            }
            Found::No => passing = false,
            Found::Unknown(need) => return Some(Open::Waits { rule, need }),
            Found::Yes => return Some(Open::Fires(rule)),
        }
    }
    None
}

/// A rule of the symbol that matches, behind the first open one and in its group. Adds rules there
/// to the lost ones.
fn yes_behind(
    deciders: &Deciders,
    symbol: u32,
    first: u32,
    lost: &mut Lost,
    readings: &[Reading],
    node: NodeId,
) -> Option<u32>
    requires first { IsFirstWaiting deciders.now.program symbol readings.now node first }
    requires lost { AreLost deciders.now.program.rules readings.now node lost.old }
    ensures yes { IsYesBeside deciders.now.program symbol first readings.now node result }
    ensures lost { AreLost deciders.now.program.rules readings.now node lost.new }
{
    let program = deciders.program();
    let numbers = deciders.rules(symbol);
    let group = program.rule(first).group;
    for place in lost.among(numbers)..numbers.len() {
        let number = numbers[place];
        if number <= first {
            continue;
        }
        if program.rule(number).group > group {
            return None;
        }
        match find(deciders, number, lost, readings, node) {
            Found::Lost => lost.mark(number),
            Found::No | Found::Unknown(_) => {}
            Found::Yes => return Some(number),
        }
    }
    None
}

/// What the readings decide at a node that was read and has the symbol.
fn at_symbol(
    deciders: &Deciders,
    symbol: u32,
    lost: &mut Lost,
    readings: &[Reading],
    node: NodeId,
) -> Verdict
    requires symbol { HasSymbolRead readings.now node symbol }
    requires lost { AreLost deciders.now.program.rules readings.now node lost.old }
    ensures verdict { IsVerdict deciders.now.program readings.now node result }
    ensures lost { AreLost deciders.now.program.rules readings.now node lost.new }
{
    let _program = deciders.program();
    match first_open(deciders, symbol, lost, readings, node) {
        None => Verdict::Note,
        Some(Open::Fires(rule)) => Verdict::Fire(rule),
        Some(Open::Waits { rule, need }) => {
            match yes_behind(deciders, symbol, rule, lost, readings, node) {
                Some(other) => Verdict::Fire(other),
                None => Verdict::Need(need),
            }
        }
    }
}

/// What the readings decide at the node. Adds rules to the lost ones.
///
/// It takes time for the rules that are lost by the last reading, and for the open ones of the group
/// of the first rule that is open: each is looked at once.
pub fn judge(deciders: &Deciders, lost: &mut Lost, readings: &[Reading], node: NodeId) -> Verdict
    requires { AreLost deciders.now.program.rules readings.now node lost.old }
    ensures verdict { IsVerdict deciders.now.program readings.now node result }
    ensures lost { AreLost deciders.now.program.rules readings.now node lost.new }
    ensures decisions { AreDecisions deciders.now }
{
    let _program = deciders.program();
    match reading_of(readings, node) {
        None => Verdict::Need(node),
        Some(reading) => match reading.label {
            Label::Symbol(symbol) => at_symbol(deciders, symbol, lost, readings, node),
            Label::Integer(_) | Label::Character(_) => Verdict::Note,
        },
    }
}
