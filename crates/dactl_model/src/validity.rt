//! The test of a program's validity.
ghost use Rattle.std.specs.Prelude.{◌≡◌, ◌≢◌, ◌+◌, ◌<◌, ◌≤◌, ◌^◌, ◌↔◌, false, IsTrue, All, Some};
ghost use Rattle.std.specs.Prelude.{length, slice_get};
ghost use Rattle.dactl_model.specs.declared.program.Pat.TheOpen.{Pat-F};
ghost use Rattle.dactl_model.specs.declared.program.Pat.TheViews.{roll-Pat};
ghost use Rattle.dactl_model.specs.Binders as binders;
ghost use Rattle.dactl_model.specs.Names.{is_upper_name};
ghost use Rattle.dactl_model.specs.Programs.{integer_binder, arithmetic_pattern, arithmetic_rule};
ghost use Rattle.dactl_model.specs.Programs.{symbols_below, IsValidRule, IsValid, IsDelta, IsBody};
ghost use Rattle.dactl_model.specs.Programs.{IsNarrowRule, IsNarrowProgram};
ghost use Rattle.dactl_model.specs.Validity.{HasVariables, AreDistinctNames, AreValidSymbols};
ghost use Rattle.dactl_model.specs.Validity.{HasArithmetic, HasSoundPattern, HasSoundVariables};
ghost use Rattle.dactl_model.specs.Validity.{HasSoundBody, AreValidRules, AreSoundRules};
ghost use Rattle.dactl_model.specs.Validity.{DoGroupsRise, IsSoundStart};

use crate::contractum_checks::{
    are_fresh_nodes, are_narrow_nodes, is_body, is_delta, is_narrow_body, may_suspend,
};
use crate::names;
use crate::pattern_checks::{allows, has_variables, head, is_narrow, symbols_below};
use crate::program::{Body, Op, Pat, Program, Rule, Start, Symbol};

fn is_int(pattern: &Pat) -> bool
    ensures { IsTrue result ↔ (pattern.now ≡ roll-Pat Pat-F.Int) }
{
    matches!(pattern, Pat::Int)
}

fn is_integer_variable(pattern: &Pat, variable: u8) -> bool
    ensures { IsTrue result ↔ (pattern.now ≡ integer_binder variable) }
{
    match pattern {
        Pat::Bind { var, inner } => *var == variable && is_int(inner.get()),
        _ => false,
    }
}

fn is_pattern_over_integers(pattern: &Pat, symbol: u32) -> bool
    ensures { IsTrue result ↔ (pattern.now ≡ arithmetic_pattern symbol) }
{
    match pattern {
        Pat::Sym { symbol: head, args } => match args.as_slice() {
            [first, second] => {
                *head == symbol && is_integer_variable(first, 0) && is_integer_variable(second, 1)
            }
            _ => false,
        },
        _ => false,
    }
}

fn computes(body: &Body, op: Op) -> bool
    ensures { IsTrue result ↔ (body.now ≡ Body.Delta op) }
{
    match body {
        Body::Written { .. } => false,
        Body::Delta(other) => *other == op,
    }
}

fn is_arithmetic_rule(rule: &Rule, symbol: u32, op: Op) -> bool
    ensures { IsTrue result ↔ (rule.now ≡ arithmetic_rule symbol op) }
{
    rule.symbol == symbol
        && rule.group == symbol
        && rule.variables == 2
        && is_pattern_over_integers(&rule.pattern, symbol)
        && computes(&rule.body, op)
}

fn has_rule(rules: &[Rule], number: u32, op: Op) -> bool
    ensures { IsTrue result ↔ (slice_get rules.now number ≡ Some (arithmetic_rule number op)) }
{
    match rules.get(number as usize) {
        Some(rule) => is_arithmetic_rule(rule, number, op),
        None => false,
    }
}

fn has_arithmetic(rules: &[Rule]) -> bool
    ensures { IsTrue result ↔ HasArithmetic rules.now }
{
    has_rule(rules, 0, Op::Add)
        && has_rule(rules, 1, Op::Sub)
        && has_rule(rules, 2, Op::Mul)
        && has_rule(rules, 3, Op::Eq)
        && has_rule(rules, 4, Op::Lt)
}

fn has_head(rule: &Rule) -> bool
    ensures { IsTrue result ↔ (binders.head rule.now.pattern ≡ Some rule.now.symbol) }
{
    head(&rule.pattern) == Some(rule.symbol)
}

fn has_sound_pattern(symbols: usize, rule: &Rule) -> bool
    ensures { IsTrue result ↔ HasSoundPattern symbols rule.now }
{
    (rule.symbol as usize) < symbols
        && has_head(rule)
        && symbols_below(symbols, &rule.pattern)
        && allows(&rule.pattern, true)
}

fn has_sound_variables(rule: &Rule) -> bool
    ensures { IsTrue result ↔ HasSoundVariables rule.now }
{
    rule.variables <= 64 && has_variables(rule.variables, &rule.pattern)
}

/// Whether a rule of this number may have the body: only the first five rules are arithmetic.
fn may_have(number: usize, body: &Body) -> bool
    ensures { IsTrue result ↔ (IsDelta body.now → number < 5) }
{
    number < 5 || !is_delta(body)
}

fn has_sound_body(symbols: usize, number: usize, rule: &Rule) -> bool
    ensures { IsTrue result ↔ HasSoundBody symbols number rule.now }
{
    is_body(symbols, rule.variables, &rule.body)
        && rule.group < 0x7fff_ffff
        && may_have(number, &rule.body)
        && may_suspend(&rule.pattern, &rule.body)
}

fn is_valid_rule(symbols: usize, number: usize, rule: &Rule) -> bool
    ensures { IsTrue result ↔ IsValidRule symbols number rule.now }
{
    if !has_sound_pattern(symbols, rule) {
        return false;
    }
    has_sound_variables(rule) && has_sound_body(symbols, number, rule)
}

fn are_valid_rules(symbols: usize, rules: &[Rule]) -> bool
    ensures { IsTrue result ↔ AreValidRules symbols rules.now }
{
    for (number, rule) in rules.iter().enumerate() {
        if !is_valid_rule(symbols, number, rule) {
            return false;
        }
    }
    true
}

fn do_groups_rise(rules: &[Rule]) -> bool
    ensures { IsTrue result ↔ DoGroupsRise rules.now }
{
    for place in 1..rules.len() {
        if rules[place].group < rules[place - 1].group {
            return false;
        }
    }
    true
}

fn is_new_name(symbols: &[Symbol], name: &[u8]) -> bool
    ensures { IsTrue result ↔ All (λ s. s.name ≢ name.now) symbols.now }
{
    symbols.iter().all(|symbol| symbol.name.as_slice() != name)
}

fn are_distinct_names(symbols: &[Symbol]) -> bool
    ensures { IsTrue result ↔ AreDistinctNames symbols.now }
{
    for (place, symbol) in symbols.iter().enumerate() {
        if !is_new_name(&symbols[..place], symbol.name.as_slice()) {
            return false;
        }
    }
    true
}

fn are_names(wide: bool, symbols: &[Symbol]) -> bool
    ensures { IsTrue result ↔ All (λ s. IsTrue (is_upper_name wide s.name)) symbols.now }
{
    symbols.iter().all(|symbol| names::is_upper_name(wide, symbol.name.as_slice()))
}

fn are_valid_symbols(wide: bool, symbols: &[Symbol]) -> bool
    ensures { IsTrue result ↔ AreValidSymbols wide symbols.now }
{
    7 <= symbols.len()
        && symbols.len() < 0x8000_0000
        && are_names(wide, symbols)
        && are_distinct_names(symbols)
}

fn are_sound_rules(symbols: usize, rules: &[Rule]) -> bool
    ensures { IsTrue result ↔ AreSoundRules symbols rules.now }
{
    if rules.len() >= 0x8000_0000 {
        return false;
    }
    if !has_arithmetic(rules) {
        return false;
    }
    are_valid_rules(symbols, rules) && do_groups_rise(rules)
}

fn is_sound_start(symbols: usize, start: &Start) -> bool
    ensures { IsTrue result ↔ IsSoundStart symbols start.now }
{
    let fresh = start.fresh.as_slice();
    are_fresh_nodes(symbols, 0, fresh) && (start.root as usize) < fresh.len()
}

fn is_narrow_rule(rule: &Rule) -> bool
    ensures { IsTrue result ↔ IsNarrowRule rule.now }
{
    is_narrow(&rule.pattern) && is_narrow_body(&rule.body)
}

fn is_narrow_program(program: &Program) -> bool
    ensures { IsTrue result ↔ IsNarrowProgram program.now }
{
    program.rules.as_slice().iter().all(is_narrow_rule)
        && are_narrow_nodes(program.start.fresh.as_slice())
}

/// Whether the program has no more than 64-bit integers, where it is not wide.
fn is_in_language(program: &Program) -> bool
    ensures { IsTrue result ↔ (program.now.wide ≡ false → IsNarrowProgram program.now) }
{
    program.wide || is_narrow_program(program)
}

/// Whether the program is valid. Takes no memory; the time is that of reading the program, and of
/// comparing each two of its symbols' names.
pub fn is_valid(program: &Program) -> bool
    ensures { IsTrue result ↔ IsValid program.now }
{
    let symbols = program.symbols.as_slice();
    if !are_valid_symbols(program.wide, symbols) {
        return false;
    }
    if !is_in_language(program) {
        return false;
    }
    are_sound_rules(symbols.len(), program.rules.as_slice())
        && is_sound_start(symbols.len(), &program.start)
}
