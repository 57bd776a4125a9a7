//! From a text to its program.
ghost use Rattle.std.specs.Prelude.{◌≡◌, ◌⊎◌, ◌++◌, true, Contains, IfOk, None, map};
ghost use Rattle.std.specs.List.{flat_map};
ghost use Rattle.dactl_model.specs.Programs.{IsValid};
ghost use Rattle.dactl_meaning.specs.Declarations.{items as items_in};
ghost use Rattle.dactl_meaning.specs.Faults.{NoFault, TellsFaults};
ghost use Rattle.dactl_meaning.specs.Meaning.{CycleFault, RuleFault, arithmetic_rules};
ghost use Rattle.dactl_meaning.specs.Meaning.{named_faults, program_of};
ghost use Rattle.dactl_meaning.specs.RuleFaults.{pattern_faults};
ghost use Rattle.dactl_meaning.specs.ScopeFaults.{ScopeFault};
ghost use Rattle.dactl_symbols.specs.Least.{TellsLeast};
ghost use Rattle.dactl_symbols.specs.Scoping.{IsScopesOf, seen_in, symbols_in};
ghost use Rattle.dactl_contractum.specs.Initials.{first_start, initials_in, start_from};
ghost use Rattle.dactl_rules.specs.Drafts.{IsDraft};
ghost use Rattle.dactl_patterns.specs.Table.{AreNamed};
ghost use Rattle.dactl_contractum.specs.Listing.{placed};
ghost use Rattle.dactl_meaning.specs.Spelling.{IsSpelled};

use crate::compiled::{CompiledRules, rules};
use dactl_base::refusal::{Memory, Place, Refusal, TextFault};
use dactl_contractum::initials::{ReadInitials, read_initials, start_or_none};
use dactl_contractum::listing::{Placed, items};
use dactl_meaning::tree::{Item, PatternTree, Text};
use dactl_model::arithmetic::arithmetic_rule;
use dactl_model::program::{Op, Program, Rule, Start};
use dactl_patterns::{NamedPatterns, examine, named_patterns};
use dactl_symbols::least::lesser;
use dactl_symbols::sight::Scopes;
use sqlite_items::Items;
use std::alloc::Global;

/// The language that has integers of 128 bits and characters.
const WIDE_LANGUAGE: u8 = 2;

/// A first graph has seldom more than a new node for so many bytes of its text.
const BYTES_OF_A_NODE: usize = 3;

/// The numbers of groups are below this one. More groups are want of memory.
const GROUP_NUMBERS: u32 = 0x8000_0000;

fn pattern_fault(
    alloc: Global,
    patterns: &NamedPatterns,
    owner: usize,
    place: Place,
    tree: &PatternTree,
) -> Result<Option<Refusal>, Memory>
    requires { AreNamed patterns.now }
    ensures { IfOk result
        (TellsLeast
        (Contains (pattern_faults patterns.now.text.now owner true place.byte tree.now))) }
{
    let examined = examine(alloc, patterns, owner, true, place, tree)?;
    Ok(examined.fault)
}

fn named_fault(
    alloc: Global,
    patterns: &NamedPatterns,
    item: Placed,
) -> Result<Option<Refusal>, Memory>
    requires { AreNamed patterns.now }
    ensures { IfOk result
        (TellsLeast (Contains (named_faults patterns.now.text.now (placed item.entry)))) }
{
    match item.item {
        Item::Named {
            name,
            pattern: tree,
            ..
        } => pattern_fault(alloc, patterns, item.owner, name.place, tree),
        _ => Ok(None),
    }
}

/// The first fault of the named patterns among the items.
fn first_named_fault(
    alloc: Global,
    patterns: &NamedPatterns,
    items: &[Placed],
) -> Result<Option<Refusal>, Memory>
    requires { AreNamed patterns.now }
    ensures { IfOk result
        (TellsLeast
        (Contains (flat_map (named_faults patterns.now.text.now) (map placed items.now)))) }
{
    let mut least = None;
    for item in items {
        let here = named_fault(alloc, patterns, *item)?;
        least = lesser(least, here);
    }
    Ok(least)
}

/// The rules of the built-in arithmetic.
fn built_in(alloc: Global) -> Result<Items<Rule>, Memory>
    ensures { IfOk result (λ rules. rules ≡ arithmetic_rules) }
{
    let mut rules = Items::new(alloc);
    rules.push(arithmetic_rule(alloc, 0, Op::Add)?)?;
    rules.push(arithmetic_rule(alloc, 1, Op::Sub)?)?;
    rules.push(arithmetic_rule(alloc, 2, Op::Mul)?)?;
    rules.push(arithmetic_rule(alloc, 3, Op::Eq)?)?;
    rules.push(arithmetic_rule(alloc, 4, Op::Lt)?)?;
    Ok(rules)
}

/// The rules of a text, and the first fault of its named patterns, rules and first graphs; and its
/// first graph, where there is no fault.
fn draft(
    alloc: Global,
    patterns: &NamedPatterns,
    items: &[Placed],
) -> Result<(CompiledRules, Option<Start>), Memory>
    requires patterns { AreNamed patterns.now }
    requires items { map placed items.now ≡ items_in patterns.now.text.now }
    ensures rules { IfOk result (λ d. IsDraft patterns.now.text.now d.0) }
    ensures start { IfOk result
        (λ d. d.0.fault ≡ None → d.1
        ≡ first_start (seen_in patterns.now.scopes.now)
        (flat_map initials_in (map placed items.now))) }
{
    let named = first_named_fault(alloc, patterns, items)?;
    let room = patterns.text.length as usize / BYTES_OF_A_NODE;
    let ReadInitials { fault, start } = read_initials(alloc, patterns.scopes, items, room)?;
    let mut compiled = rules(alloc, patterns, items)?;
    compiled.fault = lesser(lesser(named, compiled.fault), fault);
    Ok((compiled, start))
}

/// The program of these rules, behind those of the arithmetic; `wide` says that it has integers of
/// 128 bits and characters.
fn assemble(
    alloc: Global,
    wide: bool,
    scopes: &Scopes,
    start: Option<Start>,
    written: Vec<Rule>,
) -> Result<Program, Memory>
    ensures { IfOk result
        (λ p. p
        ≡ record {
          symbols = symbols_in scopes.now;
          rules = arithmetic_rules ++ written.items;
          start = start_from start;
          wide = wide;
        }) }
{
    let symbols = scopes.symbols(alloc)?;
    let mut rules = built_in(alloc)?;
    rules.append(Items::from_vec(written))?;
    Ok(Program {
        symbols,
        rules,
        start: start_or_none(alloc, start),
        wide,
    })
}

/// The program of a text whose scopes these are. It is valid where the names of the text have no
/// fault.
///
/// # Errors
///
/// `Refused` with the first fault among named patterns that reach themselves, patterns, rules and
/// first graphs: a cycle before all others, and otherwise by place, and at one place by the order
/// of the kinds. `Memory` is want of memory, which may hide a fault, and stands for more groups,
/// new nodes or arcs than have numbers of 31 bits. In both cases nothing is kept.
pub fn program(alloc: Global, text: &Text, scopes: &Scopes) -> Result<Program, TextFault>
    requires { IsScopesOf text.now scopes.now }
    ensures faults { TellsFaults (λ r. CycleFault text.now r ⊎ RuleFault text.now r) result }
    ensures meaning { IfOk result (λ p. p ≡ program_of text.now) }
    ensures valid { IsSpelled text.now → NoFault (ScopeFault text.now) → IfOk result IsValid }
{
    let patterns = named_patterns(alloc, text, scopes)?;
    let items = items(alloc, text)?;
    let (compiled, start) = draft(alloc, &patterns, items.as_slice())?;
    let CompiledRules {
        rules: written,
        group,
        fault,
    } = compiled;
    if let Some(refusal) = fault {
        return Err(TextFault::Refused(refusal));
    }
    if group >= GROUP_NUMBERS {
        return Err(TextFault::Memory);
    }
    let wide = text.language == WIDE_LANGUAGE;
    Ok(assemble(alloc, wide, scopes, start, written)?)
}
