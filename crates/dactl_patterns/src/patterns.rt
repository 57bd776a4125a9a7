//! A pattern of a text: its variables, its first fault and its expansion.

ghost use Rattle.std.specs.Prelude.{◌≡◌, ◌&&◌, not, nat_lt, length, IfOk, Contains};
ghost use Rattle.std.specs.Option.{option_copied};
ghost use Rattle.dactl_meaning.specs.Faults.{TellsFaults};
ghost use Rattle.dactl_meaning.specs.Expansion as spec;
ghost use Rattle.dactl_meaning.specs.RuleFaults.{pattern_faults};
ghost use Rattle.dactl_symbols.specs.Scoping.{IsScopesOf};
ghost use Rattle.dactl_patterns.specs.Expanded.{variables_counted};
ghost use Rattle.dactl_patterns.specs.Expanded.{IsExamined, IsExpanded, IsExpansion};
ghost use Rattle.dactl_patterns.specs.Table.{AreNamed};

use crate::expanding::Expander;
use crate::faults::first_fault;
use crate::named::{MOST_NODES, NamedPatterns, named_patterns};
use crate::names::variables;
use crate::occurrences::found_in;
use dactl_base::refusal::{Place, Refusal, TextFault};
use dactl_meaning::tree::{PatternTree, Text};
use dactl_model::program::Pat;
use dactl_symbols::sight::Scopes;
use sqlite_items::Items;
use std::alloc::{AllocError, Global};

/// How many variables a rule's pattern may have.
const MOST_VARIABLES: usize = 64;

/// What is known of a pattern: the names of its variables, by their numbers; its first fault; and
/// its expansion, unless the whole is too wide.
#[derive(Drop)]
pub struct Examined {
    pub variables: Items<Items<u8>>,
    pub fault: Option<Refusal>,
    pub pat: Option<Pat>,
}

/// A pattern in which named patterns are replaced, and the names of its variables by their numbers.
#[derive(Drop)]
pub struct Expanded {
    pub pat: Pat,
    pub variables: Items<Items<u8>>,
}

/// Whether a rule's pattern has too many variables.
fn has_many(named: bool, variables: &[Items<u8>]) -> bool
    ensures { result ≡ (not named && nat_lt 64 (length variables.now)) }
{
    !named && variables.len() > MOST_VARIABLES
}

/// The variables, if they count.
fn counted<'a>(named: bool, variables: &'a [Items<u8>]) -> Option<&'a [Items<u8>]>
    ensures { option_copied result ≡ variables_counted named variables.now }
{
    if named { None } else { Some(variables) }
}

/// The expansion of a pattern with these variables, unless the whole is too wide.
fn expansion(
    alloc: Global,
    patterns: &NamedPatterns,
    owner: usize,
    named: bool,
    variables: &[Items<u8>],
    tree: &PatternTree,
) -> Result<Option<Pat>, AllocError>
    requires patterns { AreNamed patterns.now }
    requires variables { variables.now ≡ spec.variables_of tree.now }
    ensures { IfOk result (IsExpansion patterns.now.text.now owner named tree.now) }
{
    if has_many(named, variables) {
        return Ok(None);
    }
    let expander = Expander {
        alloc,
        patterns,
        owner,
        variables: counted(named, variables),
    };
    match expander.expand(tree, MOST_NODES)? {
        Some(small) => Ok(Some(small.pat)),
        None => Ok(None),
    }
}

/// Looks through a pattern of the module of that number. Its first fault is that by its place, and
/// at one place by the order of the kinds. The kinds are `BinderInChoice`, `NamedTwice` and
/// `TooWide`. `named` says that the pattern is that of a named pattern, in which no variable may
/// stand. A `TooWide` of the whole pattern is told at `place`. The faults of the named patterns it
/// uses are not looked for.
///
/// # Errors
/// `AllocError` for want of memory, or where the pattern uses a named pattern that isn't in the
/// table.
pub fn examine(
    alloc: Global,
    patterns: &NamedPatterns,
    owner: usize,
    named: bool,
    place: Place,
    tree: &PatternTree,
) -> Result<Examined, AllocError>
    requires { AreNamed patterns.now }
    ensures { IfOk result (IsExamined patterns.now.text.now owner named place.byte tree.now) }
{
    let found = found_in(alloc, tree)?;
    let variables = variables(alloc, found.places.as_slice())?;
    let pat = expansion(alloc, patterns, owner, named, variables.as_slice(), tree)?;
    let fault = first_fault(alloc, &found, named, pat.is_none(), place)?;
    Ok(Examined {
        variables,
        fault,
        pat,
    })
}

/// The expansion of one pattern of a text, as `examine` finds it. All named patterns of the text
/// are looked through for this one.
///
/// # Errors
/// `Refused` with the pattern's first fault; `Memory` for want of memory, and for a text whose
/// named patterns reach themselves, which `cycles` refuses.
pub fn pattern(
    alloc: Global,
    text: &Text,
    scopes: &Scopes,
    owner: usize,
    named: bool,
    place: Place,
    tree: &PatternTree,
) -> Result<Expanded, TextFault>
    requires { IsScopesOf text.now scopes.now }
    ensures faults { TellsFaults
        (Contains (pattern_faults text.now owner named place.byte tree.now)) result }
    ensures expanded { IfOk result (IsExpanded text.now owner named tree.now) }
{
    let Ok(patterns) = named_patterns(alloc, text, scopes) else {
        return Err(TextFault::Memory);
    };
    let Examined {
        variables,
        fault,
        pat,
    } = examine(alloc, &patterns, owner, named, place, tree)?;
    if let Some(refusal) = fault {
        return Err(TextFault::Refused(refusal));
    }
    match pat {
        Some(pat) => Ok(Expanded { pat, variables }),
        None => unreachable!(),
    }
}
