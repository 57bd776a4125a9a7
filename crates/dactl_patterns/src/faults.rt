//! The faults of one pattern, apart from the size of its expansion.

ghost use Rattle.std.specs.Prelude.{◌≡◌, ◌++◌, Some, OnOk, IfOk, Contains, map};
ghost use Rattle.std.specs.List.{flat_map};
ghost use Rattle.dactl_symbols.specs.Least.{least_by, TellsLeast};
ghost use Rattle.dactl_patterns.specs.Naming.{has_word};
ghost use Rattle.dactl_patterns.specs.Occurring.{seen, used};
ghost use Rattle.dactl_patterns.specs.TreeFaults as spec;

use crate::names::add;
use crate::occurrences::{Found, Occurrence, Use};
use dactl_base::refusal::{Kind, Place, Refusal};
use dactl_symbols::least::lesser;
use std::alloc::{AllocError, Global};
use std::collections::BTreeSet;

/// How many arguments a symbol may have.
const MOST_ARGUMENTS: usize = 16;

fn fault_if(
    faults: &mut Vec<Refusal>,
    holds: bool,
    kind: Kind,
    place: Place,
) -> Result<(), AllocError>
    ensures { OnOk result (faults.new.items ≡ faults.old.items ++ spec.fault_if holds kind place) }
{
    if holds {
        faults.push(Refusal { kind, place })?;
    }
    Ok(())
}

/// Adds a `BinderInChoice` for each of these places where no variable may stand.
fn binders(
    faults: &mut Vec<Refusal>,
    occurrences: &[Occurrence],
    named: bool,
) -> Result<(), AllocError>
    ensures { OnOk result (faults.new.items ≡
        faults.old.items ++ flat_map (spec.binder_fault named) (map seen occurrences.now)) }
{
    for occurrence in occurrences {
        fault_if(
            faults,
            named || occurrence.in_choice,
            Kind::BinderInChoice,
            occurrence.name.place,
        )?;
    }
    Ok(())
}

fn note_given<'a>(
    faults: &mut Vec<Refusal>,
    names: &mut BTreeSet<&'a [u8]>,
    occurrence: Occurrence<'a>,
) -> Result<(), AllocError>
    ensures faults { OnOk result (faults.new.items ≡
        faults.old.items ++ spec.twice_fault (has_word names.old) (seen occurrence.entry)) }
    ensures names { OnOk result
        (has_word names.new ≡ spec.given_after (has_word names.old) (seen occurrence.entry)) }
{
    if occurrence.given {
        let added = add(names, occurrence.name.text.as_slice())?;
        fault_if(faults, !added, Kind::NamedTwice, occurrence.name.place)?;
    }
    Ok(())
}

/// Adds a `NamedTwice` for each of these places where a name has `:` again.
fn named_twice(
    alloc: Global,
    faults: &mut Vec<Refusal>,
    occurrences: &[Occurrence],
) -> Result<(), AllocError>
    ensures { OnOk result (faults.new.items ≡
        faults.old.items ++ spec.twice_faults spec.none_given (map seen occurrences.now)) }
{
    let mut names = BTreeSet::new(alloc);
    for occurrence in occurrences {
        note_given(faults, &mut names, *occurrence)?;
    }
    Ok(())
}

/// Adds a `TooWide` for each of these uses of names that has too many arguments.
fn wide(faults: &mut Vec<Refusal>, uses: &[Use]) -> Result<(), AllocError>
    ensures { OnOk result
        (faults.new.items ≡ faults.old.items ++ flat_map spec.wide_fault (map used uses.now)) }
{
    for one in uses {
        let many = one.args > MOST_ARGUMENTS;
        fault_if(faults, many, Kind::TooWide, one.name.place)?;
    }
    Ok(())
}

fn all_faults(
    alloc: Global,
    found: &Found,
    named: bool,
    large: bool,
    place: Place,
) -> Result<Vec<Refusal>, AllocError>
    ensures { IfOk result
        (λ faults. faults.items ≡ spec.faults_found large named place found.now) }
{
    let places = found.places.as_slice();
    let mut faults = Vec::new(alloc);
    binders(&mut faults, places, named)?;
    wide(&mut faults, found.uses.as_slice())?;
    fault_if(&mut faults, large, Kind::TooWide, place)?;
    named_twice(alloc, &mut faults, places)?;
    Ok(faults)
}

/// The one of the faults that is told.
fn first_of(faults: &[Refusal]) -> Option<Refusal>
    ensures { result ≡ least_by Some faults.now }
{
    let mut first = None;
    for fault in faults {
        first = lesser(first, Some(*fault));
    }
    first
}

/// The first fault of a pattern, by what stands in it. `large` says that the whole is too wide, and
/// `place` is where that is told.
///
/// # Errors
/// `AllocError` for want of memory.
pub fn first_fault(
    alloc: Global,
    found: &Found,
    named: bool,
    large: bool,
    place: Place,
) -> Result<Option<Refusal>, AllocError>
    ensures { IfOk result
        (TellsLeast (Contains (spec.faults_found large named place found.now))) }
{
    let faults = all_faults(alloc, found, named, large, place)?;
    Ok(first_of(faults.as_slice()))
}
