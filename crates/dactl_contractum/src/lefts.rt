//! The left sides of a rule's redirections.
ghost use Rattle.std.specs.Prelude.{◌≡◌, ◌++◌, ◌&&◌, ◌≤◌, ◌↔◌, not, All, IsTrue, IfOk, OnOk, map};
ghost use Rattle.std.specs.List.{filter, flat_map, list_any};
ghost use Rattle.dactl_base.specs.declared.refusal.Kind.TheVariants as kinds;
ghost use Rattle.dactl_model.specs.declared.program.Class.TheVariants as classes;
ghost use Rattle.dactl_meaning.specs.Expansion.{is_among, number_in};
ghost use Rattle.dactl_meaning.specs.Expansion.{is_overwritable as overwritable};
ghost use Rattle.dactl_meaning.specs.RuleFaults.{each_at, again, place_of, lefts_of, is_class};
ghost use Rattle.dactl_symbols.specs.Scoping.{class_in};
ghost use Rattle.dactl_contractum.specs.Lefts.{words, left_unbound, is_fixed, left_fixed};

use crate::faults::{fault_at, is_bound};
use crate::overwriting::is_overwritable;
use crate::variables::Variables;
use crate::viewing::Viewer;
use dactl_base::refusal::{Kind, Memory, Refusal};
use dactl_meaning::tree::{Name, Part};
use dactl_model::program::Pat;
use dactl_names::NameMap;
use std::alloc::Global;

/// The left sides of the parts, in their order.
///
/// # Errors
///
/// Want of memory.
pub fn lefts<'a>(alloc: Global, parts: &'a [Part]) -> Result<Vec<&'a Name>, Memory>
    ensures { IfOk result (λ lefts. words lefts.items ≡ lefts_of parts.now) }
{
    let mut lefts = Vec::new(alloc);
    for part in parts {
        if let Part::Redirect { left, .. } = part {
            lefts.push(left)?;
        }
    }
    Ok(lefts)
}

/// Whether one of the left sides is among these names of the root.
pub fn redirect_root(roots: &Variables, lefts: &[&Name]) -> bool
    ensures { result ≡ list_any (λ n. is_among roots.now n.text) (words lefts.now) }
{
    for left in lefts {
        if roots.contains(left.text.as_slice()) {
            return true;
        }
    }
    false
}

/// Adds an `Unbound` for each left side that is no variable.
///
/// # Errors
///
/// Want of memory. The faults so far stay.
pub fn unbound(
    faults: &mut Vec<Refusal>,
    variables: &Variables,
    lefts: &[&Name],
) -> Result<(), Memory>
    ensures { OnOk result
        (faults.new.items ≡ faults.old.items
        ++ flat_map (left_unbound variables.now) (words lefts.now)) }
{
    for left in lefts {
        let holds = variables.number(left.text.as_slice()).is_none();
        fault_at(faults, holds, Kind::Unbound, left.place)?;
    }
    Ok(())
}

/// Adds a `RedirectedTwice` for each left side that is a variable and was one before, or is among
/// `redirected`.
///
/// # Errors
///
/// Want of memory. The faults so far stay.
pub fn redirected_twice(
    alloc: Global,
    faults: &mut Vec<Refusal>,
    variables: &Variables,
    redirected: &Variables,
    lefts: &[&Name],
) -> Result<(), Memory>
    ensures { OnOk result
        (faults.new.items ≡ faults.old.items
        ++ each_at kinds.RedirectedTwice
        (map place_of
        (again redirected.now (filter (λ n. is_among variables.now n.text) (words lefts.now))))) }
{
    let mut seen = NameMap::new(alloc);
    for left in lefts {
        let word = left.text.as_slice();
        if variables.number(word).is_some() {
            let known = is_bound(redirected, &seen, word);
            seen.note(alloc, word, 0)?;
            fault_at(faults, known, Kind::RedirectedTwice, left.place)?;
        }
    }
    Ok(())
}

/// Whether the name is a variable that may not be redirected: no name of the root, and its node not
/// over-writable.
fn is_fixed_variable(
    viewer: Viewer,
    variables: &Variables,
    roots: &Variables,
    pattern: &Pat,
    name: &[u8],
) -> bool
    ensures { result
        ≡ is_fixed
        (λ f. is_class classes.Overwritable (class_in viewer.entry.scopes.now viewer.entry.owner f))
        variables.now roots.now pattern.now name.now }
{
    match variables.number(name) {
        None => false,
        Some(number) => {
            roots.number(name).is_none()
                && !is_overwritable(viewer.scopes, viewer.owner, number, pattern)
        }
    }
}

/// Adds a `NotOverwritable` for each left side that is a variable and may not be redirected.
///
/// # Errors
///
/// Want of memory. The faults so far stay.
pub fn not_overwritable(
    faults: &mut Vec<Refusal>,
    viewer: Viewer,
    variables: &Variables,
    roots: &Variables,
    pattern: &Pat,
    lefts: &[&Name],
) -> Result<(), Memory>
    ensures { OnOk result
        (faults.new.items ≡ faults.old.items
        ++ flat_map
        (left_fixed
        (λ f. is_class classes.Overwritable (class_in viewer.entry.scopes.now viewer.entry.owner f))
        variables.now roots.now pattern.now) (words lefts.now)) }
{
    for left in lefts {
        let word = left.text.as_slice();
        let holds = is_fixed_variable(viewer, variables, roots, pattern, word);
        fault_at(faults, holds, Kind::NotOverwritable, left.place)?;
    }
    Ok(())
}

/// Whether no left side stands before the place.
pub fn are_behind(lefts: &[&Name], byte: u32) -> bool
    ensures { IsTrue result ↔ All (λ n. byte ≤ place_of n.now) lefts.now }
{
    lefts.iter().all(|left| byte <= left.place.byte)
}
