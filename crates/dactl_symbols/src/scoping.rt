//! The scopes of a text, or its first fault.

ghost use Rattle.std.specs.Prelude.{◌≡◌, IfOk, map};
ghost use Rattle.dactl_meaning.specs.Faults.{TellsFaults};
ghost use Rattle.dactl_meaning.specs.ScopeFaults.{ScopeFault};
ghost use Rattle.dactl_symbols.specs.Declaring.{import_of};
ghost use Rattle.dactl_symbols.specs.Counting.{flat_fault as a_flat_fault};
ghost use Rattle.dactl_symbols.specs.Scoping.{IsScopesOf};

use crate::faults::{first_at, initial, too_many_names, too_many_rules, unknown_module};
use crate::least::lesser;
use crate::names::Names;
use crate::sight::Scopes;
use crate::survey::{Import, Survey, look_through};
use crate::uses::first_use_fault;
use dactl_base::refusal::{Kind, Place, Refusal, TextFault};
use dactl_meaning::tree::Text;
use std::alloc::Global;

/// The first fault of the declarations, the imports and the counts.
fn flat_fault(
    names: &Names,
    imports: &[Import],
    too_strong: &[Place],
    initials: &[Place],
    rules: &[Place],
    length: u32,
) -> Option<Refusal>
    ensures { result
        ≡ a_flat_fault names.now (map import_of imports.now) too_strong.now initials.now rules.now
        length }
{
    let declared = lesser(names.again(), unknown_module(names, imports));
    let stated = lesser(
        first_at(Kind::PublicTooStrong, too_strong),
        initial(initials, length),
    );
    let counted = lesser(too_many_names(names), too_many_rules(rules));
    lesser(lesser(declared, stated), counted)
}

/// The scopes of a text whose names, classes and counts have no fault.
///
/// # Errors
///
/// `Refused` with the first fault: by its place, and at one place by the order of the kinds.
/// `Memory` is want of memory, which may hide a fault. In both cases nothing is kept.
pub fn scope(alloc: Global, text: &Text) -> Result<Scopes, TextFault>
    ensures faults { TellsFaults (ScopeFault text.now) result }
    ensures scopes { IfOk result (IsScopesOf text.now) }
{
    let survey = look_through(alloc, text)?;
    let Survey {
        declared,
        imports,
        too_strong,
        initials,
        rules,
    } = survey;
    let names = Names::new(alloc, declared)?;
    let flat = flat_fault(
        &names,
        imports.as_slice(),
        too_strong.as_slice(),
        initials.as_slice(),
        rules.as_slice(),
        text.length,
    );
    let scopes = Scopes::new(alloc, names, imports.as_slice())?;
    match lesser(flat, first_use_fault(&scopes, text)) {
        Some(refusal) => Err(TextFault::Refused(refusal)),
        None => Ok(scopes),
    }
}
