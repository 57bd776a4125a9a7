//! The named patterns of a text, and where they stand.

ghost use Rattle.std.specs.Prelude.{◌≡◌, ◌++◌, OnOk, IfOk};
ghost use Rattle.std.specs.List.{flat_map};
ghost use Rattle.dactl_patterns.specs.Cycles.{declared_at, declared, placed_from, all_declared};

use crate::uses::Pattern;
use dactl_base::refusal::Place;
use dactl_meaning::tree::{Item, Text};
use dactl_model::Memory;
use std::alloc::Global;

/// A named pattern of a text, and where its name stands.
#[derive(Clone, Copy)]
pub struct Declared {
    pub pattern: Pattern,
    pub place: Place,
}

fn note_declared(found: &mut Vec<Declared>, pattern: Pattern, item: &Item) -> Result<(), Memory>
    ensures { OnOk result (found.new.items ≡ found.old.items ++ declared_at pattern item.now) }
{
    if let Item::Named { name, .. } = item {
        found.push(Declared {
            pattern,
            place: name.place,
        })?;
    }
    Ok(())
}

fn declared_in(found: &mut Vec<Declared>, owner: usize, items: &[Item]) -> Result<(), Memory>
    ensures { OnOk result
        (found.new.items ≡ found.old.items ++ flat_map declared (placed_from owner 0 items.now)) }
{
    for (number, item) in items.iter().enumerate() {
        note_declared(found, (owner, number), item)?;
    }
    Ok(())
}

/// The named patterns of the text, in text order.
///
/// # Errors
/// `AllocError` for want of memory.
pub fn declarations(alloc: Global, text: &Text) -> Result<Vec<Declared>, Memory>
    ensures { IfOk result (λ found. found.items ≡ all_declared text.now) }
{
    let mut found = Vec::new(alloc);
    for (owner, module) in text.modules.as_slice().iter().enumerate() {
        declared_in(&mut found, owner, module.items.as_slice())?;
    }
    Ok(found)
}
