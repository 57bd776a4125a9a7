//! The items of a text, one after another.
ghost use Rattle.std.specs.Prelude.{◌≡◌, ◌++◌, IfOk, OnOk, map};
ghost use Rattle.std.specs.List.{enumerate_from};
ghost use Rattle.dactl_meaning.specs.Declarations.{items as items_in};
ghost use Rattle.dactl_contractum.specs.Listing.{placed, placed_in};

use dactl_base::refusal::Memory;
use dactl_meaning::tree::{Item, Text};
use std::alloc::Global;

/// An item of a text: the number of its module, and its own number there.
#[derive(Clone, Copy)]
pub struct Placed<'a> {
    pub owner: usize,
    pub number: usize,
    pub item: &'a Item,
}

/// Adds the items of a module.
fn add<'a>(found: &mut Vec<Placed<'a>>, owner: usize, items: &'a [Item]) -> Result<(), Memory>
    ensures { OnOk result
        (map placed found.new.items ≡ map placed found.old.items ++ placed_in owner items.now) }
{
    for (number, item) in items.iter().enumerate() {
        found.push(Placed {
            owner,
            number,
            item,
        })?;
    }
    Ok(())
}

/// The items of a text, in text order.
///
/// # Errors
///
/// Want of memory.
pub fn items<'a>(alloc: Global, text: &'a Text) -> Result<Vec<Placed<'a>>, Memory>
    ensures { IfOk result (λ found. map placed found.items ≡ items_in text.now) }
{
    let mut found = Vec::new(alloc);
    for (owner, tree) in text.modules.as_slice().iter().enumerate() {
        add(&mut found, owner, tree.items.as_slice())?;
    }
    Ok(found)
}
