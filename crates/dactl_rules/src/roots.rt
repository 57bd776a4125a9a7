//! The names of a rule's root.
ghost use Rattle.std.specs.Prelude.{◌≡◌, ◌++◌, OnOk};
ghost use Rattle.dactl_meaning.specs.Expansion.{root_names as names_of_root};

use dactl_base::refusal::Memory;
use dactl_meaning::tree::PatternTree;
use dactl_patterns::occurrences::has_plus;
use sqlite_items::Items;
use std::alloc::Global;

/// Adds the names of the root of a rule with this pattern to `names`.
///
/// # Errors
///
/// Want of memory. Some of the names may then be there.
pub fn root_names(
    alloc: Global,
    names: &mut Items<Items<u8>>,
    tree: &PatternTree,
) -> Result<(), Memory>
    ensures { OnOk result (names.new ≡ names.old ++ names_of_root tree.now) }
{
    match tree {
        PatternTree::Any
        | PatternTree::Int
        | PatternTree::Char
        | PatternTree::Integer { .. }
        | PatternTree::Letter { .. }
        | PatternTree::Sym { .. } => Ok(()),
        PatternTree::Variable { name } => {
            names.push(Items::from_slice(alloc, name.text.as_slice())?)?;
            Ok(())
        }
        PatternTree::Binder { name, inner } => {
            names.push(Items::from_slice(alloc, name.text.as_slice())?)?;
            root_names(alloc, names, inner.get())?;
            Ok(())
        }
        PatternTree::Chain { first, rest } => {
            if !has_plus(rest.as_slice()) {
                root_names(alloc, names, first.get())?;
            }
            Ok(())
        }
    }
}
