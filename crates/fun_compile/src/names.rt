//! Names of the tree, and sets of names.

ghost use Rattle.std.specs.Prelude.{◌≡◌, IfOk, is_some};
ghost use Rattle.fun_meaning.specs.Names.{operation};
ghost use Rattle.fun_compile.specs.Translated as spec;
ghost use Rattle.fun_compile.specs.Knowing.{HasNames};

use dactl_base::refusal::Place;
use dactl_meaning::tree::Name;
use dactl_model::Memory;
use sqlite_items::Items;
use std::alloc::Global;
use std::collections::BTreeSet;

/// The place of everything in a translation.
pub const NOWHERE: Place = Place { byte: 0 };

/// A name of the translation.
///
/// # Errors
///
/// `Memory` where there is not the memory for a copy of the spelling.
pub fn word(alloc: Global, spelling: &[u8]) -> Result<Name, Memory>
    ensures { IfOk result (λ name. name ≡ spec.word spelling.now) }
{
    Ok(Name {
        text: Items::from_slice(alloc, spelling)?,
        place: NOWHERE,
    })
}

/// The set of these names. It is ordered: a text chooses its names, and could choose them for a
/// hash.
///
/// # Errors
///
/// `Memory` where the set cannot grow.
pub fn set_of<'a>(alloc: Global, names: &'a [Name]) -> Result<BTreeSet<&'a [u8]>, Memory>
    ensures { IfOk result (HasNames names.now) }
{
    let mut set = BTreeSet::new(alloc);
    for name in names {
        set.insert(name.text.as_slice())?;
    }
    Ok(set)
}

/// Whether the name is an arithmetic function.
pub fn is_operation(name: &[u8]) -> bool
    ensures { result ≡ is_some (operation name.now) }
{
    name == b"IAdd".as_slice()
        || name == b"ISub".as_slice()
        || name == b"IMul".as_slice()
        || name == b"IEq".as_slice()
        || name == b"ILt".as_slice()
}
