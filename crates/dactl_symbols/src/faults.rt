//! The faults of a text in its declarations, imports and counts.

ghost use Rattle.std.specs.Prelude.{◌≡◌, map, drop};
ghost use Rattle.dactl_symbols.specs.Declaring.{import_of};
ghost use Rattle.dactl_symbols.specs.Least.{least_by};
ghost use Rattle.dactl_symbols.specs.Counting.{fault_at, import_fault, initial_fault};
ghost use Rattle.dactl_symbols.specs.Counting.{name_beyond, rule_beyond};

use crate::least::lesser;
use crate::names::Names;
use crate::sight::imported;
use crate::survey::Import;
use dactl_base::refusal::{Kind, Place, Refusal};

/// The number of names that are declared before a text.
const BUILT_IN: usize = 8;

/// How many names a text may declare.
const MOST_NAMES: usize = 16_384;

/// How many rules a text may have.
const MOST_RULES: usize = 4_096;

/// The first of the places, as a fault of the kind.
pub fn first_at(kind: Kind, places: &[Place]) -> Option<Refusal>
    ensures { result ≡ least_by (fault_at kind) places.now }
{
    let mut least = None;
    for place in places {
        let fault = Refusal {
            kind,
            place: *place,
        };
        least = lesser(least, Some(fault));
    }
    least
}

fn unknown_import(names: &Names, import: &Import) -> Option<Refusal>
    ensures { result ≡ import_fault names.now (import_of import.now) }
{
    if imported(names, import).is_some() {
        return None;
    }
    Some(Refusal {
        kind: Kind::UnknownModule,
        place: import.name.place,
    })
}

/// The first import of a name that is neither an earlier module's nor the built-in one's.
pub fn unknown_module(names: &Names, imports: &[Import]) -> Option<Refusal>
    ensures { result ≡ least_by (import_fault names.now) (map import_of imports.now) }
{
    let mut least = None;
    for import in imports {
        least = lesser(least, unknown_import(names, import));
    }
    least
}

/// The fault of a text of that length with these places of `INITIAL`.
pub fn initial(places: &[Place], length: u32) -> Option<Refusal>
    ensures { result ≡ initial_fault places.now length }
{
    match places {
        [] => Some(Refusal {
            kind: Kind::NoInitial,
            place: Place { byte: length },
        }),
        [_, later @ ..] => first_at(Kind::TwoInitials, later),
    }
}

/// The first name that is one too many.
pub fn too_many_names(names: &Names) -> Option<Refusal>
    ensures { result ≡ name_beyond names.now }
{
    let beyond = names.declared().get(BUILT_IN + MOST_NAMES)?;
    Some(Refusal {
        kind: Kind::TooMany,
        place: beyond.name.place,
    })
}

/// The first rule that is one too many.
pub fn too_many_rules(rules: &[Place]) -> Option<Refusal>
    ensures { result ≡ rule_beyond rules.now }
{
    let place = rules.get(MOST_RULES)?;
    Some(Refusal {
        kind: Kind::TooMany,
        place: *place,
    })
}
