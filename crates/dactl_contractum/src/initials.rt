//! The first graph of a text, and the faults of what the text says of it.
ghost use Rattle.std.specs.Prelude.{◌≡◌, [], ◌∷◌, ◌<◌, ◌^◌, IfOk, List, ℕ, length, map};
ghost use Rattle.std.specs.List.{flat_map};
ghost use Rattle.dactl_meaning.specs.Meaning.{node_number as node_number_of};
ghost use Rattle.dactl_symbols.specs.Scoping.{seen_in};
ghost use Rattle.dactl_validity.specs.Counting.{AreCountable};
ghost use Rattle.dactl_contractum.specs.Drawing.{made_in, target_of};
ghost use Rattle.dactl_contractum.specs.Initials.{initials_in, root_in, start_from, AreMeant};
ghost use Rattle.dactl_contractum.specs.Listing.{placed};
ghost use Rattle.dactl_names.specs.Found.{found};
ghost use Rattle.dactl_contractum.specs.Numbers.{node_number};
ghost use Rattle.dactl_contractum.specs.Terms.{seen, AreDrawn, IsReady};

use crate::contractum::{Contractum, draw};
use crate::faults::{contractum_faults, first};
use crate::listing::Placed;
use crate::variables::Variables;
use crate::viewing::Viewer;
use dactl_base::refusal::{Memory, Refusal};
use dactl_meaning::tree::{Item, TermTree};
use dactl_model::program::{Mention, Start};
use dactl_symbols::least::lesser;
use dactl_symbols::sight::Scopes;
use sqlite_items::Items;
use std::alloc::Global;

fn references<'a>(alloc: Global, terms: &'a [TermTree]) -> Result<Vec<&'a TermTree>, Memory>
    ensures { IfOk result (λ references. seen references.items ≡ terms.now) }
{
    let mut references = Vec::with_capacity(alloc, terms.len())?;
    for term in terms {
        references.push(term)?;
    }
    Ok(references)
}

fn drawn<'a>(alloc: Global, terms: &'a [TermTree], room: usize) -> Result<Contractum<'a>, Memory>
    ensures drawn { IfOk result (λ c. AreDrawn terms.now c.drawing c.targets.items) }
    ensures small { IfOk result (λ c. length c.drawing.made.items < 2 ^ 31) }
    ensures counts { IfOk result (λ c. AreCountable terms.now) }
    ensures given { IfOk result
        (λ c. (w : List ℕ) → found c.given w ≡ node_number (made_in c.drawing) w) }
{
    let references = references(alloc, terms)?;
    draw(alloc, references.as_slice(), room)
}

fn no_variables(alloc: Global) -> Result<Variables, Memory>
    ensures { IfOk result (λ variables. variables ≡ []) }
{
    Variables::new(alloc, Items::new(alloc))
}

/// The first fault of what a text says of first graphs; and where there is none, what the first
/// that it says means.
#[derive(Drop)]
pub struct ReadInitials {
    pub fault: Option<Refusal>,
    pub start: Option<Start>,
}

fn number_of(mention: Mention) -> u32
    ensures { result ≡ node_number_of mention }
{
    match mention {
        Mention::Old(variable) => variable as u32,
        Mention::Fresh(number) => number,
    }
}

/// The number of the node that the first term stands for.
fn root(contractum: &Contractum, variables: &Variables) -> u32
    requires { IsReady variables.now contractum.now }
    ensures { result
        ≡ root_in variables.now (made_in contractum.now.drawing)
        (map target_of contractum.now.targets.items) }
{
    match contractum.targets.as_slice() {
        [target, ..] => number_of(contractum.meant(variables, *target)),
        [] => 0,
    }
}

/// Reads the terms, in which no name is a variable.
fn read_terms(
    alloc: Global,
    scopes: &Scopes,
    owner: usize,
    terms: &[TermTree],
    room: usize,
) -> Result<ReadInitials, Memory>
    ensures { IfOk result
        (AreMeant (seen_in scopes.now) (record { owner = owner; terms = terms.now } ∷ [])) }
{
    let contractum = drawn(alloc, terms, room)?;
    let none = no_variables(alloc)?;
    let mut faults = Vec::new(alloc);
    let viewer = Viewer { scopes, owner };
    let symbols = contractum_faults(alloc, &mut faults, viewer, &none, &none, &contractum)?;
    match first(faults.as_slice()) {
        Some(refusal) => Ok(ReadInitials {
            fault: Some(refusal),
            start: None,
        }),
        None => {
            let fresh = contractum.fresh(alloc, &none, symbols.as_slice())?;
            let root = root(&contractum, &none);
            Ok(ReadInitials {
                fault: None,
                start: Some(Start { fresh, root }),
            })
        }
    }
}

fn read_item(
    alloc: Global,
    scopes: &Scopes,
    item: Placed,
    room: usize,
) -> Result<ReadInitials, Memory>
    ensures { IfOk result (AreMeant (seen_in scopes.now) (initials_in (placed item.entry))) }
{
    match item.item {
        Item::Initial { terms, .. } => read_terms(
            alloc,
            scopes,
            item.owner,
            terms.as_slice(),
            room,
        ),
        _ => Ok(ReadInitials {
            fault: None,
            start: None,
        }),
    }
}

/// Reads what the items say of first graphs. The terms of each are drawn once, with room for so
/// many new nodes.
///
/// # Errors
///
/// Want of memory, which more new nodes or arcs in one of them than have numbers of 31 bits are
/// too.
pub fn read_initials(
    alloc: Global,
    scopes: &Scopes,
    items: &[Placed],
    room: usize,
) -> Result<ReadInitials, Memory>
    ensures { IfOk result
        (AreMeant (seen_in scopes.now) (flat_map initials_in (map placed items.now))) }
{
    let mut least = None;
    let mut kept = None;
    for item in items {
        let ReadInitials { fault, start } = read_item(alloc, scopes, *item, room)?;
        least = lesser(least, fault);
        kept = kept.or(start);
    }
    Ok(ReadInitials {
        fault: least,
        start: kept,
    })
}

/// The start; one without nodes where there is none.
pub fn start_or_none(alloc: Global, start: Option<Start>) -> Start
    ensures { result ≡ start_from start }
{
    match start {
        Some(start) => start,
        None => Start {
            fresh: Items::new(alloc),
            root: 0,
        },
    }
}
