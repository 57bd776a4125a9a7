//! The faults of a contractum.
ghost use Rattle.std.specs.Prelude.{◌≡◌, ◌++◌, ◌||◌, ℕ, List, OnOk, IfOk, Contains, is_some, map};
ghost use Rattle.std.specs.List.{flat_map};
ghost use Rattle.dactl_meaning.specs.Expansion.{is_among};
ghost use Rattle.dactl_meaning.specs.RuleFaults.{each_at, again, place_of};
ghost use Rattle.dactl_meaning.specs.Contractum.{given_names};
ghost use Rattle.dactl_symbols.specs.Scoping.{seen_in};
ghost use Rattle.dactl_symbols.specs.Least.{TellsLeast};
ghost use Rattle.dactl_contractum.specs.Drawing.{core_of, sketch_of, mention_of, made_in};
ghost use Rattle.dactl_contractum.specs.Drawing.{mentioned_in};
ghost use Rattle.dactl_names.specs.Found.{found};
ghost use Rattle.dactl_contractum.specs.Numbers.{node_number, variable_number};
ghost use Rattle.dactl_contractum.specs.Told as told;

use crate::contractum::Contractum;
use crate::drawing::{Core, Mentioned, Sketch};
use crate::suspending::is_suspending;
use crate::variables::Variables;
use crate::viewing::Viewer;
use dactl_base::refusal::{Kind, Memory, Place, Refusal};
use dactl_meaning::tree::Marks;
use dactl_names::NameMap;
use dactl_symbols::least::lesser;
use dactl_symbols::sight::Seen;
use std::alloc::Global;

/// How many arguments a symbol may have.
const MOST_ARGUMENTS: usize = 16;

/// Adds the fault, if it holds.
///
/// # Errors
///
/// Want of memory. The faults so far stay.
pub fn fault_at(
    faults: &mut Vec<Refusal>,
    holds: bool,
    kind: Kind,
    place: Place,
) -> Result<(), Memory>
    ensures { OnOk result (faults.new.items ≡ faults.old.items ++ told.fault_at holds kind place) }
{
    if holds {
        faults.push(Refusal { kind, place })?;
    }
    Ok(())
}

fn core_fault(faults: &mut Vec<Refusal>, holds: bool, kind: Kind, core: Core) -> Result<(), Memory>
    ensures { OnOk result
        (faults.new.items ≡ faults.old.items ++ told.core_fault holds kind (core_of core.entry)) }
{
    match core {
        Core::Number(_) | Core::Character(_) => Ok(()),
        Core::Of(name) => fault_at(faults, holds, kind, name.place),
    }
}

/// Adds a `TooWide` for each new node with too many arguments.
fn too_wide(faults: &mut Vec<Refusal>, made: &[Sketch]) -> Result<(), Memory>
    ensures { OnOk result
        (faults.new.items ≡ faults.old.items ++ flat_map told.wide_at (map sketch_of made.now)) }
{
    for sketch in made {
        let holds = sketch.arcs.len() > MOST_ARGUMENTS;
        core_fault(faults, holds, Kind::TooWide, sketch.core)?;
    }
    Ok(())
}

/// The number of the symbol that the module sees under the name of a new node, 0 where it sees
/// none, and whether it sees a pattern there.
fn symbol_or_pattern(viewer: Viewer, core: Core) -> (u32, bool)
    ensures symbol { result.0
        ≡ told.core_symbol (seen_in viewer.entry.scopes.now viewer.entry.owner)
        (core_of core.entry) }
    ensures pattern { result.1
        ≡ told.names_pattern (seen_in viewer.entry.scopes.now viewer.entry.owner)
        (core_of core.entry) }
{
    match core {
        Core::Number(_) | Core::Character(_) => (0, false),
        Core::Of(name) => match viewer.scopes.look(viewer.owner, name.text.as_slice()) {
            Some(Seen::Symbol { id, .. }) => (id, false),
            Some(Seen::Pattern { .. }) => (0, true),
            None => (0, false),
        },
    }
}

/// Adds a `NotCreatable` for each new node under the name of a pattern, and tells the numbers of
/// the new nodes' symbols. Each name is looked up once.
fn not_creatable(
    alloc: Global,
    faults: &mut Vec<Refusal>,
    viewer: Viewer,
    made: &[Sketch],
) -> Result<Vec<u32>, Memory>
    ensures faults { OnOk result
        (faults.new.items ≡ faults.old.items
        ++ flat_map (told.creatable_at (seen_in viewer.entry.scopes.now viewer.entry.owner))
        (map sketch_of made.now)) }
    ensures symbols { IfOk result
        (λ s. s.items
        ≡ map (told.symbol_at (seen_in viewer.entry.scopes.now viewer.entry.owner))
        (map sketch_of made.now)) }
{
    let mut symbols = Vec::with_capacity(alloc, made.len())?;
    for sketch in made {
        let (symbol, is_pattern) = symbol_or_pattern(viewer, sketch.core);
        core_fault(faults, is_pattern, Kind::NotCreatable, sketch.core)?;
        symbols.push(symbol)?;
    }
    Ok(symbols)
}

fn waits_fault(faults: &mut Vec<Refusal>, flags: usize, marks: Marks) -> Result<(), Memory>
    ensures { OnOk result (faults.new.items ≡ faults.old.items ++ told.waits_fault flags marks) }
{
    match marks {
        Marks::Plain | Marks::Star { .. } => Ok(()),
        Marks::Hashes { place, count } => {
            fault_at(faults, flags < count as usize, Kind::TooManyWaits, place)
        }
    }
}

/// Adds a `TooManyWaits` for each new node with more `#` than arcs that wait.
fn too_many_waits(faults: &mut Vec<Refusal>, made: &[Sketch]) -> Result<(), Memory>
    ensures { OnOk result
        (faults.new.items ≡ faults.old.items ++ flat_map told.waits_at (map sketch_of made.now)) }
{
    for sketch in made {
        waits_fault(faults, sketch.flags(), sketch.term.marks)?;
    }
    Ok(())
}

/// Whether the name is that of a variable or of a new node.
pub(crate) fn is_bound(variables: &Variables, given: &NameMap<usize>, name: &[u8]) -> bool
    ensures { result
        ≡ (is_some (variable_number variables.now name.now) || is_some (found given.now name.now)) }
{
    variables.number(name).is_some() || given.get(name).is_some()
}

/// Adds an `Unbound` for each mention of a name that is not bound.
fn unbound(
    faults: &mut Vec<Refusal>,
    variables: &Variables,
    given: &NameMap<usize>,
    mentions: &[Mentioned],
) -> Result<(), Memory>
    ensures { OnOk result
        (faults.new.items ≡ faults.old.items
        ++ flat_map
        (told.unbound_at
        (λ w. is_some (variable_number variables.now w) || is_some (found given.now w)))
        (map mention_of mentions.now)) }
{
    for mention in mentions {
        let name = mention.name;
        let holds = !is_bound(variables, given, name.text.as_slice());
        fault_at(faults, holds, Kind::Unbound, name.place)?;
    }
    Ok(())
}

fn mark_fault(
    faults: &mut Vec<Refusal>,
    bound: bool,
    variable: bool,
    root: bool,
    marks: Marks,
) -> Result<(), Memory>
    ensures { OnOk result
        (faults.new.items ≡ faults.old.items ++ told.mark_fault bound variable root marks) }
{
    match marks {
        Marks::Plain => Ok(()),
        Marks::Star { place } => fault_at(faults, bound && !variable, Kind::MarkOnBound, place),
        Marks::Hashes { place, .. } => fault_at(faults, bound && !root, Kind::MarkOnBound, place),
    }
}

/// Adds a `MarkOnBound` for a mention of a bound name with a mark that it may not have. A name
/// without marks, as most are, is not looked up.
fn mention_fault(
    faults: &mut Vec<Refusal>,
    variables: &Variables,
    roots: &Variables,
    given: &NameMap<usize>,
    mention: Mentioned,
) -> Result<(), Memory>
    ensures { OnOk result
        (faults.new.items ≡ faults.old.items
        ++ told.mark_at
        (λ w. is_some (variable_number variables.now w) || is_some (found given.now w))
        (is_among variables.now) (is_among roots.now) (mention_of mention.entry)) }
{
    match mention.marks {
        Marks::Plain => Ok(()),
        marks => {
            let name = mention.name.text.as_slice();
            let bound = is_bound(variables, given, name);
            let variable = variables.contains(name);
            let root = roots.contains(name);
            mark_fault(faults, bound, variable, root, marks)
        }
    }
}

/// Adds a `MarkOnBound` for each mention of a bound name with a mark that it may not have.
fn mark_on_bound(
    faults: &mut Vec<Refusal>,
    variables: &Variables,
    roots: &Variables,
    given: &NameMap<usize>,
    mentions: &[Mentioned],
) -> Result<(), Memory>
    ensures { OnOk result
        (faults.new.items ≡ faults.old.items
        ++ flat_map
        (told.mark_at
        (λ w. is_some (variable_number variables.now w) || is_some (found given.now w))
        (is_among variables.now) (is_among roots.now)) (map mention_of mentions.now)) }
{
    for mention in mentions {
        mention_fault(faults, variables, roots, given, *mention)?;
    }
    Ok(())
}

/// Adds the fault at the first mark, if it holds.
fn fault_at_mark(faults: &mut Vec<Refusal>, holds: bool, marks: Marks) -> Result<(), Memory>
    ensures { OnOk result (faults.new.items ≡ faults.old.items ++ told.fault_at_mark holds marks) }
{
    match marks {
        Marks::Plain => Ok(()),
        Marks::Star { place } => fault_at(faults, holds, Kind::MarkOnBound, place),
        Marks::Hashes { place, .. } => fault_at(faults, holds, Kind::MarkOnBound, place),
    }
}

/// Adds a `MarkOnBound` for each mention that makes the root wait again, apart from the first.
fn suspended_again(
    faults: &mut Vec<Refusal>,
    roots: &Variables,
    mentions: &[Mentioned],
) -> Result<(), Memory>
    ensures { OnOk result
        (faults.new.items ≡ faults.old.items
        ++ told.faults_again (told.suspensions_in roots.now (map mention_of mentions.now))) }
{
    let mut found = false;
    for mention in mentions {
        if is_suspending(roots, *mention) {
            fault_at_mark(faults, found, mention.marks)?;
            found = true;
        }
    }
    Ok(())
}

/// Adds a `NamedTwice` for each name that is given and is a variable or was given before.
fn named_twice(
    alloc: Global,
    faults: &mut Vec<Refusal>,
    variables: &Variables,
    made: &[Sketch],
) -> Result<(), Memory>
    ensures { OnOk result
        (faults.new.items ≡ faults.old.items
        ++ each_at Kind.NamedTwice
        (map place_of (again variables.now (given_names (map sketch_of made.now))))) }
{
    let mut seen = NameMap::new(alloc);
    for sketch in made {
        if let Some(name) = &sketch.term.name {
            let word = name.text.as_slice();
            let known = is_bound(variables, &seen, word);
            seen.note(alloc, word, 0)?;
            fault_at(faults, known, Kind::NamedTwice, name.place)?;
        }
    }
    Ok(())
}

/// Adds the faults of a contractum, kind by kind; `roots` are the names of its root that may have
/// `#`. Tells the numbers of the new nodes' symbols, 0 for a node without one.
///
/// # Errors
///
/// Want of memory. There may then be faults missing.
pub fn contractum_faults(
    alloc: Global,
    faults: &mut Vec<Refusal>,
    viewer: Viewer,
    variables: &Variables,
    roots: &Variables,
    contractum: &Contractum,
) -> Result<Vec<u32>, Memory>
    requires { (w : List ℕ) → found contractum.now.given w
        ≡ node_number (made_in contractum.now.drawing) w }
    ensures faults { OnOk result
        (faults.new.items ≡ faults.old.items
        ++ told.drawn_faults (seen_in viewer.entry.scopes.now viewer.entry.owner) variables.now
        roots.now (made_in contractum.now.drawing) (mentioned_in contractum.now.drawing)) }
    ensures symbols { IfOk result
        (λ s. s.items
        ≡ map (told.symbol_at (seen_in viewer.entry.scopes.now viewer.entry.owner))
        (made_in contractum.now.drawing)) }
{
    let made = contractum.drawing.made.as_slice();
    let mentions = contractum.drawing.mentions.as_slice();
    too_wide(faults, made)?;
    unbound(faults, variables, &contractum.given, mentions)?;
    named_twice(alloc, faults, variables, made)?;
    let symbols = not_creatable(alloc, faults, viewer, made)?;
    mark_on_bound(faults, variables, roots, &contractum.given, mentions)?;
    suspended_again(faults, roots, mentions)?;
    too_many_waits(faults, made)?;
    Ok(symbols)
}

/// The first of the faults: by place, and at one place by the order of the kinds.
pub fn first(faults: &[Refusal]) -> Option<Refusal>
    ensures { TellsLeast (Contains faults.now) result }
{
    let mut least = None;
    for fault in faults {
        least = lesser(least, Some(*fault));
    }
    least
}
