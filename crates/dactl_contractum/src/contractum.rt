//! The terms of a contractum, drawn.
ghost use Rattle.std.specs.Prelude.{◌≡◌, ℕ, ◌<◌, ◌^◌, true, IfOk, length, List, map, Some};
ghost use Rattle.dactl_validity.specs.Counting.{arcs_of, AreCounted};
ghost use Rattle.dactl_contractum.specs.Drawing.{made_in, sketch_of};
ghost use Rattle.dactl_names.specs.Found.{found};
ghost use Rattle.dactl_contractum.specs.Numbers.{node_number};
ghost use Rattle.dactl_contractum.specs.Terms.{seen, AreDrawn};

use crate::drawing::{Drawing, MOST_NODES, Sketch, Target, term};
use dactl_base::refusal::Memory;
use dactl_meaning::tree::TermTree;
use dactl_names::NameMap;
use std::alloc::{AllocError, Global};

/// Most contracta of rules make and mention no more than so many nodes: the room that `draw` gets
/// for one of them.
pub const USUAL: usize = 16;

/// A contractum as `draw` makes it: what its terms make and mention, what each of them stands for,
/// and the numbers of the new nodes that have names.
#[derive(Drop)]
pub struct Contractum<'a> {
    pub(crate) drawing: Drawing<'a>,
    pub(crate) targets: Vec<Target<'a>>,
    pub(crate) given: NameMap<usize>,
}

/// The numbers of the new nodes that have names.
fn given(alloc: Global, made: &[Sketch]) -> Result<NameMap<usize>, Memory>
    ensures { IfOk result
        (λ table. (w : List ℕ) → found table w ≡ node_number (map sketch_of made.now) w) }
{
    let mut numbers = NameMap::new(alloc);
    for (number, sketch) in made.iter().enumerate() {
        if let Some(name) = &sketch.term.name {
            numbers.note(alloc, name.text.as_slice(), number)?;
        }
    }
    Ok(numbers)
}

/// How many arcs the new nodes have together, if that has a number.
fn arc_count(made: &[Sketch]) -> Option<usize>
    ensures { (n : ℕ) → result ≡ Some n → n ≡ arcs_of (map sketch_of made.now) }
{
    let mut count: usize = 0;
    for sketch in made {
        count = count.checked_add(sketch.arcs.len())?;
    }
    Some(count)
}

/// Whether the numbers of the arcs fit.
fn has_few_arcs(made: &[Sketch]) -> bool
    ensures { result ≡ true → arcs_of (map sketch_of made.now) < 2 ^ 31 }
{
    match arc_count(made) {
        Some(count) => count <= MOST_NODES,
        None => false,
    }
}

/// Draws the terms of a contractum, in their order, with room for so many new nodes at once. What
/// a name stands for is not looked for yet.
///
/// # Errors
///
/// Want of memory, which more new nodes or arcs than have numbers of 31 bits are too.
pub fn draw<'a>(
    alloc: Global,
    terms: &[&'a TermTree],
    room: usize,
) -> Result<Contractum<'a>, Memory>
    ensures drawn { IfOk result (λ c. AreDrawn (seen terms.now) c.drawing c.targets.items) }
    ensures small { IfOk result (λ c. length c.drawing.made.items < 2 ^ 31) }
    ensures counts { IfOk result (λ c. AreCounted (made_in c.drawing)) }
    ensures given { IfOk result
        (λ c. (w : List ℕ) → found c.given w ≡ node_number (made_in c.drawing) w) }
{
    let mut drawing = Drawing {
        made: Vec::with_capacity(alloc, room)?,
        mentions: Vec::with_capacity(alloc, USUAL)?,
    };
    let mut targets = Vec::with_capacity(alloc, terms.len())?;
    for tree in terms {
        targets.push(term(alloc, &mut drawing, tree)?)?;
    }
    if drawing.made.len() > MOST_NODES || !has_few_arcs(drawing.made.as_slice()) {
        return Err(AllocError);
    }
    let given = given(alloc, drawing.made.as_slice())?;
    Ok(Contractum {
        drawing,
        targets,
        given,
    })
}
