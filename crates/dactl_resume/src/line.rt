//! One line of a printed graph, and its node.
ghost use Rattle.std.specs.Prelude.{◌≡◌, ◌≢◌, ◌↔◌, ◌+◌, ◌∷◌, ◌++◌, ◌<◌, ◌^◌};
ghost use Rattle.std.specs.Prelude.{ℕ, List, IfOk, IsTrue, MatchOption};
ghost use Rattle.std.specs.Fmt.{decimal};
ghost use Rattle.dactl_model.specs.declared.graph.Node.{Node as TheNode};
ghost use Rattle.dactl_model.specs.Graphs.{flags, FitsLabel, FitsMark};
ghost use Rattle.dactl_model.specs.Programs.{IsValid};
ghost use Rattle.dactl_resume.specs.Answers.{IsContentOf, IsLineOf};
ghost use Rattle.dactl_resume.specs.Found.{found_in, ArePlaces};
ghost use Rattle.dactl_resume.specs.Parts.{names_of};

use crate::arguments::read_arguments;
use crate::labels::{read_label, read_mark};
use crate::names::Names;
use dactl_base::numbers::{read_number, strip};
use dactl_model::Memory;
use dactl_model::graph::{Arc, Label, Mark, Node};
use dactl_model::program::Program;
use std::alloc::Global;

// What follows the number of the line at this place, and a space.
fn read_head(line: &[u8], place: u32) -> Option<&[u8]>
    requires { place + 1 < 2 ^ 32 }
    ensures { MatchOption result
        ((rest : List ℕ) → line.now ≢ 64 ∷ (decimal (place + 1) ++ (32 ∷ rest)))
        (λ rest. line.now ≡ 64 ∷ (decimal (place + 1) ++ (32 ∷ rest.now))) }
{
    let (number, behind) = read_number(b"@", line)?;
    if number != place + 1 {
        return None;
    }
    let rest = strip(behind, b" ")?;
    Some(rest)
}

fn fits_label(label: Label, arcs: &[Arc]) -> bool
    ensures { IsTrue result ↔ FitsLabel label arcs.now }
{
    match label {
        Label::Symbol(_) => true,
        Label::Integer(_) | Label::Character(_) => arcs.is_empty(),
    }
}

fn count_flags(arcs: &[Arc]) -> usize
    ensures { result ≡ flags arcs.now }
{
    arcs.iter().filter(|arc| arc.waits).count()
}

fn fits_mark(mark: Mark, arcs: &[Arc]) -> bool
    ensures { IsTrue result ↔ FitsMark mark arcs.now }
{
    match mark {
        Mark::Idle | Mark::Active => true,
        Mark::Waiting(awaited) => 1 <= awaited && awaited as usize <= count_flags(arcs),
    }
}

fn fits(node: &Node) -> bool
    ensures { IsTrue result
        ↔ (FitsLabel node.now.label node.now.arcs × FitsMark node.now.mark node.now.arcs) }
{
    let arcs = node.arcs.as_slice();
    fits_label(node.label, arcs) && fits_mark(node.mark, arcs)
}

// The node that mark, label and arguments tell.
fn read_content(
    alloc: Global,
    program: &Program,
    names: &Names,
    count: u32,
    bytes: &[u8],
) -> Result<Option<Node>, Memory>
    requires valid { IsValid program.now }
    requires names { ArePlaces (names_of program.now) (found_in names.now.places) }
    ensures { IfOk result (λ found. MatchOption found
        ((node : TheNode) → IsContentOf program.now count bytes.now node → ⊥)
        (λ node. IsContentOf program.now count bytes.now node)) }
{
    let Some((mark, behind)) = read_mark(bytes) else {
        return Ok(None);
    };
    let Some((label, rest)) = read_label(program, names, behind) else {
        return Ok(None);
    };
    let Some(arcs) = read_arguments(alloc, rest, count)? else {
        return Ok(None);
    };
    let node = Node { label, arcs, mark };
    if fits(&node) {
        Ok(Some(node))
    } else {
        Ok(None)
    }
}

/// The node whose line at this place, from 0, the bytes are, among `count` lines: with the next
/// number, targets among the lines, at most 16 arguments, none behind an integer or a character, at
/// most as many `#` as `^`, and a label of the program. None where they are no such line.
///
/// # Errors
///
/// `Memory` where there is not the memory for the node's arguments.
pub fn read_line(
    alloc: Global,
    program: &Program,
    names: &Names,
    count: u32,
    place: u32,
    line: &[u8],
) -> Result<Option<Node>, Memory>
    requires valid { IsValid program.now }
    requires names { ArePlaces (names_of program.now) (found_in names.now.places) }
    requires place { place < count }
    ensures { IfOk result (λ found. MatchOption found
        ((node : TheNode) → IsLineOf program.now count place line.now node → ⊥)
        (λ node. IsLineOf program.now count place line.now node)) }
{
    match read_head(line, place) {
        Some(bytes) => read_content(alloc, program, names, count, bytes),
        None => Ok(None),
    }
}
