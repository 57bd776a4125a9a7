//! A graph that is read from its print.
ghost use Rattle.std.specs.Prelude.{◌≡◌, ◌≢◌, ◌+◌, ◌≤◌, ◌^◌, ◌<◌, ℕ, []};
ghost use Rattle.std.specs.Prelude.{IfOk, IfErr, MatchResult, length};
ghost use Rattle.dactl_model.specs.Programs.{IsValid};
ghost use Rattle.dactl_resume.specs.Answers.{lines_of, IsGraphOf, IsRead};
ghost use Rattle.dactl_resume.specs.Found.{found_in, ArePlaces};
ghost use Rattle.dactl_resume.specs.Parts.{names_of};
ghost use Rattle.dactl_resume.specs.Resumed.{IsGraphFault, IsLineFault};

use crate::fault::GraphFault;
use crate::line::read_line;
use crate::lines::{count_lines, first_difference};
use crate::names::Names;
use crate::print::print_of;
use dactl_base::line::split_line;
use dactl_model::graph::{Graph, NodeId};
use dactl_model::program::Program;
use sqlite_items::Items;
use std::alloc::Global;

// The graph of the lines, where each has a good form.
fn read_lines(
    alloc: Global,
    program: &Program,
    names: &Names,
    text: &[u8],
) -> Result<Graph, GraphFault>
    requires valid { IsValid program.now }
    requires names { ArePlaces (names_of program.now) (found_in names.now.places) }
    requires few { length text.now ≤ 1048576 }
    ensures read { IfOk result (λ graph. IsGraphOf program.now (lines_of text.now) graph) }
    ensures fault { IfErr result (IsLineFault program.now (lines_of text.now)) }
{
    let count = count_lines(text);
    let mut nodes = Vec::new(alloc);
    let mut rest = text;
    let mut place = 0;
    'lines: while !rest.is_empty() {
        let (line, behind) = split_line(rest);
        match read_line(alloc, program, names, count, place, line)? {
            Some(node) => nodes.push(node)?,
            None => return Err(GraphFault::Bad { line: place + 1 }),
        }
        rest = behind;
        place += 1;
    }
    Ok(Graph {
        nodes: Items::from_vec(nodes),
        root: NodeId { number: 0 },
    })
}

// The graph, where the text is its print.
fn compare(alloc: Global, program: &Program, graph: Graph, text: &[u8]) -> Result<Graph, GraphFault>
    requires valid { IsValid program.now }
    requires few { length text.now ≤ 1048576 }
    requires some { lines_of text.now ≢ [] }
    requires graph { IsGraphOf program.now (lines_of text.now) graph }
    ensures read { IfOk result (IsRead program.now text.now) }
    ensures fault { IfErr result (IsGraphFault program.now text.now) }
{
    let Ok(print) = print_of(alloc, program, &graph) else {
        return Err(GraphFault::Memory);
    };
    match first_difference(text, print.as_slice()) {
        Some(line) => Err(GraphFault::Bad { line }),
        None => Ok(graph),
    }
}

/// Reads a printed graph. The text is to be exactly the print of a graph with the program's
/// symbols, integers and characters: one line a node, in the order of a visit depth first from the
/// root. The nodes of the graph have the numbers of their lines, less one. It takes time in
/// proportion to the text, with a look-up of a name for each line.
///
/// # Errors
///
/// `Bad` tells the first line that is bad: line 1 where the text has none; else the first line that
/// is not the line of a node with the next number, a label of the program, targets among the lines,
/// at most 16 arguments, none behind an integer or a character, and at most as many `#` as `^`;
/// else the first line that differs from the print of the graph that the lines tell, where one that
/// is missing differs too. `Memory` comes where memory is wanting.
pub fn read_graph(alloc: Global, program: &Program, text: &[u8]) -> Result<Graph, GraphFault>
    requires valid { IsValid program.now }
    requires few { length text.now ≤ 1048576 }
    ensures read { IfOk result (IsRead program.now text.now) }
    ensures fault { IfErr result (IsGraphFault program.now text.now) }
{
    if text.is_empty() {
        return Err(GraphFault::Bad { line: 1 });
    }
    let names = Names::new(alloc, program)?;
    let graph = read_lines(alloc, program, &names, text)?;
    compare(alloc, program, graph, text)
}
