//! Whether a journal is a reduction, entry by entry.
ghost use Rattle.std.specs.Prelude.{IfOk};
ghost use Rattle.dactl_model.specs.Programs.{IsValid};
ghost use Rattle.dactl_plain.specs.Replaying.{IsReplayed};

use crate::starting::start_graph;
use crate::stepping::step;
use dactl_model::Memory;
use dactl_model::graph::{Entry, Graph};
use dactl_model::program::Program;
use std::alloc::Global;

/// The graph to which the journal leads from the program's first one, or none where an entry is
/// no step from the graph before it. Each entry takes one pass over the graph's arcs.
///
/// # Errors
///
/// When memory is wanting, or a rule fires in a graph of 2^31 nodes or more.
pub fn replay(alloc: Global, program: &Program, journal: &[Entry]) -> Result<Option<Graph>, Memory>
    requires { IsValid program.now }
    ensures { IfOk result (IsReplayed program.now journal.now) }
{
    let mut graph = start_graph(alloc, program)?;
    for entry in journal {
        match step(alloc, program, graph, entry.event)? {
            Some(after) => graph = after,
            None => return Ok(None),
        }
    }
    Ok(Some(graph))
}
