//! The print of a graph, in memory.
ghost use Rattle.std.specs.Prelude.{◌≡◌, ◌<◌, ◌^◌, Some, IfOk, length};
ghost use Rattle.dactl_model.specs.Graphs.{IsWellFormed};
ghost use Rattle.dactl_print.specs.Lines.{HasSymbolsOf, IsGraphText};

use dactl_base::sink::Sink;
use dactl_base::source::Failed;
use dactl_model::graph::Graph;
use dactl_model::program::Program;
use dactl_print::printer::{Numbering, flush, show};
use std::alloc::Global;

// A sink in memory. Its only fault is want of memory.
#[derive(Drop)]
struct Printed {
    bytes: Vec<u8>,
    faults: u64,
}

impl Sink for Printed {
    ghost holds = { λ s. Some s.bytes.items };

    ghost faults = { λ s. s.faults };

    fn write(&mut self, piece: &[u8]) -> Result<usize, Failed> {
        match self.bytes.extend_from_slice(piece) {
            Ok(()) => Ok(piece.len()),
            Err(_) => {
                self.faults = self.faults.saturating_add(1);
                Err(Failed)
            }
        }
    }
}

/// The print of the graph.
///
/// # Errors
///
/// `Failed` where there is not the memory for the print, or for the room to number the nodes.
pub fn print_of(alloc: Global, program: &Program, graph: &Graph) -> Result<Vec<u8>, Failed>
    requires formed { IsWellFormed graph.now }
    requires few { length graph.now.nodes < 2 ^ 32 }
    requires symbols { HasSymbolsOf program.now graph.now }
    ensures { IfOk result (λ print. IsGraphText program.now graph.now print.items) }
{
    let count = graph.nodes.len() as u32;
    let Ok(mut numbering) = Numbering::with_room(alloc, count) else {
        return Err(Failed);
    };
    let mut printed = Printed {
        bytes: Vec::new(alloc),
        faults: 0,
    };
    show(graph, program, &mut numbering, &mut printed)?;
    flush(&mut numbering, &mut printed)?;
    Ok(printed.bytes)
}
