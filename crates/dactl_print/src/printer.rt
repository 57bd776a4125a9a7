//! The calls that print.

ghost use Rattle.std.specs.Prelude.{◌≡◌, ℕ, ◌≤◌, List, [], length, IfOk};
ghost use Rattle.dactl_model.specs.Graphs.{IsWellFormed};
ghost use Rattle.dactl_print.specs.Printing.{Gathering, Prints};
ghost use Rattle.dactl_print.specs.Texts.{end_line, trace_lines};
ghost use Rattle.dactl_print.specs.Lines.{HasSymbolsOf, IsGraphText};

use crate::lines::gather_graph;
use crate::page::Page;
use crate::texts::{gather_end, gather_trace};
use crate::walk::Walk;
use dactl_base::sink::Sink;
use dactl_base::source::Failed;
use dactl_model::Memory;
use dactl_model::graph::{End, Entry};
use dactl_model::program::Program;
use dactl_model::view::View;
use std::alloc::Global;
use std::marker::Model;

/// Room for the numbers of the nodes, and 65,536 bytes in which output is gathered before it is
/// handed on. The calls that print take no further memory.
#[derive(Drop)]
pub struct Numbering {
    walk: Walk,
    page: Page,
}

impl Model for Numbering {
    ghost Value = { Gathering };

    ghost view = { λ n. record {
      room = n.walk.room;
      gathered = n.page;
    } };
}

impl Numbering {
    /// Room for graphs of so many nodes. Nothing is gathered.
    ///
    /// # Errors
    ///
    /// `Memory` where there is not the memory for the numbers or for the bytes.
    pub fn with_room(alloc: Global, nodes: u32) -> Result<Numbering, Memory>
        ensures { IfOk result (λ n. n ≡ record { room = nodes; gathered = [] }) }
    {
        Ok(Numbering {
            walk: Walk::with_room(alloc, nodes)?,
            page: Page::new(alloc)?,
        })
    }
}

/// Prints how the run ended and the number of its entries.
///
/// # Errors
///
/// `Failed` where the sink fails while a full page is handed on. The sink may have taken a front of
/// what was gathered and of the line; nothing is gathered then.
pub fn show_end<K: Sink>(
    end: &End,
    entries: u32,
    numbering: &mut Numbering,
    sink: &mut K,
) -> Result<(), Failed>
    ensures prints { Prints (K.holds sink.old) (K.holds sink.new)
        (K.faults sink.old) (K.faults sink.new)
        numbering.old.gathered numbering.new.gathered result (end_line end.now entries) }
    ensures room { numbering.new.room ≡ numbering.old.room }
{
    gather_end(end, entries, &mut numbering.page, sink)
}

/// Prints a line for each entry of the journal, numbered from 1.
///
/// # Errors
///
/// `Failed` where the sink fails while a full page is handed on. The sink may have taken a front of
/// what was gathered and of the lines; nothing is gathered then.
pub fn show_trace<K: Sink>(
    journal: &[Entry],
    numbering: &mut Numbering,
    sink: &mut K,
) -> Result<(), Failed>
    ensures prints { Prints (K.holds sink.old) (K.holds sink.new)
        (K.faults sink.old) (K.faults sink.new)
        numbering.old.gathered numbering.new.gathered result (trace_lines journal.now) }
    ensures room { numbering.new.room ≡ numbering.old.room }
{
    gather_trace(journal, &mut numbering.page, sink)
}

/// Prints a line for each node that can be reached from the root, numbered from 1 in the order of
/// a visit depth first.
///
/// # Errors
///
/// `Failed` where the sink fails while a full page is handed on. The sink may have taken a front of
/// what was gathered and of the lines; nothing is gathered then.
pub fn show<V: View, K: Sink>(
    view: &V,
    program: &Program,
    numbering: &mut Numbering,
    sink: &mut K,
) -> Result<(), Failed>
    requires formed { IsWellFormed (V.graph view.now) }
    requires room { length (V.graph view.now).nodes ≤ numbering.old.room }
    requires symbols { HasSymbolsOf program.now (V.graph view.now) }
    ensures prints { (text : List ℕ)
        × IsGraphText program.now (V.graph view.now) text
        × Prints (K.holds sink.old) (K.holds sink.new) (K.faults sink.old) (K.faults sink.new)
        numbering.old.gathered numbering.new.gathered result text }
    ensures room { numbering.new.room ≡ numbering.old.room }
{
    numbering.walk.visit(view);
    gather_graph(view, program, &numbering.walk, &mut numbering.page, sink)
}

/// Hands on what is gathered. Nothing is gathered afterwards, also where the sink failed.
///
/// # Errors
///
/// `Failed` where the sink fails. It may have taken a front of what was gathered; the rest is lost.
pub fn flush<K: Sink>(numbering: &mut Numbering, sink: &mut K) -> Result<(), Failed>
    ensures prints { Prints (K.holds sink.old) (K.holds sink.new)
        (K.faults sink.old) (K.faults sink.new)
        numbering.old.gathered numbering.new.gathered result [] }
    ensures empty { numbering.new.gathered ≡ [] }
    ensures room { numbering.new.room ≡ numbering.old.room }
{
    numbering.page.hand_on(sink)
}
