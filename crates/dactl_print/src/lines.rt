//! The lines of a graph, gathered on a page.

ghost use Rattle.std.specs.Prelude.{◌≡◌, ℕ, ◌<◌, ◌≤◌, ◌++◌, List, []};
ghost use Rattle.std.specs.Prelude.{length, drop, cond, replicate, codes};
ghost use Rattle.dactl_model.specs.Graphs.{HasNode, HasArity, IsSmall, IsWellFormed, node_at};
ghost use Rattle.dactl_print.specs.Printing.{Prints};
ghost use Rattle.dactl_print.specs.Lines.{mark_text, label_text, argument, further_arguments};
ghost use Rattle.dactl_print.specs.Lines.{arguments, arcs_of, content, line_number};
ghost use Rattle.dactl_print.specs.Lines.{node_line, graph_lines, IsLabelAmong, HasSymbolsOf};
ghost use Rattle.dactl_print.specs.Walks.{AreNodesOf};

use crate::page::Page;
use crate::walk::Walk;
use dactl_base::sink::Sink;
use dactl_base::source::Failed;
use dactl_model::graph::{Arc, Label, Mark, NodeId};
use dactl_model::program::Program;
use dactl_model::view::View;

fn gather_signs<K: Sink>(count: u8, page: &mut Page, sink: &mut K) -> Result<(), Failed>
    ensures { Prints (K.holds sink.old) (K.holds sink.new) (K.faults sink.old) (K.faults sink.new)
        page.old page.new result (replicate count 35) }
{
    for _ in 0..count {
        page.gather(sink, b"#")?;
    }
    Ok(())
}

fn gather_mark<K: Sink>(mark: Mark, page: &mut Page, sink: &mut K) -> Result<(), Failed>
    ensures { Prints (K.holds sink.old) (K.holds sink.new) (K.faults sink.old) (K.faults sink.new)
        page.old page.new result (mark_text mark) }
{
    match mark {
        Mark::Idle => Ok(()),
        Mark::Active => page.gather(sink, b"*"),
        Mark::Waiting(count) => gather_signs(count, page, sink),
    }
}

fn gather_label<K: Sink>(
    program: &Program,
    label: Label,
    page: &mut Page,
    sink: &mut K,
) -> Result<(), Failed>
    requires { IsLabelAmong (length program.now.symbols) label }
    ensures { Prints (K.holds sink.old) (K.holds sink.new) (K.faults sink.old) (K.faults sink.new)
        page.old page.new result (label_text program.now label) }
{
    match label {
        Label::Symbol(number) => {
            let symbol = &program.symbols.as_slice()[number as usize];
            page.gather(sink, symbol.name.as_slice())
        }
        Label::Integer(value) => page.gather_integer(sink, value),
        Label::Character(byte) => page.gather(sink, &[b'\'', byte, b'\'']),
    }
}

fn flag_of(arc: Arc) -> &'static [u8]
    ensures { result.now ≡ cond arc.waits (codes "^") [] }
{
    if arc.waits { b"^" } else { b"" }
}

// Gathers what leads to an argument, and the argument.
fn gather_argument<K: Sink>(
    lead: &[u8],
    arc: Arc,
    walk: &Walk,
    page: &mut Page,
    sink: &mut K,
) -> Result<(), Failed>
    requires { arc.target.number < walk.now.room }
    ensures { Prints (K.holds sink.old) (K.holds sink.new) (K.faults sink.old) (K.faults sink.new)
        page.old page.new result (lead.now ++ argument walk.now.order arc) }
{
    page.gather(sink, lead)?;
    page.gather(sink, flag_of(arc))?;
    page.gather(sink, b"@")?;
    page.gather_number(sink, walk.number(arc.target) as u64)
}

// Gathers the arguments after the first one, and the bracket.
fn gather_further<V: View, K: Sink>(
    view: &V,
    node: NodeId,
    arity: u32,
    walk: &Walk,
    page: &mut Page,
    sink: &mut K,
) -> Result<(), Failed>
    requires formed { IsWellFormed (V.graph view.now) }
    requires small { IsSmall (V.graph view.now) }
    requires node { HasNode (V.graph view.now) node }
    requires arity { HasArity (V.graph view.now) node arity }
    requires room { length (V.graph view.now).nodes ≤ walk.now.room }
    ensures { Prints (K.holds sink.old) (K.holds sink.new) (K.faults sink.old) (K.faults sink.new)
        page.old page.new result
        (further_arguments walk.now.order (drop 1 (arcs_of (node_at (V.graph view.now) node)))) }
{
    for place in 1..arity {
        gather_argument(b" ", view.arc(node, place), walk, page, sink)?;
    }
    page.gather(sink, b"]")
}

fn gather_arguments<V: View, K: Sink>(
    view: &V,
    node: NodeId,
    walk: &Walk,
    page: &mut Page,
    sink: &mut K,
) -> Result<(), Failed>
    requires formed { IsWellFormed (V.graph view.now) }
    requires small { IsSmall (V.graph view.now) }
    requires node { HasNode (V.graph view.now) node }
    requires room { length (V.graph view.now).nodes ≤ walk.now.room }
    ensures { Prints (K.holds sink.old) (K.holds sink.new) (K.faults sink.old) (K.faults sink.new)
        page.old page.new result
        (arguments walk.now.order (arcs_of (node_at (V.graph view.now) node))) }
{
    let arity = view.arity(node);
    if arity == 0 {
        return Ok(());
    }
    gather_argument(b"[", view.arc(node, 0), walk, page, sink)?;
    gather_further(view, node, arity, walk, page, sink)
}

fn gather_content<V: View, K: Sink>(
    view: &V,
    program: &Program,
    node: NodeId,
    walk: &Walk,
    page: &mut Page,
    sink: &mut K,
) -> Result<(), Failed>
    requires formed { IsWellFormed (V.graph view.now) }
    requires small { IsSmall (V.graph view.now) }
    requires symbols { HasSymbolsOf program.now (V.graph view.now) }
    requires node { HasNode (V.graph view.now) node }
    requires room { length (V.graph view.now).nodes ≤ walk.now.room }
    ensures { Prints (K.holds sink.old) (K.holds sink.new) (K.faults sink.old) (K.faults sink.new)
        page.old page.new result
        (content program.now walk.now.order (node_at (V.graph view.now) node)) }
{
    let mark = view.mark(node);
    let label = view.label(node);
    gather_mark(mark, page, sink)?;
    gather_label(program, label, page, sink)?;
    gather_arguments(view, node, walk, page, sink)?;
    page.gather(sink, b"\n")
}

fn gather_line_number<K: Sink>(
    node: NodeId,
    walk: &Walk,
    page: &mut Page,
    sink: &mut K,
) -> Result<(), Failed>
    requires { node.number < walk.now.room }
    ensures { Prints (K.holds sink.old) (K.holds sink.new) (K.faults sink.old) (K.faults sink.new)
        page.old page.new result (line_number walk.now.order node) }
{
    page.gather(sink, b"@")?;
    page.gather_number(sink, walk.number(node) as u64)?;
    page.gather(sink, b" ")
}

fn gather_node<V: View, K: Sink>(
    view: &V,
    program: &Program,
    node: NodeId,
    walk: &Walk,
    page: &mut Page,
    sink: &mut K,
) -> Result<(), Failed>
    requires formed { IsWellFormed (V.graph view.now) }
    requires small { IsSmall (V.graph view.now) }
    requires symbols { HasSymbolsOf program.now (V.graph view.now) }
    requires node { HasNode (V.graph view.now) node }
    requires room { length (V.graph view.now).nodes ≤ walk.now.room }
    ensures { Prints (K.holds sink.old) (K.holds sink.new) (K.faults sink.old) (K.faults sink.new)
        page.old page.new result (node_line program.now (V.graph view.now) walk.now.order node) }
{
    gather_line_number(node, walk, page, sink)?;
    gather_content(view, program, node, walk, page, sink)
}

/// Gathers a line for each node that was visited.
///
/// # Errors
///
/// `Failed` where the sink fails. It may have taken a front of what was gathered and of the lines;
/// nothing is gathered then.
pub fn gather_graph<V: View, K: Sink>(
    view: &V,
    program: &Program,
    walk: &Walk,
    page: &mut Page,
    sink: &mut K,
) -> Result<(), Failed>
    requires formed { IsWellFormed (V.graph view.now) }
    requires small { IsSmall (V.graph view.now) }
    requires symbols { HasSymbolsOf program.now (V.graph view.now) }
    requires nodes { AreNodesOf (V.graph view.now) walk.now.order }
    requires room { length (V.graph view.now).nodes ≤ walk.now.room }
    ensures { Prints (K.holds sink.old) (K.holds sink.new) (K.faults sink.old) (K.faults sink.new)
        page.old page.new result (graph_lines program.now (V.graph view.now) walk.now.order) }
{
    let order = walk.order();
    for node in order {
        gather_node(view, program, *node, walk, page, sink)?;
    }
    Ok(())
}
