//! The end line and the trace, gathered on a page.

ghost use Rattle.std.specs.Prelude.{◌≡◌, ℕ, List};
ghost use Rattle.dactl_print.specs.Printing.{Prints};
ghost use Rattle.dactl_print.specs.Texts.{end_word, end_line, event_text, entry_line, trace_lines};

use crate::page::Page;
use dactl_base::sink::Sink;
use dactl_base::source::Failed;
use dactl_model::graph::{End, Entry, Event};

fn word_of(end: &End) -> &'static [u8]
    ensures { result.now ≡ end_word end.now }
{
    match end {
        End::Normal => b"normal ",
        End::Budget => b"budget ",
        End::Full { .. } => b"full ",
    }
}

/// Gathers the end line.
///
/// # Errors
///
/// `Failed` where the sink fails. It may have taken a front of what was gathered and of the line;
/// nothing is gathered then.
pub fn gather_end<K: Sink>(
    end: &End,
    entries: u32,
    page: &mut Page,
    sink: &mut K,
) -> Result<(), Failed>
    ensures { Prints (K.holds sink.old) (K.holds sink.new) (K.faults sink.old) (K.faults sink.new)
        page.old page.new result (end_line end.now entries) }
{
    page.gather(sink, word_of(end))?;
    page.gather_number(sink, entries as u64)?;
    page.gather(sink, b"\n")
}

fn gather_event<K: Sink>(event: Event, page: &mut Page, sink: &mut K) -> Result<(), Failed>
    ensures { Prints (K.holds sink.old) (K.holds sink.new) (K.faults sink.old) (K.faults sink.new)
        page.old page.new result (event_text event) }
{
    match event {
        Event::Fire { node, rule } => {
            page.gather(sink, b" fire ")?;
            page.gather_number(sink, node.number as u64)?;
            page.gather(sink, b" ")?;
            page.gather_number(sink, rule as u64)
        }
        Event::Note { node } => {
            page.gather(sink, b" note ")?;
            page.gather_number(sink, node.number as u64)
        }
    }
}

fn gather_entry<K: Sink>(
    number: u64,
    entry: Entry,
    page: &mut Page,
    sink: &mut K,
) -> Result<(), Failed>
    ensures { Prints (K.holds sink.old) (K.holds sink.new) (K.faults sink.old) (K.faults sink.new)
        page.old page.new result (entry_line number entry) }
{
    page.gather_number(sink, number)?;
    page.gather(sink, b" w")?;
    page.gather_number(sink, entry.worker as u64)?;
    gather_event(entry.event, page, sink)?;
    page.gather(sink, b"\n")
}

/// Gathers a line for each entry, numbered from 1.
///
/// # Errors
///
/// `Failed` where the sink fails. It may have taken a front of what was gathered and of the lines;
/// nothing is gathered then.
pub fn gather_trace<K: Sink>(journal: &[Entry], page: &mut Page, sink: &mut K) -> Result<(), Failed>
    ensures { Prints (K.holds sink.old) (K.holds sink.new) (K.faults sink.old) (K.faults sink.new)
        page.old page.new result (trace_lines journal.now) }
{
    let mut number = 1u64;
    for entry in journal {
        gather_entry(number, *entry, page, sink)?;
        number += 1;
    }
    Ok(())
}
