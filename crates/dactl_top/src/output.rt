//! Writing the output of a run.

ghost use Rattle.std.specs.Prelude.{ℕ, List};
ghost use Rattle.dactl_print.specs.Lines.{IsGraphText};
ghost use Rattle.dactl_print.specs.Printing.{Prints};
ghost use Rattle.dactl_top.specs.Devices.{Writes, sink_change};
ghost use Rattle.dactl_top.specs.Outcomes.{run_text, trace_if};
ghost use Rattle.dactl_top.specs.Preparing.{IsPrintable};
ghost use Rattle.std.specs.Prelude.{◌≡◌};

use dactl_base::sink::Sink;
use dactl_base::source::Failed;
use dactl_crew::EndedRun;
use dactl_model::graph::Entry;
use dactl_print::printer::{Numbering, flush, show, show_end, show_trace};

// Prints the journal, where a trace is asked for.
fn show_trace_if<K: Sink>(
    trace: bool,
    journal: &[Entry],
    numbering: &mut Numbering,
    sink: &mut K,
) -> Result<(), Failed>
    ensures prints { Prints (K.holds sink.old) (K.holds sink.new)
        (K.faults sink.old) (K.faults sink.new)
        numbering.old.gathered numbering.new.gathered result (trace_if trace journal.now) }
    ensures room { numbering.new.room ≡ numbering.old.room }
{
    if trace {
        show_trace(journal, numbering, sink)
    } else {
        Ok(())
    }
}

/// Writes how a run ended, its journal where a trace is asked for, and its last graph below the
/// root. Takes no memory.
///
/// # Errors
///
/// `Failed` where the sink fails. It may have taken a front of the output, which is not written
/// further.
pub fn write_run<K: Sink>(
    run: &EndedRun,
    trace: bool,
    numbering: &mut Numbering,
    sink: &mut K,
) -> Result<(), Failed>
    requires { IsPrintable run.now numbering.old }
    ensures { (text : List ℕ) → IsGraphText run.now.program run.now.store.graph text
        → Writes (sink_change K.holds K.faults sink.old sink.new)
        (run_text run.now trace text) result }
{
    let journal = run.journal.as_slice();
    let entries = journal.len() as u32;
    show_end(&run.ended, entries, numbering, sink)?;
    show_trace_if(trace, journal, numbering, sink)?;
    show(&run.store, &run.program, numbering, sink)?;
    flush(numbering, sink)?;
    Ok(())
}
