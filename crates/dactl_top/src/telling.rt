//! Telling an outcome, and keeping what it leaves.

ghost use Rattle.std.specs.Prelude.{◌≡◌, ℕ, List, Some};
ghost use Rattle.dactl_print.specs.Lines.{IsGraphText};
ghost use Rattle.dactl_top.specs.Calls.{HasNothing};
ghost use Rattle.dactl_top.specs.Devices.{sink_change};
ghost use Rattle.dactl_top.specs.Outcomes.{Gives, IsKept, IsTold, SameGiven};
ghost use Rattle.dactl_top.specs.Outcomes.{run_text, status_of_end, status_of_verdict};
ghost use Rattle.dactl_top.specs.Preparing.{IsPrintable};
ghost use Rattle.dactl_top.specs.Telling.{IsTellable};

use crate::kept::Kept;
use crate::outcome::Outcome;
use crate::output::write_run;
use crate::status::Status;
use dactl_base::sink::{Sink, write_all};
use dactl_crew::EndedRun;
use dactl_model::graph::End;
use dactl_print::printer::Numbering;
use dactl_verify::Verdict;

// The answer that tells an end.
fn status_of(ended: End) -> Status
    ensures { result ≡ status_of_end ended }
{
    match ended {
        End::Normal => Status::Normal,
        End::Budget => Status::Budget,
        End::Full { .. } => Status::Full,
    }
}

// The answer that tells what the check of a trace found.
fn status_of_found(verdict: Verdict) -> Status
    ensures { result ≡ status_of_verdict verdict }
{
    match verdict {
        Verdict::Valid => Status::Verified,
        Verdict::Wrong { .. } => Status::Invalid,
        Verdict::Full { .. } => Status::NoRoom,
        Verdict::Small { .. } => Status::Small,
    }
}

// Writes a line: the wanted answer, or WriteFault where the sink fails.
fn give<K: Sink>(sink: &mut K, line: &[u8], wanted: Status) -> Status
    ensures { Gives (sink_change K.holds K.faults sink.old sink.new) line.now wanted result }
{
    match write_all(sink, line) {
        Ok(()) => wanted,
        Err(_) => Status::WriteFault,
    }
}

// Writes the output of a run: the answer that tells its end, or WriteFault where the sink fails.
fn give_run<K: Sink>(sink: &mut K, run: &EndedRun, trace: bool, numbering: &mut Numbering) -> Status
    requires { IsPrintable run.now numbering.old }
    ensures { (text : List ℕ) → IsGraphText run.now.program run.now.store.graph text
        → Gives (sink_change K.holds K.faults sink.old sink.new) (run_text run.now trace text)
        (status_of_end run.now.ended) result }
{
    match write_run(run, trace, numbering, sink) {
        Ok(()) => status_of(run.ended),
        Err(_) => Status::WriteFault,
    }
}

// Keeps a run.
fn keep_run(run: EndedRun, kept: &mut Kept)
    ensures { kept.new ≡ record kept.old {
      program = Some run.program;
      journal = run.journal;
      end = Some run.ended;
      reports = run.reports;
      left = run.left;
    } }
{
    let EndedRun {
        program,
        store: _,
        journal,
        ended,
        reports,
        left,
    } = run;
    kept.program = Some(program);
    kept.journal = journal;
    kept.end = Some(ended);
    kept.reports = reports;
    kept.left = left;
}

/// Tells an outcome and keeps what it leaves. Takes no memory.
pub fn conclude<K: Sink>(sink: &mut K, outcome: Outcome, kept: &mut Kept) -> Status
    requires tellable { IsTellable outcome }
    requires nothing { HasNothing kept.old }
    ensures told { IsTold outcome (sink_change K.holds K.faults sink.old sink.new) result }
    ensures kept { IsKept outcome kept.new }
    ensures given { SameGiven kept.old kept.new }
{
    match outcome {
        Outcome::Usage => give(sink, b"usage: dactl [OPTIONS] < TEXT\n", Status::Usage),
        Outcome::ReadFault => give(sink, b"read fault\n", Status::ReadFault),
        Outcome::TooLong => give(sink, b"too long\n", Status::TooLong),
        Outcome::Memory => give(sink, b"memory\n", Status::Memory),
        Outcome::NoPart => give(sink, b"missing part\n", Status::NoPart),
        Outcome::Refused { refusal, line } => {
            kept.refusal = Some(refusal);
            give(sink, line.as_slice(), Status::Refused)
        }
        Outcome::Checked(program) => {
            kept.program = Some(program);
            give(sink, b"ok\n", Status::Checked)
        }
        Outcome::BadGraph { program, line, .. } => {
            kept.program = Some(program);
            give(sink, line.as_slice(), Status::BadGraph)
        }
        Outcome::Small { program, line } => {
            kept.program = Some(program);
            give(sink, line.as_slice(), Status::Small)
        }
        Outcome::Judged {
            program,
            verdict,
            journal,
            line,
        } => {
            kept.program = Some(program);
            kept.journal = journal;
            give(sink, line.as_slice(), status_of_found(verdict))
        }
        Outcome::Ran {
            run,
            trace,
            mut numbering,
        } => {
            let status = give_run(sink, &run, trace, &mut numbering);
            keep_run(run, kept);
            status
        }
    }
}
