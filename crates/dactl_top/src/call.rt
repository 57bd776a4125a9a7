//! The top call.

ghost use Rattle.std.specs.Prelude.{map};
ghost use Rattle.std.specs.String.{string_bytes};
ghost use Rattle.dactl_top.specs.Calls.{IsAnswered, IsEmpty, call_of};
ghost use Rattle.dactl_top.specs.Devices.{sink_change, source_change};
ghost use Rattle.dactl_top.specs.Exact.{IsOfText, IsExact};
ghost use Rattle.dactl_top.specs.Headline.{IsOfRun, IsRunOfText};
ghost use Rattle.dactl_top.specs.Reasons.{IsCaused, KeepsFaith};

use crate::kept::Kept;
use crate::status::Status;
use crate::steps::answer_words;
use crate::telling::conclude;
use dactl_base::sink::Sink;
use dactl_base::source::Source;
use dactl_workers::Gate;
use std::alloc::Global;
use std::sync::Wait;
use std::thread::Threads;

/// Reads a text, compiles it, runs the program that it means by as many workers as the words ask
/// for, and writes the answer to the sink. `words` are those of the command line, the program's
/// name among them: they say how the text is run and whether it is one of modules or of equations,
/// and may ask for the sample text in place of the source, or for the check of a trace that stands
/// behind the text, in place of a run. Each worker runs in a thread of its own and passes the gate,
/// which may hold it up.
///
/// Memory is taken before the workers start: from then on, all that can keep the answer from being
/// written is the sink. Waits for the workers, and is not promised to return: a thread that is not
/// run holds up all others.
///
/// # Answers
///
/// Of a run:
///
/// - `Normal`: no node is active any more.
/// - `Budget`: the journal has as many entries as the budget, and a node is active.
/// - `Full`: an allowed rule needs more nodes or more arcs than are left.
///
/// In place of a run:
///
/// - `Checked`: with `--check`, the text is a program.
/// - `Verified`, `Invalid`, `NoRoom`: with `--verify`, each line of the trace is right after those
///   before it; a line is not; or a line is right, and its firing does not fit what is left.
/// - `Small`: the first graph, with `--resume` that of the input, does not fit the room.
/// - `Usage`: the words are none that the program takes. The source was not read.
/// - `ReadFault`, `TooLong`: the source failed; or it gave more than 1,048,576 bytes.
/// - `NoPart`: with `--verify` or `--resume`, no line of the input is the marker that is due.
/// - `Refused`: the text has a fault, and the first one is told.
/// - `BadGraph`: with `--resume`, a line of the graph is not as the program prints one.
/// - `Memory`: memory was wanting, and no run was started.
///
/// `WriteFault` stands for each of them where the sink failed: it holds a front of what was due,
/// and all is kept that would have been.
pub fn dactl<R: Threads + Wait + Sync, S: Source, K: Sink, G: Gate + Sync>(
    rt: &R,
    alloc: Global,
    words: &[String],
    source: &mut S,
    sink: &mut K,
    gate: &G,
    kept: &mut Kept,
) -> Status
    requires { IsEmpty kept.old }
    // Something came of the call, for its cause; this is kept of it, and it was told.
    ensures answered { IsAnswered (call_of (map string_bytes words.now)
        (source_change S.left S.faults source.old source.new)
        (sink_change K.holds K.faults sink.old sink.new) kept.new result) }
    // What follows from it: the headline, that each answer comes wherever it is due, and why.
    ensures headline { IsOfRun result → IsRunOfText (call_of (map string_bytes words.now)
        (source_change S.left S.faults source.old source.new)
        (sink_change K.holds K.faults sink.old sink.new) kept.new result) }
    ensures exact { IsOfText result → IsExact (call_of (map string_bytes words.now)
        (source_change S.left S.faults source.old source.new)
        (sink_change K.holds K.faults sink.old sink.new) kept.new result) }
    ensures caused { IsCaused (call_of (map string_bytes words.now)
        (source_change S.left S.faults source.old source.new)
        (sink_change K.holds K.faults sink.old sink.new) kept.new result) }
    // What is kept is so whatever the answer.
    ensures keeps { KeepsFaith (call_of (map string_bytes words.now)
        (source_change S.left S.faults source.old source.new)
        (sink_change K.holds K.faults sink.old sink.new) kept.new result) }
{
    let outcome = answer_words(rt, alloc, words, source, gate, kept);
    conclude(sink, outcome, kept)
}
