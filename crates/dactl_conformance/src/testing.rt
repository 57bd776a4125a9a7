//! What the tests share: a call over a source and a sink in memory.

ghost use Rattle.std.specs.Prelude.{◌<◌};

use dactl_base::memory::{MemorySink, MemorySource};
use dactl_top::dactl;
use dactl_top::kept::Kept;
use dactl_top::status::Status;
use dactl_workers::{Gate, OpenGate};
use std::alloc::{AllocError, Global};
use std::process::Abort;
use std::sync::Wait;
use std::thread::Threads;

/// The words of a command line: the program's name, and those that `words` has with bars between.
pub(crate) fn words_of(alloc: Global, words: &str) -> Result<Vec<String>, AllocError> {
    let mut given = vec![in alloc; String::from_str(alloc, "dactl")?]?;
    for word in words.split('|') {
        if !word.is_empty() {
            given.push(String::from_str(alloc, word)?)?;
        }
    }
    Ok(given)
}

/// `front`, then `part` so many times, then `back`.
pub(crate) fn repeated(
    alloc: Global,
    front: &str,
    part: &str,
    times: usize,
    back: &str,
) -> Result<String, AllocError> {
    let mut text = String::from_str(alloc, front)?;
    for _ in 0..times {
        text.push_str(part)?;
    }
    text.push_str(back)?;
    Ok(text)
}

/// What a call answered and kept, and what its sink holds.
#[derive(Drop)]
pub(crate) struct Answered {
    pub status: Status,
    pub kept: Kept,
    pub sink: MemorySink,
}

impl Answered {
    /// Whether it is this exit code, and the sink holds these bytes.
    pub(crate) fn is(&self, code: u8, output: &[u8]) -> bool {
        self.status.code() == code && self.sink.held() == output
    }
}

/// Calls with these words over this source and this sink, with workers that pass this gate.
pub(crate) fn called_by<R: Threads + Wait + Sync, G: Gate + Sync>(
    rt: &R,
    alloc: Global,
    words: &str,
    source: MemorySource,
    sink: MemorySink,
    gate: &G,
) -> Result<Answered, AllocError> {
    let words = words_of(alloc, words)?;
    let (mut source, mut sink) = (source, sink);
    let mut kept = Kept::empty(alloc);
    let status = dactl(rt, alloc, &words, &mut source, &mut sink, gate, &mut kept);
    Ok(Answered { status, kept, sink })
}

/// Calls with these words over this source and this sink.
pub(crate) fn called_over<R: Threads + Wait + Sync>(
    rt: &R,
    alloc: Global,
    words: &str,
    source: MemorySource,
    sink: MemorySink,
) -> Result<Answered, AllocError> {
    called_by(rt, alloc, words, source, sink, &OpenGate)
}

/// Calls with these words over a source of the text and a sink with enough room, with workers that
/// pass this gate.
pub(crate) fn called_at<R: Threads + Wait + Sync, G: Gate + Sync>(
    rt: &R,
    alloc: Global,
    words: &str,
    text: &str,
    gate: &G,
) -> Result<Answered, AllocError> {
    let bytes = Vec::from_slice(alloc, text.as_bytes())?;
    let source = MemorySource::new(bytes, 1_000, Vec::new(alloc));
    let sink = MemorySink::new(alloc, 4_096, 11, Vec::new(alloc))?;
    called_by(rt, alloc, words, source, sink, gate)
}

/// The same, where nothing holds the workers up.
pub(crate) fn called<R: Threads + Wait + Sync>(
    rt: &R,
    alloc: Global,
    words: &str,
    text: &str,
) -> Result<Answered, AllocError> {
    called_at(rt, alloc, words, text, &OpenGate)
}

/// Calls, and compares the answer with its code and its output.
pub(crate) fn expect<R: Abort + Threads + Wait + Sync>(
    rt: &R,
    alloc: Global,
    words: &str,
    text: &str,
    code: u8,
    output: &str,
) -> Result<(), AllocError> {
    let answered = called(rt, alloc, words, text)?;
    assert!(rt; answered.is(code, output.as_bytes()), "{words} {text}");
    Ok(())
}
