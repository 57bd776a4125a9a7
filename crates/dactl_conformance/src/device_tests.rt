//! Sources and sinks with faults, and texts up to the greatest length.

ghost use Rattle.std.specs.Prelude.{◌<◌};

use crate::testing::{Answered, called_over};
use dactl_base::memory::{MemorySink, MemorySource};
use dactl_base::refusal::{Kind, Place, Refusal};
use dactl_layers::texts::{APPEND, APPENDED, PAIR};
use std::alloc::{AllocError, Global};

/// What the text of a shared node prints.
const SHARED: &[u8] = b"normal 0\n@1 Pair[@2 @2]\n@2 Nil\n";

// A source of the bytes that gives so many a read.
fn source_of(alloc: Global, bytes: &[u8], chunk: usize) -> Result<MemorySource, AllocError>
    requires { 0 < chunk }
{
    Ok(MemorySource::new(Vec::from_slice(alloc, bytes)?, chunk, Vec::new(alloc)))
}

// A source of `PAIR` that gives one byte a read, and fails at one of its reads.
fn failing_source(alloc: Global, read: u64) -> Result<MemorySource, AllocError> {
    let bytes = Vec::from_slice(alloc, PAIR.as_bytes())?;
    Ok(MemorySource::new(bytes, 1, vec![in alloc; read]?))
}

// A sink with this room that takes so many bytes a write.
fn sink_of(alloc: Global, room: usize, chunk: usize) -> Result<MemorySink, AllocError>
    requires { 0 < chunk }
{
    MemorySink::new(alloc, room, chunk, Vec::new(alloc))
}

// The answer over a source that fails at this read: `PAIR` takes 77 of them, one that finds the end
// included.
fn is_cut_off(answered: &Answered, read: u64) -> bool {
    let (code, held) = if read <= 77 {
        (5, b"read fault\n".as_slice())
    } else {
        (0, SHARED)
    };
    answered.is(code, held) && answered.kept.text.len() as u64 == read.saturating_sub(1).min(76)
}

#[test]
fn sources_fail_at_each_read(rt: HostRuntime) -> Result<(), AllocError> {
    for read in 1..=78 {
        let source = failing_source(rt.alloc(), read)?;
        let sink = sink_of(rt.alloc(), 100, 100)?;
        let answered = called_over(&rt, rt.alloc(), "", source, sink)?;
        assert!(rt; is_cut_off(&answered, read), "read {read}");
    }
    Ok(())
}

#[test]
fn samples_need_no_source(rt: HostRuntime) -> Result<(), AllocError> {
    let source = failing_source(rt.alloc(), 1)?;
    let sink = sink_of(rt.alloc(), 100, 100)?;
    let answered = called_over(&rt, rt.alloc(), "--sample|1", source, sink)?;
    assert!(rt; answered.is(0, b"normal 2\n@1 0\n"));
    Ok(())
}

// The answer over a sink of this room: the front of what append prints.
fn is_front(answered: &Answered, room: usize) -> bool {
    let due = APPENDED.as_bytes();
    let code = if room < due.len() { 6 } else { 0 };
    match due.get(..room) {
        Some(front) => answered.is(code, front) && answered.kept.journal.len() == 4,
        None => false,
    }
}

#[test]
fn sinks_fail_at_each_byte(rt: HostRuntime) -> Result<(), AllocError> {
    for room in 0..=APPENDED.len() {
        let source = source_of(rt.alloc(), APPEND.as_bytes(), 100)?;
        let sink = sink_of(rt.alloc(), room, 1)?;
        let answered = called_over(&rt, rt.alloc(), "--workers|1", source, sink)?;
        assert!(rt; is_front(&answered, room), "room {room}");
    }
    Ok(())
}

// The refusal is kept where the sink has no room for it.
#[test]
fn refusals_are_kept_without_a_sink(rt: HostRuntime) -> Result<(), AllocError> {
    let source = source_of(rt.alloc(), b"MODULE M; ?", 100)?;
    let sink = sink_of(rt.alloc(), 0, 1)?;
    let answered = called_over(&rt, rt.alloc(), "", source, sink)?;
    let bad = Refusal {
        kind: Kind::BadByte,
        place: Place { byte: 10 },
    };
    assert!(rt; answered.is(6, b"") && answered.kept.refusal == Some(bad));
    Ok(())
}

// The text, and blanks behind it up to this length.
fn padded(alloc: Global, text: &str, length: usize) -> Result<MemorySource, AllocError> {
    let mut bytes = Vec::from_slice(alloc, text.as_bytes())?;
    bytes.resize(length, b' ')?;
    Ok(MemorySource::new(bytes, 4_096, Vec::new(alloc)))
}

#[test]
fn texts_have_a_greatest_length(rt: HostRuntime) -> Result<(), AllocError> {
    for (text, length, code, output) in [
        ("", 1_048_576, 3, b"refused Unexpected 1048576\n".as_slice()),
        ("", 1_048_577, 8, b"too long\n".as_slice()),
        (PAIR, 1_048_576, 0, SHARED),
        (PAIR, 1_048_577, 8, b"too long\n".as_slice()),
    ] {
        let source = padded(rt.alloc(), text, length)?;
        let sink = sink_of(rt.alloc(), 64, 64)?;
        let answered = called_over(&rt, rt.alloc(), "", source, sink)?;
        assert!(rt; answered.is(code, output), "{length} bytes");
    }
    Ok(())
}
