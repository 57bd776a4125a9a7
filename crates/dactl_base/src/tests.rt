use crate::adapters::{ReaderSource, WriterSink};
use crate::digits::Digits;
use crate::memory::{MemorySink, MemorySource, NullSink, SteadySource};
use crate::parts::{Parts, split_parts};
use crate::sink::{Sink, write_all};
use crate::source::{Failed, Source};
use std::alloc::AllocError;

// Reads of at most four bytes: what came in all, and how many calls failed.
fn drain<S: Source>(rt: &HostRuntime, source: &mut S) -> Result<(Vec<u8>, u32), AllocError> {
    let mut all = Vec::new(rt.alloc());
    let mut faults = 0u32;
    for _ in 0..8 {
        let mut piece = [0u8; 4];
        match source.read(&mut piece) {
            Ok(count) => all.extend_from_slice(&piece[..count])?,
            Err(Failed) => faults = faults.saturating_add(1),
        }
    }
    Ok((all, faults))
}

#[test]
fn sources_give_their_bytes_in_order(rt: HostRuntime) -> Result<(), AllocError> {
    let text = b"0123456789";
    let alloc = rt.alloc();
    let failing = vec![in alloc; 2, 5]?;
    let mut fake = MemorySource::new(Vec::from_slice(alloc, text)?, 3, failing);
    let (all, faults) = drain(&rt, &mut fake)?;
    assert_eq!(rt; all.as_slice(), text.as_slice());
    assert_eq!(rt; faults, 2);
    let mut steady = SteadySource::new(Vec::from_slice(alloc, text)?);
    let (all, faults) = drain(&rt, &mut steady)?;
    assert_eq!(rt; all.as_slice(), text.as_slice());
    assert_eq!(rt; faults, 0);
    let mut reader = ReaderSource::new(text.as_slice());
    let (all, faults) = drain(&rt, &mut reader)?;
    assert_eq!(rt; all.as_slice(), text.as_slice());
    assert_eq!(rt; faults, 0);
    Ok(())
}

#[test]
fn sinks_take_all_or_a_front(rt: HostRuntime) -> Result<(), AllocError> {
    let alloc = rt.alloc();
    for (room, most, fails_at, taken) in [
        (20, 20, 9, 10),
        (20, 3, 9, 10),
        (20, 3, 3, 6),
        (5, 2, 9, 5),
        (0, 1, 9, 0),
    ] {
        let failing = vec![in alloc; fails_at]?;
        let mut sink = MemorySink::new(alloc, room, most, failing)?;
        let written = write_all(&mut sink, b"0123456789");
        assert_eq!(rt; written.is_ok(), taken == 10, "room {room}, {most} a call");
        assert_eq!(rt; sink.held().len(), taken, "room {room}, {most} a call");
    }
    let mut writer = WriterSink::new(Vec::new(alloc));
    assert!(rt; write_all(&mut writer, b"0123456789").is_ok());
    assert!(rt; write_all(&mut NullSink, b"0123456789").is_ok());
    Ok(())
}

#[test]
fn digits_are_decimal(rt: HostRuntime) {
    let mut digits = Digits::new();
    for (n, text) in [
        (0, "0"),
        (2_000_000, "2000000"),
        (-9_223_372_036_854_775_808, "-9223372036854775808"),
        (i128::MAX, "170141183460469231731687303715884105727"),
    ] {
        assert_eq!(rt; digits.text(n), text.as_bytes());
    }
}

fn parts(text_end: u32, rest: u32) -> Option<Parts> {
    Some(Parts { text_end, rest })
}

#[test]
fn an_input_is_split_at_its_first_marker_line(rt: HostRuntime) {
    let marker = b"%T".as_slice();
    assert_eq!(rt; split_parts(b"ab\n%T\ncd", marker), parts(3, 6));
    assert_eq!(rt; split_parts(b"%T\n%T", marker), parts(0, 3));
    assert_eq!(rt; split_parts(b"a%T\n%T\r\n%T", marker), parts(8, 10));
    assert_eq!(rt; split_parts(b"ab\n%Tc", marker), None);
    assert_eq!(rt; split_parts(b"", marker), None);
}
