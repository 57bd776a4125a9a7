//! Large samples, by one worker and by many.

use crate::calling::called;
use dactl_workers::OpenGate;
use std::alloc::{AllocError, Global};
use std::sync::Wait;
use std::thread::Threads;

// Whether the call writes this and ends normally.
fn writes<R: Threads + Wait + Sync>(
    rt: &R,
    alloc: Global,
    words: &str,
    output: &[u8],
) -> Result<bool, AllocError> {
    let answered = called(rt, alloc, words, "", &OpenGate)?;
    Ok(answered.status.code() == 0 && answered.sink.held() == output)
}

// However many workers there are, the sum is the same.
#[test]
fn several_workers_add_5000_leaves(rt: HostRuntime) -> Result<(), AllocError> {
    for words in [
        "--sample 5000 --workers 2",
        "--sample 5000 --workers 4",
        "--sample 5000 --workers 16",
    ] {
        let output = b"normal 24997\n@1 12497500\n";
        assert!(rt; writes(&rt, rt.alloc(), words, output)?, "{words}");
    }
    Ok(())
}

// The largest sample, at the greatest limits.
#[test]
fn one_worker_adds_20000_leaves(rt: HostRuntime) -> Result<(), AllocError> {
    let words = "--workers 1 --nodes 2000000 --budget 4000000 --sample 20000";
    assert!(rt; writes(&rt, rt.alloc(), words, b"normal 99997\n@1 199990000\n")?);
    Ok(())
}
