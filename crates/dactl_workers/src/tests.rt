//! What a report tells, and that the open gate holds nobody up.

use crate::{Gate, OpenGate, WorkerReport};
use std::process::Abort;
use std::test::Fail;

#[test]
fn a_report_tells_its_numbers(rt: HostRuntime) -> Result<(), Fail> {
    let report = WorkerReport {
        worker: 1,
        commits: 2,
        offered: 3,
        refused: 4,
        taken: 5,
        stale: 6,
        passive: 7,
    };
    assert!(rt; report.worker() == 1 && report.commits() == 2);
    assert!(rt; report.offered() == 3 && report.refused() == 4 && report.taken() == 5);
    assert!(rt; report.stale() == 6 && report.passive() == 7);
    Ok(())
}

#[test]
fn the_open_gate_lets_a_worker_through(rt: HostRuntime) -> Result<(), Fail> {
    let _ = rt;
    OpenGate.after_read(1);
    OpenGate.before_commit(1);
    Ok(())
}
