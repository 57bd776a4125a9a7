//! Many workers that want the same cells, again and again.

use crate::calling::{Answered, called, is_run};
use crate::meeting::{Meeting, TwoMeetings};
use dactl_workers::{Gate, OpenGate};
use std::alloc::{AllocError, Global};
use std::sync::Wait;
use std::thread::Threads;

/// Three cells, which twelve calls turn over: the first five times, the second four, the third
/// three.
const THREE_CELLS: &str =
    "MODULE M; SYMBOL REWRITABLE Turn; SYMBOL OVERWRITABLE Cell; SYMBOL CREATABLE Top, On, Off, Done; RULE Turn[c:Cell[On]] => Done, c := Cell[Off]; Turn[c:Cell[Off]] => Done, c := Cell[On]; INITIAL => Top[a:Cell[Off] b:Cell[Off] c:Cell[Off] *Turn[a] *Turn[b] *Turn[c] *Turn[a] *Turn[b] *Turn[c] *Turn[a] *Turn[b] *Turn[c] *Turn[a] *Turn[b] *Turn[a]]; ENDMODULE M;";

/// Whatever the order of the calls, the first cell and the third are turned over at the end.
const THREE_TURNED: &[u8] =
    b"@1 Top[@2 @4 @6 @8 @9 @10 @11 @12 @13 @14 @15 @16 @17 @18 @19]\n@2 Cell[@3]\n@3 On\n@4 Cell[@5]\n@5 Off\n@6 Cell[@7]\n@7 On\n@8 Done\n@9 Done\n@10 Done\n@11 Done\n@12 Done\n@13 Done\n@14 Done\n@15 Done\n@16 Done\n@17 Done\n@18 Done\n@19 Done\n";

/// Two cells, which five calls turn over: the first three times, the second twice.
const TWO_CELLS: &str =
    "MODULE M; SYMBOL REWRITABLE Turn; SYMBOL OVERWRITABLE Cell; SYMBOL CREATABLE Top, On, Off, Done; RULE Turn[c:Cell[On]] => Done, c := Cell[Off]; Turn[c:Cell[Off]] => Done, c := Cell[On]; INITIAL => Top[a:Cell[Off] b:Cell[Off] *Turn[a] *Turn[b] *Turn[a] *Turn[b] *Turn[a]]; ENDMODULE M;";

const TWO_TURNED: &[u8] =
    b"@1 Top[@2 @4 @6 @7 @8 @9 @10]\n@2 Cell[@3]\n@3 On\n@4 Cell[@5]\n@5 Off\n@6 Done\n@7 Done\n@8 Done\n@9 Done\n@10 Done\n";

// Whether the call wrote this end and this graph, and kept a journal that is a run.
fn has_run(alloc: Global, answered: &Answered, end: &[u8], graph: &[u8]) -> bool {
    let Some(program) = &answered.kept.program else {
        return false;
    };
    let output = answered.sink.held();
    output.starts_with(end)
        && output.ends_with(graph)
        && is_run(alloc, program, &answered.kept.journal)
}

// How many of the workers' commits came too late.
fn stale_of(answered: &Answered) -> u64 {
    let mut stale = 0u64;
    for report in &answered.kept.reports {
        stale = stale.saturating_add(report.stale());
    }
    stale
}

// Whether eight workers that read the cells at the same time turn them over. Their first commits
// are of eight calls, and at each cell one alone is in time.
fn meet_at_cells<R: Threads + Wait + Sync>(rt: &R, alloc: Global) -> Result<bool, AllocError> {
    let gate = TwoMeetings::new(8);
    let words = "--workers 8 --nodes 64 --budget 64";
    let answered = called(rt, alloc, words, THREE_CELLS, &gate)?;
    let is_run = has_run(alloc, &answered, b"normal 12\n", THREE_TURNED);
    Ok(is_run && gate.took_place() && stale_of(&answered) >= 5)
}

#[test]
fn eight_workers_turn_three_cells(rt: HostRuntime) -> Result<(), AllocError> {
    for run in 0..200 {
        assert!(rt; meet_at_cells(&rt, rt.alloc())?, "run {run}");
    }
    Ok(())
}

// Whether sixteen workers turn the cells over.
fn turn_cells<R: Threads + Wait + Sync, G: Gate + Sync>(
    rt: &R,
    alloc: Global,
    gate: &G,
) -> Result<bool, AllocError> {
    let words = "--workers 16 --trace --nodes 32 --budget 32";
    let answered = called(rt, alloc, words, TWO_CELLS, gate)?;
    Ok(has_run(alloc, &answered, b"normal 5\n", TWO_TURNED))
}

#[test]
fn sixteen_workers_turn_two_cells(rt: HostRuntime) -> Result<(), AllocError> {
    for run in 0..750 {
        assert!(rt; turn_cells(&rt, rt.alloc(), &OpenGate)?, "run {run}");
    }
    Ok(())
}

// No commit comes before each of the sixteen is about to make one.
#[test]
fn sixteen_workers_that_meet_turn_two_cells(rt: HostRuntime) -> Result<(), AllocError> {
    for run in 0..250 {
        let gate = Meeting::new(16);
        assert!(rt;
            turn_cells(&rt, rt.alloc(), &gate)? && gate.took_place(),
            "run {run}"
        );
    }
    Ok(())
}
