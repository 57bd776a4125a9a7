//! Runs by several workers, and what their reports add up to.

use crate::testing::{Answered, called, called_at, called_over, repeated};
use dactl_base::memory::{MemorySink, MemorySource};
use dactl_layers::texts::LOOP;
use dactl_model::graph::Entry;
use dactl_workers::{Gate, WorkerReport};
use std::alloc::{AllocError, Global};
use std::sync::Wait;
use std::sync::atomic::{AtomicBool, AtomicU64, Ordering};
use std::thread::Threads;

/// The numbers of some reports, added up.
#[derive(Clone, Copy)]
struct Sums {
    commits: u64,
    offered: u64,
    refused: u64,
    taken: u64,
}

fn sums_of(reports: &[WorkerReport]) -> Sums {
    let mut sums = Sums {
        commits: 0,
        offered: 0,
        refused: 0,
        taken: 0,
    };
    for report in reports {
        sums.commits = sums.commits.wrapping_add(report.commits());
        sums.offered = sums.offered.wrapping_add(report.offered());
        sums.refused = sums.refused.wrapping_add(report.refused());
        sums.taken = sums.taken.wrapping_add(report.taken());
    }
    sums
}

// How many of the entries are by the worker.
fn entries_by(journal: &[Entry], worker: u8) -> u64 {
    journal
        .iter()
        .filter(|entry| entry.worker == worker)
        .count() as u64
}

// Whether each worker has its report at its place, with as many commits as it has entries.
fn has_reports(answered: &Answered, workers: u8) -> bool {
    let reports = answered.kept.reports.as_slice();
    let journal = answered.kept.journal.as_slice();
    if reports.len() != usize::from(workers) {
        return false;
    }
    for (place, report) in reports.iter().enumerate() {
        let is_here = usize::from(report.worker()) == place + 1;
        if !is_here || report.commits() != entries_by(journal, report.worker()) {
            return false;
        }
    }
    true
}

// Whether all nodes that were offered were taken, handed back, or are left.
fn adds_up(answered: &Answered) -> bool {
    let sums = sums_of(answered.kept.reports.as_slice());
    let got = sums.taken.wrapping_add(sums.refused);
    sums.offered == got.wrapping_add(answered.kept.left)
        && sums.commits == answered.kept.journal.len() as u64
}

// Whether a sample is added by so many workers, and their reports add up.
fn is_added<R: Threads + Wait + Sync>(
    rt: &R,
    alloc: Global,
    words: &str,
    workers: u8,
    output: &str,
) -> Result<bool, AllocError> {
    let answered = called(rt, alloc, words, "")?;
    Ok(answered.is(0, output.as_bytes()) && has_reports(&answered, workers) && adds_up(&answered))
}

// The sums of samples do not depend on who adds them.
#[test]
fn samples_are_added_by_any_workers(rt: HostRuntime) -> Result<(), AllocError> {
    let large = "normal 24997\n@1 12497500\n";
    let middling = "normal 4997\n@1 499500\n";
    for (words, workers, output) in [
        ("--sample|4|--workers|1", 1, "normal 17\n@1 6\n"),
        ("--sample|4", 4, "normal 17\n@1 6\n"),
        ("--sample|5000|--workers|1", 1, large),
        ("--sample|1000|--workers|2", 2, middling),
        ("--sample|64|--workers|4", 4, "normal 317\n@1 2016\n"),
        (
            "--sample|64|--workers|4|--steal",
            4,
            "normal 317\n@1 2016\n",
        ),
    ] {
        assert!(rt;
            is_added(&rt, rt.alloc(), words, workers, output)?,
            "{words}"
        );
    }
    Ok(())
}

// There may be more workers than processors.
#[test]
fn samples_are_added_by_sixteen_workers(rt: HostRuntime) -> Result<(), AllocError> {
    for (words, output) in [
        ("--sample|4|--workers|16", "normal 17\n@1 6\n"),
        ("--sample|64|--workers|16", "normal 317\n@1 2016\n"),
    ] {
        assert!(rt; is_added(&rt, rt.alloc(), words, 16, output)?, "{words}");
    }
    Ok(())
}

// Whether all 16 nodes that were offered came to the board.
fn uses_the_board(answered: &Answered) -> bool {
    let sums = sums_of(answered.kept.reports.as_slice());
    sums.offered == 16 && sums.refused == 0 && sums.taken.wrapping_add(answered.kept.left) == 16
}

#[test]
fn woken_nodes_go_to_the_board(rt: HostRuntime) -> Result<(), AllocError> {
    for words in [
        "--sample|4",
        "--sample|4|--workers|1",
        "--sample|4|--workers|16",
        "--sample|4|--steal",
    ] {
        let answered = called(&rt, rt.alloc(), words, "")?;
        assert!(rt; uses_the_board(&answered), "{words}");
    }
    Ok(())
}

// A run without an end leaves no reports, and one with an end has one for each worker.
#[test]
fn runs_that_do_not_end_normally_have_reports(rt: HostRuntime) -> Result<(), AllocError> {
    for (words, workers) in [
        ("--budget|100|--workers|3", 3),
        ("--nodes|50|--workers|5", 5),
        ("--check", 0),
        ("--nodes|0", 0),
    ] {
        let answered = called(&rt, rt.alloc(), words, LOOP)?;
        assert!(rt;
            has_reports(&answered, workers) && adds_up(&answered),
            "{words}"
        );
    }
    Ok(())
}

/// A gate at whose first commit each worker waits until all are there. It counts the commits that
/// each worker is about to make.
#[derive(Drop)]
struct Meeting {
    workers: u64,
    here: AtomicU64,
    commits: [AtomicU64; 5],
    is_late: AtomicBool,
}

impl Meeting {
    fn new(workers: u64) -> Meeting {
        Meeting {
            workers,
            here: AtomicU64::new(0),
            commits: [
                AtomicU64::new(0),
                AtomicU64::new(0),
                AtomicU64::new(0),
                AtomicU64::new(0),
                AtomicU64::new(0),
            ],
            is_late: AtomicBool::new(false),
        }
    }

    fn commits_of(&self, worker: u8) -> u64 {
        match self.commits.get(usize::from(worker)) {
            Some(commits) => commits.load(Ordering::SeqCst),
            None => 0,
        }
    }
}

impl Gate for Meeting {
    fn after_read(&self, _worker: u8) {}

    fn before_commit(&self, worker: u8) {
        let Some(commits) = self.commits.get(usize::from(worker)) else {
            return;
        };
        if commits.fetch_add(1, Ordering::SeqCst) > 0 {
            return;
        }
        self.here.fetch_add(1, Ordering::SeqCst);
        for _ in 0..1_000_000_000u32 {
            if self.here.load(Ordering::SeqCst) >= self.workers {
                return;
            }
        }
        self.is_late.store(true, Ordering::SeqCst);
    }
}

// Whether the gate saw each worker before each of its commits.
fn passed_the_gate(answered: &Answered, meeting: &Meeting) -> bool {
    for report in answered.kept.reports.as_slice() {
        if meeting.commits_of(report.worker()) < report.commits() {
            return false;
        }
    }
    !meeting.is_late.load(Ordering::SeqCst)
}

// No commit comes before each worker is about to make one, so each has a thread of its own.
#[test]
fn workers_have_threads_of_their_own(rt: HostRuntime) -> Result<(), AllocError> {
    for (words, workers) in [
        ("--sample|64|--workers|2", 2),
        ("--sample|64|--workers|4", 4),
        ("--sample|64|--workers|4|--steal", 4),
    ] {
        let meeting = Meeting::new(workers);
        let answered = called_at(&rt, rt.alloc(), words, "", &meeting)?;
        assert!(rt; answered.is(0, b"normal 317\n@1 2016\n"), "{words}");
        assert!(rt; passed_the_gate(&answered, &meeting), "{words}");
    }
    Ok(())
}

// A call whose contractum is a tree of four levels, of 1, 16, 256 and 4,096 active nodes that no
// rule matches.
fn bush(alloc: Global) -> Result<String, AllocError> {
    let twig = repeated(alloc, "*T[", "*T ", 16, "] ")?;
    let branch = repeated(alloc, "*T[", twig.as_str(), 16, "] ")?;
    let front = "MODULE M; SYMBOL REWRITABLE Go; SYMBOL CREATABLE T; RULE Go => *T[";
    let back = "]; INITIAL => *Go; ENDMODULE M;";
    repeated(alloc, front, branch.as_str(), 16, back)
}

// Whether the board handed so many of the nodes back, and gave all others out.
fn handed_back(answered: &Answered, refused: u64) -> bool {
    let sums = sums_of(answered.kept.reports.as_slice());
    sums.commits == 4_370
        && sums.offered == 4_369
        && sums.refused == refused
        && sums.taken == 4_369u64.wrapping_sub(refused)
}

// Whether no commit was refused, and nothing is left.
fn was_alone(answered: &Answered) -> bool {
    for report in answered.kept.reports.as_slice() {
        if report.stale() != 0 || report.passive() != 0 {
            return false;
        }
    }
    answered.kept.left == 0
}

// The answer to the bush by one worker.
fn called_on_a_bush<R: Threads + Wait + Sync>(
    rt: &R,
    alloc: Global,
    words: &str,
) -> Result<Answered, AllocError> {
    let text = bush(alloc)?;
    let bytes = Vec::from_slice(alloc, text.as_bytes())?;
    let source = MemorySource::new(bytes, 4_096, Vec::new(alloc));
    let sink = MemorySink::new(alloc, 200_000, 4_096, Vec::new(alloc))?;
    called_over(rt, alloc, words, source, sink)
}

// Nodes that a board with room for 4,096 hands back are found as active ones. The board with deques
// has room for all.
#[test]
fn a_full_board_hands_nodes_back(rt: HostRuntime) -> Result<(), AllocError> {
    for (words, refused) in [("--workers|1", 273), ("--workers|1|--steal", 0)] {
        let answered = called_on_a_bush(&rt, rt.alloc(), words)?;
        assert!(rt;
            answered.status.code() == 0 && answered.sink.held().starts_with(b"normal 4370\n@1 T["),
            "{words}"
        );
        assert!(rt;
            handed_back(&answered, refused) && was_alone(&answered),
            "{words}"
        );
    }
    Ok(())
}
