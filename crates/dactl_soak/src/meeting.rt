//! Gates that make workers wait for one another.

use dactl_workers::Gate;
use std::sync::atomic::{AtomicBool, AtomicU64, Ordering};
use std::thread::yield_now;

/// How often a worker looks whether the others are there.
const LOOKS: u32 = 10_000_000;

// A bit for each number of a worker.
fn flag_of(worker: u8) -> u64 {
    1u64.wrapping_shl(u32::from(worker))
}

/// A gate at whose first commit each worker sets its flag, and then waits until the flags of all
/// are set. So no commit changes what another has read for its first one.
#[derive(Drop)]
pub(crate) struct Meeting {
    all: u64,
    flags: AtomicU64,
    is_late: AtomicBool,
}

impl Meeting {
    /// A gate for so many workers.
    pub(crate) fn new(workers: u8) -> Meeting {
        let mut all = 0;
        for worker in 1..=workers {
            all |= flag_of(worker);
        }
        Meeting {
            all,
            flags: AtomicU64::new(0),
            is_late: AtomicBool::new(false),
        }
    }

    fn has_seen(&self, worker: u8) -> bool {
        self.flags.load(Ordering::SeqCst) & flag_of(worker) != 0
    }

    // The first call of a worker waits for the others.
    fn meet(&self, worker: u8) {
        if self.has_seen(worker) {
            return;
        }
        self.flags.fetch_add(flag_of(worker), Ordering::SeqCst);
        for _ in 0..LOOKS {
            if self.flags.load(Ordering::SeqCst) == self.all {
                return;
            }
            yield_now();
        }
        self.is_late.store(true, Ordering::SeqCst);
    }

    /// Whether every worker came, and none gave up waiting.
    pub(crate) fn took_place(&self) -> bool {
        self.flags.load(Ordering::SeqCst) == self.all && !self.is_late.load(Ordering::SeqCst)
    }
}

impl Gate for Meeting {
    fn after_read(&self, _worker: u8) {}

    fn before_commit(&self, worker: u8) {
        self.meet(worker);
    }
}

/// A gate at which the workers meet twice: before their first commits, and after their next
/// readings, so that all first commits come before all others.
#[derive(Drop)]
pub(crate) struct TwoMeetings {
    first: Meeting,
    second: Meeting,
}

impl TwoMeetings {
    /// A gate for so many workers.
    pub(crate) fn new(workers: u8) -> TwoMeetings {
        TwoMeetings {
            first: Meeting::new(workers),
            second: Meeting::new(workers),
        }
    }

    /// Whether both meetings took place.
    pub(crate) fn took_place(&self) -> bool {
        self.first.took_place() && self.second.took_place()
    }
}

impl Gate for TwoMeetings {
    fn after_read(&self, worker: u8) {
        if self.first.has_seen(worker) {
            self.second.meet(worker);
        }
    }

    fn before_commit(&self, worker: u8) {
        self.first.meet(worker);
    }
}
