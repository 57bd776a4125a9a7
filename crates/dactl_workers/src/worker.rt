//! How a worker is made and taken apart.

ghost use Rattle.std.specs.Prelude.{◌≡◌};
ghost use Rattle.dactl_workers.specs.Work.{new_worker};

use crate::report::WorkerReport;
use dactl_model::footprint::{Footprint, Woken};
use dactl_shared::WorkerSeat;

/// A worker: its seat at the store, its hand on a board, and its report. It keeps a footprint and
/// a list of woken nodes, which it uses again for each node that it tries.
#[derive(Drop)]
pub struct Worker<H> {
    pub(crate) seat: WorkerSeat,
    pub(crate) hand: H,
    // away only while a node is probed and its step is asked for
    pub(crate) footprint: Option<Footprint>,
    pub(crate) woken: Woken,
    // all nodes with lower numbers are in the graph: the worker's own calls on the store told so
    pub(crate) known: u64,
    pub(crate) report: WorkerReport,
}

/// What a worker was made of, with what it counted.
#[derive(Drop)]
pub struct WorkerParts<H> {
    pub seat: WorkerSeat,
    pub hand: H,
    pub report: WorkerReport,
}

impl<H> Worker<H> {
    /// A worker that has done nothing. To work, it needs a footprint with room for as many
    /// readings as the widest probe takes, and a list with room for all nodes.
    pub fn new(seat: WorkerSeat, hand: H, room: Footprint, woken: Woken) -> Worker<H>
        ensures { result ≡ new_worker seat hand room woken }
    {
        let report = WorkerReport {
            worker: seat.number(),
            commits: 0,
            offered: 0,
            refused: 0,
            taken: 0,
            stale: 0,
            passive: 0,
        };
        Worker {
            seat,
            hand,
            footprint: Some(room),
            woken,
            known: 0,
            report,
        }
    }

    /// Its seat, its hand and its report.
    pub fn into_parts(self) -> WorkerParts<H>
        ensures seat { result.seat ≡ self.seat }
        ensures hand { result.hand ≡ self.hand }
        ensures report { result.report ≡ self.report }
    {
        let Worker {
            seat,
            hand,
            footprint: _,
            woken: _,
            known: _,
            report,
        } = self;
        WorkerParts { seat, hand, report }
    }
}
