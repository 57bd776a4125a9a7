//! What a run leaves.

use dactl_model::graph::{End, Entry};
use dactl_model::program::Program;
use dactl_store::Store;
use dactl_workers::WorkerReport;

/// A run that has ended.
#[derive(Drop)]
pub struct EndedRun {
    pub program: Program,
    /// The last graph.
    pub store: Store,
    pub journal: Vec<Entry>,
    pub ended: End,
    /// A report for each worker, in the order of their numbers.
    pub reports: Vec<WorkerReport>,
    /// How many nodes were left on the board.
    pub left: u64,
}
