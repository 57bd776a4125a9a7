//! The state of a run behind a lock, for workers that go on at the same time. Each call of a worker
//! is one turn at the lock, and all turns have one order: each answer is the one that the state
//! gives at that point of it.
#![tactic(auto)]

mod counts;
mod held;
mod store;

pub use store::{SharedStore, WorkerSeat};

#[cfg(test)]
mod tests;
