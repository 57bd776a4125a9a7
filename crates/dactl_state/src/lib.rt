//! The state of a run: a program, its graph with versions, and the journal of the steps that led there. A
//! commit makes the step of an attempt if what the attempt has read is still so, and compares versions for
//! that alone.
#![tactic(auto)]

mod state;

pub use state::{Answer, Finished, NotBegun, State};

#[cfg(test)]
mod tests;
