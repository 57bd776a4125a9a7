//! Probes: which event a node is ready for, found by reading one node of the graph at a time.
#![tactic(auto)]

mod binding;
mod finding;
mod lost;
mod marks;
mod probe;
mod reading;
mod rule;
mod verdict;

pub use probe::{Next, Probe};

#[cfg(test)]
mod tests;
