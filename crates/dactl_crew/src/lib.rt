//! The workers of a run: made with all the memory that they take, run to an end, and taken back.
#![tactic(auto)]

mod board;
mod crew;
mod ended;
mod preparing;
#[cfg(test)]
mod tests;

pub use ended::EndedRun;
pub use preparing::{Prepared, Unprepared, prepare};
