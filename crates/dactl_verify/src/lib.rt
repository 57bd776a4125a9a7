//! A checker of journals: it reads a trace line by line, and asks the plain executor whether each
//! entry is a step of the program from the graph that the entries before it led to. It has no
//! workers, no store and no deciders.
#![tactic(auto)]

pub mod checking;
pub mod laws;
mod line;
mod room;
pub mod verdict;

pub use checking::verify;
pub use verdict::Verdict;

#[cfg(test)]
mod tests;
