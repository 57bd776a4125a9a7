//! The whole program: from words and a source text to an answer on a sink.
#![tactic(auto)]

pub mod call;
mod compile;
mod input;
pub mod kept;
pub mod laws;
mod lines;
mod outcome;
mod output;
mod parting;
mod prepare;
pub mod status;
mod steps;
mod telling;

pub use call::dactl;
