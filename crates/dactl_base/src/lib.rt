//! What every layer speaks of: sources and sinks of bytes, places in a text and the refusals that
//! name them, the decimal texts of numbers, and the lines of a text.
#![tactic(auto)]

pub mod adapters;
pub mod digits;
pub mod line;
pub mod memory;
pub mod numbers;
pub mod parts;
pub mod refusal;
pub mod sink;
pub mod source;
#[cfg(test)]
mod tests;
