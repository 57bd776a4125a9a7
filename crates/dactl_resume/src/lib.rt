//! Printed graphs, and programs that go on from them.
#![tactic(auto)]

mod arguments;
pub mod fault;
mod labels;
pub mod laws;
mod line;
mod lines;
mod names;
mod print;
pub mod reading;
pub mod resuming;
#[cfg(test)]
mod tests;
