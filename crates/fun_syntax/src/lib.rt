//! The reader of equations: from a text to its tree, or its first fault.
#![tactic(auto)]

mod equations;
mod expressions;
mod faults;
mod least;
mod pieces;
mod read;
mod roles;
#[cfg(test)]
mod tests;
mod text;
mod variables;
mod words;

pub use fun_meaning::tree;
pub use read::read_fun;
