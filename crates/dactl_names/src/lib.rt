//! A map from names that is quick for short ones, whoever chose the names.
#![tactic(auto)]

mod map;
#[cfg(test)]
mod tests;

pub use map::{Memory, NameMap};
