//! Boards on which workers put the numbers of nodes for one another, and take them.
#![tactic(auto)]

mod board;
mod rule;
mod ruled;
#[cfg(test)]
mod tests;

pub use board::Board;
pub use rule::Account;
pub use ruled::{Memory, RuledBoard, RuledHand};
