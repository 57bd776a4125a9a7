//! A board on which each worker has a deque of its own, and steals from the others where that is
//! empty.
#![tactic(auto)]

mod board;
mod closing;
mod making;
mod other;
mod own;
mod roll;
mod rule;
mod sharing;
mod stealing;
#[cfg(test)]
mod tests;

pub use board::{Memory, StealBoard, StealHand};
pub use roll::Member;
