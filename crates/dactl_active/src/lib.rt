//! A ring of numbers, each at most once: a number goes in at the back, comes out wherever it stands, and
//! the ring turns by one, each in constant time.
#![tactic(auto)]

mod places;
mod ring;
#[cfg(test)]
mod tests;

pub use ring::{Memory, Ring};
