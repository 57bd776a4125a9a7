//! Steps on a store: a rule that fires, and a node that notifies those that wait for it. A step touches no more
//! than what it changes, and takes no memory.
#![tactic(auto)]

mod firing;
mod noting;
mod site;
mod suspending;
mod waking;

pub use firing::{Full, fire};
pub use noting::note;

#[cfg(test)]
mod tests;
