//! What the names of a text mean, what each module sees, and the faults of a text in its names,
//! classes and counts.
#![tactic(auto)]

mod faults;
pub mod least;
mod names;
mod scoping;
pub mod sight;
mod survey;
mod uses;

pub use scoping::scope;
