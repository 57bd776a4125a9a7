//! What the readers of modules and of equations share: the tokens as a parser takes them, the
//! reading of one token and of a list of names, and where a fault stands.
#![tactic(auto)]

pub mod faults;
pub mod names;
pub mod terminals;
pub mod token;
