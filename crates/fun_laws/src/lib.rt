//! What translations of equations mean: a valid program, each run of which keeps the values that
//! the equations give.
#![tactic(auto)]

pub mod laws;
