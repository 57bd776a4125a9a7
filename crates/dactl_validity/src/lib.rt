//! A law about the meaning of texts: the program of a text without faults is valid.
#![tactic(auto)]

pub mod laws;
