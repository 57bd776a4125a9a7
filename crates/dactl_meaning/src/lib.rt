//! The tree of a text. What a tree means is defined in `specs/`: what its modules declare and see,
//! the faults of its names, patterns and rules, and the program that it stands for.
#![tactic(auto)]

pub mod tree;
