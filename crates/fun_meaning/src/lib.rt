//! First-order equations: the tree of a text, the value that an expression has over equations, and
//! what the graphs of a translation mean. Values and meanings are defined in `specs/`.
#![tactic(auto)]

pub mod laws;
pub mod tree;
