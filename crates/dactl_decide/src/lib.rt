//! Rules compiled to decisions: for each symbol the rules that a node with it is tested for, and
//! how many of its nodes such a test may have to read.
#![tactic(auto)]

use std::alloc::AllocError;

mod compiling;
mod order;
mod path_tree;

pub use compiling::{Deciders, compile};

/// Want of memory.
pub type Memory = AllocError;

#[cfg(test)]
mod tests;
