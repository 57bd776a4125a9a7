//! Patterns of a text: the faults of one pattern, its variables and its expansion, in which named
//! patterns are replaced by what they stand for; and named patterns that reach themselves.
#![tactic(auto)]

mod copying;
mod cycling;
mod declarations;
mod expanding;
mod faults;
mod heads;
mod levels;
mod lookups;
mod named;
mod names;
pub mod occurrences;
mod patterns;
mod uses;

pub use heads::head_symbol;
pub use named::{NamedPatterns, cycles, named_patterns};
pub use patterns::{Examined, Expanded, examine, pattern};
