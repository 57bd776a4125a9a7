//! From the tokens of a text to its tree, and from a tree to its canonical text.
#![tactic(auto)]

mod items;
pub mod laws;
mod modules;
mod patterns;
mod rules;
mod terms;
mod text;
mod write_items;
mod write_patterns;
mod write_rules;
mod write_terms;
mod write_words;

pub use dactl_meaning::tree;
pub use text::parse;
pub use write_items::write_text;
