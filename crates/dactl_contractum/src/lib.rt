//! What the rules and the first graphs of a text say apart from their patterns: what contracta draw
//! and mean, and the faults of contracta and of the left sides of redirections. Nothing here needs
//! named patterns, so neither this crate nor that of patterns waits for the other.
#![tactic(auto)]

mod contractum;
mod drawing;
pub mod faults;
pub mod initials;
pub mod lefts;
pub mod listing;
mod meaning;
mod overwriting;
mod suspending;
mod variables;
mod viewing;

pub use contractum::{Contractum, USUAL, draw};
pub use overwriting::is_rewritable;
pub use variables::Variables;
pub use viewing::Viewer;
