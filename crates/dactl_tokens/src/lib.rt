//! The lexer: a text as its tokens, each the longest at its place, or its first fault.
#![tactic(auto)]

mod bytes;
mod gaps;
mod integers;
mod scan;
#[cfg(test)]
mod tests;
mod token;
mod words;

pub use integers::integer;
pub use scan::tokens;
pub use token::{Token, TokenKind};
