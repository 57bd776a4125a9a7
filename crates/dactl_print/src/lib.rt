//! The printed output of a run: the end line, the trace, and the graph below its root. Bytes are
//! gathered and handed on to the sink in large pieces.
#![tactic(auto)]

pub mod laws;
mod lines;
mod page;
pub mod printer;
#[cfg(test)]
mod tests;
mod texts;
mod walk;
