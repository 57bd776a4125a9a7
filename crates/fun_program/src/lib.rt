//! From a text of equations to its program, and what its runs show.
#![tactic(auto)]

mod compile;
mod laws;
#[cfg(test)]
mod tests;

pub use compile::compile_equations;
pub use laws::runs_show_values;
