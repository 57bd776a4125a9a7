//! From the rules of a text to its program, or the first of their faults: what a rule means by the
//! expansion of its pattern and by its contractum, rule after rule.
#![tactic(auto)]

mod compiled;
mod compiling;
mod reading;
mod roots;
mod rule;

pub use compiling::program;
