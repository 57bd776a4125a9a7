//! Where layers below the top call meet: texts through the compiler's calls one by one, and runs on whole
//! graphs beside the same runs on the store. But for the texts, which other tests run as well, the crate
//! has tests alone.
#![tactic(auto)]

#[cfg(test)]
mod compile_tests;
#[cfg(test)]
mod compiling;
#[cfg(test)]
mod store_tests;
#[cfg(test)]
mod syntax_tests;
pub mod texts;
