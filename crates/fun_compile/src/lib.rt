//! The translation of first-order equations to the module `Fun`: a rule for each equation, and the
//! rules by which a call that no equation matches stays as it is.
#![tactic(auto)]

mod functions;
mod module;
mod names;
mod patterns;
mod rules;
mod terms;

pub use module::translate;

#[cfg(test)]
mod tests;
