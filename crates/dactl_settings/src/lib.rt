//! The words of the command line.
#![tactic(auto)]

mod command;
mod fault;
mod reading;
mod settings;
#[cfg(test)]
mod tests;

pub use fault::UsageFault;
pub use reading::read_settings;
pub use settings::Settings;
