//! What the top call answers, from a row to a table of texts: ends, graphs, refusals, limits, devices
//! that fail, workers, equations, and graphs and traces beside a text. The crate has tests alone.
#![tactic(auto)]

#[cfg(test)]
mod device_tests;
#[cfg(test)]
mod fun_tests;
#[cfg(test)]
mod limit_tests;
#[cfg(test)]
mod parts_tests;
#[cfg(test)]
mod refusal_tests;
#[cfg(test)]
mod run_tests;
#[cfg(test)]
mod testing;
#[cfg(test)]
mod worker_tests;
