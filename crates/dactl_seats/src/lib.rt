//! Turns at one store in an order that is written down, and by many threads. The crate has tests
//! alone: two seats on one thread, whose probes and commits come one after another as a test says,
//! and four threads that share a long run. The journals are replayed by the executor over whole
//! graphs.
#![tactic(auto)]

#[cfg(test)]
mod calling;
#[cfg(test)]
mod crowd_tests;
#[cfg(test)]
mod game;
#[cfg(test)]
mod late_tests;
#[cfg(test)]
mod rest;
#[cfg(test)]
mod storm_tests;
#[cfg(test)]
mod table;
#[cfg(test)]
mod trying;
