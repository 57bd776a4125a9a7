//! Runs under contention, many times over. The crate has tests alone: of single workers on boards
//! that do little, of whole calls whose workers want the same cells, and of the sample. The
//! journals are replayed by the executor over whole graphs.
#![tactic(auto)]

#[cfg(test)]
mod alone;
#[cfg(test)]
mod alone_tests;
#[cfg(test)]
mod boards;
#[cfg(test)]
mod calling;
#[cfg(test)]
mod meeting;
#[cfg(test)]
mod sample_tests;
#[cfg(test)]
mod soak_tests;
