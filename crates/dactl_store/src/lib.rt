//! A graph in place: its nodes in a table, its arcs in a pool with the list of the arcs into each node, and
//! its active nodes in a ring, so that a step touches no more than what it changes.
#![tactic(auto)]

mod contractum;
mod notify;
mod reading;
mod redirect;
mod slot;
mod start;
mod store;
mod table;
mod view;

pub use contractum::{arc_count, mentioned_node};
pub use dactl_active::Memory;
pub use start::BeginCause;
pub use store::Store;

#[cfg(test)]
mod tests;
