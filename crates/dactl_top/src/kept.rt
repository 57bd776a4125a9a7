//! What a call keeps for its caller.

ghost use Rattle.dactl_top.specs.Calls.{IsEmpty};

use dactl_base::refusal::Refusal;
use dactl_model::graph::{End, Entry};
use dactl_model::program::Program;
use dactl_settings::Settings;
use dactl_workers::WorkerReport;
use std::alloc::Global;

/// What a call read, made and did. It is empty before the call.
#[derive(Drop)]
pub struct Kept {
    /// What the words ask for, where they are settings.
    pub settings: Option<Settings>,
    /// All bytes that were read, or the sample text.
    pub text: Vec<u8>,
    /// Why the text part of them is refused, where it is.
    pub refusal: Option<Refusal>,
    /// What the text part means, where it is a program; where a run goes on from a graph, with that
    /// graph in place of the start.
    pub program: Option<Program>,
    /// The entries of the run, in their order, or those of a trace that was checked, up to the
    /// line at which the check stopped.
    pub journal: Vec<Entry>,
    /// How the run ended, where one ran.
    pub end: Option<End>,
    /// What each worker of the run counted, in the order of their numbers.
    pub reports: Vec<WorkerReport>,
    /// How many nodes that the workers had offered were left to be taken when the run ended.
    pub left: u64,
}

impl Kept {
    /// Nothing yet. It takes no memory.
    pub fn empty(alloc: Global) -> Kept
        ensures { IsEmpty result }
    {
        Kept {
            settings: None,
            text: Vec::new(alloc),
            refusal: None,
            program: None,
            journal: Vec::new(alloc),
            end: None,
            reports: Vec::new(alloc),
            left: 0,
        }
    }
}
