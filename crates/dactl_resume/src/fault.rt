//! Why a printed graph could not be read.

ghost use Rattle.std.specs.Prelude.{◌≡◌};
ghost use Rattle.dactl_resume.specs.declared.fault.GraphFault.TheVariants as graph_fault;

use dactl_model::program::Program;
use std::alloc::{AllocError, AllocFailed};

/// Why no graph is read from a text: a line of it is bad, or memory is wanting. Lines count from 1.
#[derive(Debug, Drop)]
pub enum GraphFault {
    Bad { line: u32 },
    Memory,
}

impl From<AllocError> for GraphFault {
    ghost from_gives = { λ _ fault. fault ≡ graph_fault.Memory };

    fn from(_want: AllocError) -> GraphFault {
        GraphFault::Memory
    }
}

impl<T: Drop> From<AllocFailed<T>> for GraphFault {
    ghost from_gives = { λ _ fault. fault ≡ graph_fault.Memory };

    fn from(_want: AllocFailed<T>) -> GraphFault {
        GraphFault::Memory
    }
}

/// Why a program does not go on from a text: a line of it is bad, and the program is handed back;
/// or memory is wanting, and the program is gone. Lines count from 1.
#[derive(Drop)]
pub enum NotResumed {
    Bad { program: Program, line: u32 },
    Memory,
}
