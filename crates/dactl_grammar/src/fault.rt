//! Why tokens could not be read.

ghost use Rattle.std.specs.Prelude.{◌≡◌};
ghost use Rattle.dactl_grammar.specs.declared.fault.ReadError.TheVariants as read_error;

use std::alloc::{AllocError, AllocFailed};

/// Why a list of tokens is no text: the fault, told by how many tokens stand from it on.
#[derive(Clone, Copy, Debug, PartialEq, Eq)]
pub enum Fault {
    /// The tokens up to and with this one begin no text. The end of the list counts as a token
    /// there, with none left.
    Unexpected { left: usize },
    /// This bracket is one too many that is open.
    TooDeep { left: usize },
}

/// Why a reading function gives nothing: a fault, or want of memory.
#[derive(Debug, Drop)]
pub enum ReadError {
    Memory,
    Fault(Fault),
}

impl From<AllocError> for ReadError {
    ghost from_gives = { λ _ error. error ≡ read_error.Memory };

    fn from(_want: AllocError) -> ReadError {
        ReadError::Memory
    }
}

impl<T: Drop> From<AllocFailed<T>> for ReadError {
    ghost from_gives = { λ _ error. error ≡ read_error.Memory };

    fn from(_want: AllocFailed<T>) -> ReadError {
        ReadError::Memory
    }
}
