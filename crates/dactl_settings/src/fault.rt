//! Why words are no settings.

ghost use Rattle.std.specs.Prelude.{◌≡◌};
ghost use Rattle.clap.specs.Words.{kind_of};
ghost use Rattle.dactl_settings.specs.Faults.{fault_by};
ghost use Rattle.dactl_settings.specs.declared.fault.UsageFault.TheVariants.{Memory};

use clap::error::ErrorKind;
use std::alloc::AllocError;
use thiserror::Error;

/// Why the words of the command line are no settings.
#[derive(Clone, Copy, Debug, PartialEq, Eq, Error)]
pub enum UsageFault {
    /// A word is none of the command's, stands twice, or has no text where one is due.
    #[error("the command does not take these words")]
    Words,
    /// The text of an option is no number in its range.
    #[error("the text of an option is no number in its range")]
    Number,
    /// The flags `--verify` and `--resume` stand together, in words that would else be settings.
    #[error("only one of --verify and --resume may stand")]
    Both,
    #[error("out of memory")]
    Memory,
}

impl From<AllocError> for UsageFault {
    ghost from_gives = { λ _ fault. fault ≡ Memory };

    fn from(_want: AllocError) -> UsageFault {
        UsageFault::Memory
    }
}

impl From<clap::Error> for UsageFault {
    ghost from_gives = { λ error fault. fault ≡ fault_by (kind_of error) };

    fn from(error: clap::Error) -> UsageFault {
        match error.kind() {
            ErrorKind::OutOfMemory => UsageFault::Memory,
            _ => UsageFault::Words,
        }
    }
}
