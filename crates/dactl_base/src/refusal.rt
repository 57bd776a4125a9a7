//! Why a text is refused, and where.

ghost use Rattle.std.specs.Prelude.{◌≡◌};
ghost use Rattle.dactl_base.specs.declared.refusal.TextFault.TheVariants as text_fault;

use std::alloc::{AllocError, AllocFailed};
use thiserror::Error;

/// Want of memory.
pub type Memory = AllocError;

/// A place in a text: the number of bytes before it.
#[derive(Clone, Copy, Debug, PartialEq, Eq)]
pub struct Place {
    pub byte: u32,
}

/// The kinds of fault that a text can have, in the order in which they count at one place. The last
/// two are faults of equations alone.
#[derive(Clone, Copy, Debug, PartialEq, Eq)]
pub enum Kind {
    BadByte,
    NumberTooWide,
    Unexpected,
    TooDeep,
    TwiceDeclared,
    UnknownModule,
    UnknownName,
    NotVisible,
    PublicTooStrong,
    NoInitial,
    TwoInitials,
    TooMany,
    PatternCycle,
    RootNotRewritable,
    BinderInChoice,
    TooWide,
    Unbound,
    NamedTwice,
    RedirectedTwice,
    NotOverwritable,
    NotCreatable,
    MarkOnBound,
    TooManyWaits,
    NotAConstructor,
    WrongArity,
}

/// A fault of a text, with its place.
#[derive(Clone, Copy, Debug, PartialEq, Eq)]
pub struct Refusal {
    pub kind: Kind,
    pub place: Place,
}

/// Why a text gives no result: it is refused, or memory is wanting.
#[derive(Debug, Drop, Error)]
pub enum TextFault {
    #[error("the text is refused")]
    Refused(Refusal),
    #[error("out of memory")]
    Memory,
}

impl From<AllocError> for TextFault {
    ghost from_gives = { λ _ fault. fault ≡ text_fault.Memory };

    fn from(_want: AllocError) -> TextFault {
        TextFault::Memory
    }
}

impl<T: Drop> From<AllocFailed<T>> for TextFault {
    ghost from_gives = { λ _ fault. fault ≡ text_fault.Memory };

    fn from(_want: AllocFailed<T>) -> TextFault {
        TextFault::Memory
    }
}
