//! What the program answers.

ghost use Rattle.std.specs.Prelude.{◌≡◌};
ghost use Rattle.dactl_top.specs.Lines.{code_of};

/// The answer of a call.
#[derive(Clone, Copy, Debug, PartialEq, Eq)]
pub enum Status {
    /// No node is active any more.
    Normal,
    /// The text is a program; it was not to be run.
    Checked,
    /// The journal has as many entries as the budget, and a node is active.
    Budget,
    /// The words are not the program's.
    Usage,
    /// The text is no program.
    Refused,
    /// An allowed rule does not fit what is left of the room.
    Full,
    /// The source failed.
    ReadFault,
    /// The sink failed. It holds a front of what was due.
    WriteFault,
    /// Memory is wanting.
    Memory,
    /// The source gave more bytes than a text may have.
    TooLong,
    /// The first graph does not fit the room.
    Small,
    /// The trace is a journal of the text's program, and its graphs fit the room.
    Verified,
    /// A line of the trace is not right after the lines before it.
    Invalid,
    /// The input lacks the marker line that the words ask for.
    NoPart,
    /// A line of the printed graph is bad.
    BadGraph,
    /// A line of the trace is right, and its firing does not fit what is left of the room.
    NoRoom,
}

impl Status {
    /// The exit code of the program.
    pub fn code(&self) -> u8
        ensures { result ≡ code_of self.now }
    {
        match self {
            Status::Normal => 0,
            Status::Checked => 0,
            Status::Budget => 1,
            Status::Usage => 2,
            Status::Refused => 3,
            Status::Full => 4,
            Status::ReadFault => 5,
            Status::WriteFault => 6,
            Status::Memory => 7,
            Status::TooLong => 8,
            Status::Small => 9,
            Status::Verified => 0,
            Status::Invalid => 11,
            Status::NoPart => 12,
            Status::BadGraph => 13,
            Status::NoRoom => 14,
        }
    }
}
