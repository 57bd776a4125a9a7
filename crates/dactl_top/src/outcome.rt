//! What comes of a call before it is told.

use dactl_base::refusal::Refusal;
use dactl_crew::EndedRun;
use dactl_model::graph::Entry;
use dactl_model::program::Program;
use dactl_print::printer::Numbering;
use dactl_verify::Verdict;

/// What comes of a call. To tell it takes no memory.
#[derive(Drop)]
pub enum Outcome {
    /// The words are no settings.
    Usage,
    /// The source failed.
    ReadFault,
    /// The source gave too much.
    TooLong,
    /// Memory was wanting.
    Memory,
    /// The input lacks the marker line that the words ask for.
    NoPart,
    /// The text is no program, as the line tells.
    Refused {
        refusal: Refusal,
        line: Vec<u8>,
    },
    /// The text is this program, and was only to be checked.
    Checked(Program),
    /// A line of the graph from which the program was to go on is bad, as the other line tells.
    BadGraph {
        program: Program,
        bad: u32,
        line: Vec<u8>,
    },
    /// The first graph does not fit, as the line tells.
    Small {
        program: Program,
        line: Vec<u8>,
    },
    /// The trace was checked against the program, as the line tells. The journal is that of the
    /// lines before the one at which the check stopped.
    Judged {
        program: Program,
        verdict: Verdict,
        journal: Vec<Entry>,
        line: Vec<u8>,
    },
    /// The program ran. Its trace is to be told or not, and printing takes the numbering.
    Ran {
        run: EndedRun,
        trace: bool,
        numbering: Numbering,
    },
}
