//! Settings.

/// What the words of the command line ask for.
#[derive(Clone, Copy, Debug, PartialEq, Eq)]
pub struct Settings {
    /// The number of workers, from 1 to 16.
    pub workers: u8,
    /// The greatest number of entries of a run, from 1 to 4,000,000.
    pub budget: u32,
    /// The greatest number of nodes of a run, from 1 to 2,000,000.
    pub nodes: u32,
    /// Whether the entries of the run are shown.
    pub trace: bool,
    /// Whether the text is only checked, and not run.
    pub check: bool,
    /// The number of leaves of the sample text that stands for the input, from 1 to 20,000.
    pub sample: Option<u32>,
    /// Whether the input is a text and a trace, which is checked as a journal of its program. It
    /// and `resume` are never both set.
    pub verify: bool,
    /// Whether the input is a text and a printed graph, from which its program starts.
    pub resume: bool,
    /// Whether the text is a list of equations, and no list of modules.
    pub fun: bool,
    /// Whether each worker keeps its own nodes and takes those of others where it has none.
    pub steal: bool,
}
