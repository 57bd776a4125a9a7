//! What a worker counted.

ghost use Rattle.std.specs.Prelude.{◌≡◌};

/// The numbers of one worker. Only a worker makes a report and changes it. No number can pass the
/// end of its type: a run has fewer than 2^32 entries and nodes, and a worker whose `taken` is at
/// its greatest takes no further node from the board.
#[derive(Debug, Drop)]
pub struct WorkerReport {
    pub(crate) worker: u8,
    pub(crate) commits: u64,
    pub(crate) offered: u64,
    pub(crate) refused: u64,
    pub(crate) taken: u64,
    pub(crate) stale: u64,
    pub(crate) passive: u64,
}

impl WorkerReport {
    /// The number of the worker's seat.
    pub fn worker(&self) -> u8
        ensures { result ≡ self.now.worker }
    {
        self.worker
    }

    /// How many entries of the journal are the worker's.
    pub fn commits(&self) -> u64
        ensures { result ≡ self.now.commits }
    {
        self.commits
    }

    /// How many nodes the worker offered to the board.
    pub fn offered(&self) -> u64
        ensures { result ≡ self.now.offered }
    {
        self.offered
    }

    /// How many of these the board handed back.
    pub fn refused(&self) -> u64
        ensures { result ≡ self.now.refused }
    {
        self.refused
    }

    /// How many nodes the worker took from the board.
    pub fn taken(&self) -> u64
        ensures { result ≡ self.now.taken }
    {
        self.taken
    }

    /// How many of its commits were too late for their readings.
    pub fn stale(&self) -> u64
        ensures { result ≡ self.now.stale }
    {
        self.stale
    }

    /// How many of its commits found their node no longer active.
    pub fn passive(&self) -> u64
        ensures { result ≡ self.now.passive }
    {
        self.passive
    }
}
