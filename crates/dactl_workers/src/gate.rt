//! Places at which a worker may be held up.

ghost use Rattle.std.specs.Prelude.{ℕ};

/// What a worker passes between its turns of the store. A gate may hold a worker up there, as a
/// test does that wants two workers at the same place, but each of its calls returns. The numbers
/// are those of the workers' seats, from 1.
///
/// Code that works with any gate can know a place to be passed from the call alone. A gate that
/// leaves out what is known at a place says nothing of it.
pub trait Gate {
    /// What is known where the worker was let through after a reading.
    ghost passed_after_read: { Self → ℕ → Type 0 } = { λ _ _. Unit {0} };

    /// What is known where the worker was let through before a commit.
    ghost passed_before_commit: { Self → ℕ → Type 0 } = { λ _ _. Unit {0} };

    /// Called after each reading of a node.
    fn after_read(&self, worker: u8)
        ensures { passed_after_read self.now worker };

    /// Called before each commit.
    fn before_commit(&self, worker: u8)
        ensures { passed_before_commit self.now worker };
}

/// A gate that holds nobody up.
#[derive(Clone, Copy, Debug)]
pub struct OpenGate;

impl Gate for OpenGate {
    fn after_read(&self, _worker: u8) {}

    fn before_commit(&self, _worker: u8) {}
}
