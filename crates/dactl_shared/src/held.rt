//! The state as the lock keeps it.

use dactl_state::State;
use dactl_turn::Booked;

/// A state in the lock. It lies in a box, so that a turn moves a pointer and no more.
#[derive(Drop)]
pub struct Held {
    pub(crate) state: Box<State>,
}

impl Booked for Held {
    ghost base = { λ h. (h.state.value.program, h.state.value.limits) };

    ghost entries = { λ h. h.state.value.journal };

    ghost closed = { λ h. h.state.value.full };
}
