//! Laws about the definitions alone: each function's contract is its law, and its body is empty.
ghost use Rattle.dactl_verify.specs.Laws.{HasOneVerdict};

/// On a trace in a room there is one verdict, with one journal: so each verdict comes exactly where
/// its definition holds.
pub fn one_verdict()
    ensures { HasOneVerdict }
{}
