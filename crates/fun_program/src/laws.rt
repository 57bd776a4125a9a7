//! Laws about the definitions alone: each function's contract is its law, and its body is empty.
ghost use Rattle.fun_program.specs.Values.{RunsShowValues};

/// What the root unfolds to after a run of a text of equations is the value that they give to
/// `MAIN`. It holds for each graph of a run, however its steps interleave. That the root unfolds to
/// something is not promised.
pub fn runs_show_values()
    ensures { RunsShowValues }
{}
