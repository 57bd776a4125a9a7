//! Laws about the definitions alone: each function's contract is its law, and its body is empty.
ghost use Rattle.dactl_validity.specs.Validity.{IsValidWithoutFaults};

/// The program of a tree without faults is valid, where the tree has what tokens and the grammar
/// give it.
pub fn valid_without_faults()
    ensures { IsValidWithoutFaults }
{}
