//! Laws about the definitions alone: each function's contract is its law.
ghost use Rattle.dactl_print.specs.Laws.{HasOneOrder, HasOneText};

/// What has been visited and what is to be visited determine what has been visited in the end.
pub fn one_order()
    ensures { HasOneOrder }
{}

/// A program and a graph have one text.
pub fn one_text()
    ensures { HasOneText }
{}
