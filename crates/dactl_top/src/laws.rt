//! Laws about the definitions alone: each function's contract is its law, and its body is empty.

ghost use Rattle.dactl_top.specs.Laws.{EachHasText};

/// Each well-formed graph has a text. It is one text alone, by the law of the printer.
pub fn each_has_text()
    ensures { EachHasText }
{}
