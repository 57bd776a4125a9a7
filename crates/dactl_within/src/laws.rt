//! Laws about the definitions alone: each function's contract is its law, and its body is empty.
ghost use Rattle.dactl_within.specs.Statements.{StepIsRenumbered, StepComesBack};
ghost use Rattle.dactl_within.specs.Statements.{EventIsInside, StaysIdleBeside, SameStays};
ghost use Rattle.dactl_within.specs.Statements.{SameComesBack, RunIsRenumbered, RunComesBack};
ghost use Rattle.dactl_within.specs.Statements.{EndsAlike, SameRuns, SameRunsBack};
ghost use Rattle.dactl_within.specs.Statements.{PartOfPart, StepsByRules, RunsByRules};

/// A step of a part is a step of the whole, up to numbers.
pub fn step_is_renumbered()
    ensures { StepIsRenumbered }
{}

/// A step of the whole at a node of the part is a step of the part.
pub fn step_comes_back()
    ensures { StepComesBack }
{}

/// Where all is idle beside the part, each step of the whole is at a node of the part.
pub fn event_is_inside()
    ensures { EventIsInside }
{}

/// And all is idle beside it after the step.
pub fn stays_idle_beside()
    ensures { StaysIdleBeside }
{}

/// Graphs that are the same up to numbers are so after a step.
pub fn same_stays()
    ensures { SameStays }
{}

/// And in the other direction.
pub fn same_comes_back()
    ensures { SameComesBack }
{}

/// A run of a part is a run of the whole.
pub fn run_is_renumbered()
    ensures { RunIsRenumbered }
{}

/// Where all is idle beside the part, a run of the whole is one of the part.
pub fn run_comes_back()
    ensures { RunComesBack }
{}

/// Where all is idle beside the part, both have an active node, or none has.
pub fn ends_alike()
    ensures { EndsAlike }
{}

/// Runs from graphs that are the same up to numbers are so too.
pub fn same_runs()
    ensures { SameRuns }
{}

/// And in the other direction.
pub fn same_runs_back()
    ensures { SameRunsBack }
{}

/// A part of a part is a part.
pub fn part_of_part()
    ensures { PartOfPart }
{}

/// Programs that differ in their start alone have the same steps.
pub fn steps_by_rules()
    ensures { StepsByRules }
{}

/// And the same runs.
pub fn runs_by_rules()
    ensures { RunsByRules }
{}
