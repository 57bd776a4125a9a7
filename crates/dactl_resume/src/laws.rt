//! Laws about the definitions alone: each function's contract is its law, and its body is empty.
ghost use Rattle.dactl_resume.specs.Statements.{TextIsKept, TextComesBack, RestrictionIsCanonical};
ghost use Rattle.dactl_resume.specs.Statements.{CanonicalIsOwn, HasOneRestriction};
ghost use Rattle.dactl_resume.specs.Statements.{RestrictionHasText, RestrictionIsIdleBeside};
ghost use Rattle.dactl_resume.specs.Statements.{RestrictionIsSame, HasRestriction, TextHasOneGraph};
ghost use Rattle.dactl_resume.specs.Statements.{ReadIsRestriction, HasOrder, RunGoesOn};
ghost use Rattle.dactl_resume.specs.Statements.{RunCameFrom, RestrictionIsPrintable, PrintIsRead};
ghost use Rattle.dactl_resume.specs.Statements.{IsNotBoth, HasOneGraph, HasOneBadLine, IsReadOrBad};
ghost use Rattle.dactl_resume.specs.Example.{WakesBeside};

/// A part and the whole have one text.
pub fn text_is_kept()
    ensures { TextIsKept }
{}

/// And the other way round.
pub fn text_comes_back()
    ensures { TextComesBack }
{}

/// A restriction is numbered as it is printed.
pub fn restriction_is_canonical()
    ensures { RestrictionIsCanonical }
{}

/// A graph that is numbered so is its own restriction.
pub fn canonical_is_own()
    ensures { CanonicalIsOwn }
{}

/// A graph has one restriction at most.
pub fn has_one_restriction()
    ensures { HasOneRestriction }
{}

/// Which has the graph's text, and no other.
pub fn restriction_has_text()
    ensures { RestrictionHasText }
{}

/// Where each node that isn't idle is below the root, all is idle beside the restriction.
pub fn restriction_is_idle_beside()
    ensures { RestrictionIsIdleBeside }
{}

/// Where each node is below the root, the restriction is the same graph up to numbers.
pub fn restriction_is_same()
    ensures { RestrictionIsSame }
{}

/// A graph with an order has a restriction.
pub fn has_restriction()
    ensures { HasRestriction }
{}

/// A text is that of one graph at most, among those that are numbered as they are printed.
pub fn text_has_one_graph()
    ensures { TextHasOneGraph }
{}

/// What is read from a graph's print is its restriction.
pub fn read_is_restriction()
    ensures { ReadIsRestriction }
{}

/// Each well-formed graph has an order.
pub fn has_order()
    ensures { HasOrder }
{}

/// A run from what was printed and read is a run of the graph, and both end alike.
pub fn run_goes_on()
    ensures { RunGoesOn }
{}

/// And the other way round.
pub fn run_came_from()
    ensures { RunCameFrom }
{}

/// A restriction has the labels of the graph, and no more nodes.
pub fn restriction_is_printable()
    ensures { RestrictionIsPrintable }
{}

/// Of a graph's print its restriction is read, and nothing else.
pub fn print_is_read()
    ensures { PrintIsRead }
{}

/// A node that waits, and isn't printed, becomes active.
pub fn wakes_beside()
    ensures { WakesBeside }
{}

/// A text is not both read and bad.
pub fn is_not_both()
    ensures { IsNotBoth }
{}

/// One graph is read from a text at most.
pub fn has_one_graph()
    ensures { HasOneGraph }
{}

/// A text is bad at one line at most.
pub fn has_one_bad_line()
    ensures { HasOneBadLine }
{}

/// A text of which no graph is read is bad at a line.
pub fn is_read_or_bad()
    ensures { IsReadOrBad }
{}
