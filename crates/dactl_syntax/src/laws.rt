//! Laws about the definitions alone: each function's contract is its law.
ghost use Rattle.dactl_syntax.specs.Laws.{HasOneTree, TreesAreSpelled, TreesAreInOrder};
ghost use Rattle.dactl_syntax.specs.Laws.{CanonicalReads};

/// No bytes read two trees.
pub fn one_tree()
    ensures { HasOneTree }
{}

/// What bytes read is spelled as tokens and the grammar have it.
pub fn trees_are_spelled()
    ensures { TreesAreSpelled }
{}

/// In what bytes read, the left sides of each rule stand behind its pattern.
pub fn trees_are_in_order()
    ensures { TreesAreInOrder }
{}

/// The canonical text of what bytes read reads the same tree, but for the places.
pub fn canonical_reads()
    ensures { CanonicalReads }
{}
