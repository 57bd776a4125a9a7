//! Laws about the definitions alone: each function's contract is its law, and its body is empty.
ghost use Rattle.fun_laws.specs.Example.{ExampleIsSound, ExampleHasNoValue, ExampleHasValue};
ghost use Rattle.fun_laws.specs.Statements.{TranslationIsProgram, TranslationHasNoFault};
ghost use Rattle.fun_laws.specs.Statements.{TranslationIsSpelled, TranslationIsCountable};
ghost use Rattle.fun_laws.specs.Statements.{TranslationIsValid, RunsAreTidy, ValuesAreMeant};

/// What the translation of sound equations means is a program of them.
pub fn translation_is_program()
    ensures { TranslationIsProgram }
{}

/// The translation of sound equations that are not too large has no fault, so it means a program.
pub fn translation_has_no_fault()
    ensures { TranslationHasNoFault }
{}

/// The tree of a translation is one that tokens and the grammar could shape.
pub fn translation_is_spelled()
    ensures { TranslationIsSpelled }
{}

/// The groups of a translation, and what its contracta make, have numbers of 31 bits.
pub fn translation_is_countable()
    ensures { TranslationIsCountable }
{}

/// The program that a translation means is valid.
pub fn translation_is_valid()
    ensures { TranslationIsValid }
{}

/// Each graph of a run of a translation keeps the invariant.
pub fn runs_are_tidy()
    ensures { RunsAreTidy }
{}

/// What the root unfolds to after a run is the value that the equations give to the expression of
/// `MAIN`. It holds for each graph of a run, however its steps interleave. That the root unfolds
/// to something is not promised.
pub fn values_are_meant()
    ensures { ValuesAreMeant }
{}

/// The equations of the example meet all premises of these laws.
pub fn example_is_sound()
    ensures { ExampleIsSound }
{}

/// `G[H[1]]` has no value there, though a translation that is lazy would print 5.
pub fn example_has_no_value()
    ensures { ExampleHasNoValue }
{}

/// `H[A]` has the value `A` there.
pub fn example_has_value()
    ensures { ExampleHasValue }
{}
