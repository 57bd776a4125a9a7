//! Laws about the definitions alone: each function's contract is its law, and its body is empty.
ghost use Rattle.fun_reading.specs.Statements.{FaultlessAreSound, FaultlessAreSmall};
ghost use Rattle.fun_reading.specs.Statements.{ReadAreLight, ReadAreSpelt};

/// Equations without a fault in their names are sound: each name is declared once and used as what
/// it is, and each variable of a right side is bound.
pub fn faultless_are_sound()
    ensures { FaultlessAreSound }
{}

/// Equations without a fault in their names are not too large.
pub fn faultless_are_small()
    ensures { FaultlessAreSmall }
{}

/// Equations that a text reads have spelled names, and integers of 64 bits.
pub fn read_are_spelt()
    ensures { ReadAreSpelt }
{}

/// Each right side that a text of at most 1 MiB reads, and its `MAIN`, weighs less than 2^31. The
/// weight is above the number of nodes that an expression makes, and above that of their arcs.
pub fn read_are_light()
    ensures { ReadAreLight }
{}
