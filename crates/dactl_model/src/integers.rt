//! The range of a program's integers.
ghost use Rattle.std.specs.Prelude.{◌≡◌, ◌↔◌, IsTrue};
ghost use Rattle.dactl_model.specs.Integers as spec;

/// Whether the integer is one of 64 bits.
pub fn is_word(integer: i128) -> bool
    ensures { result ≡ spec.is_word integer }
{
    -0x8000_0000_0000_0000 <= integer && integer < 0x8000_0000_0000_0000
}
