//! Bytes that go out.

ghost use Rattle.std.specs.Prelude.{◌≡◌, ℕ, ◌<◌, ◌≤◌, List, length, IfOk, OnOk, OnErr};
ghost use Rattle.std.specs.declared.option.Option.{Option};
ghost use Rattle.std.specs.Io.KnownBytes.{Appends, WriteAppends};
ghost use Rattle.dactl_base.specs.Bytes.{AppendsFront};
ghost use Rattle.dactl_base.specs.Faults.{Rose};

use crate::source::Failed;

/// A device that takes bytes.
pub trait Sink {
    /// The bytes taken so far, where the sink tells them.
    ghost holds: { Self → Option (List ℕ) };

    /// How many faults the device has had. Only the device raises it.
    ghost faults: { Self → ℕ };

    /// Writes some bytes from the front of `piece`, at least one, and answers how many.
    ///
    /// # Errors
    ///
    /// `Failed` where the device refused the call or took no byte. The sink has taken nothing of
    /// `piece` then.
    fn write(&mut self, piece: &[u8]) -> Result<usize, Failed>
        requires { 0 < length piece.now }
        ensures some { IfOk result (λ count. 0 < count) }
        ensures within { IfOk result (λ count. count ≤ length piece.now) }
        ensures bytes { WriteAppends (holds self.old) (holds self.new) result piece.now }
        ensures later { faults self.old ≤ faults self.new }
        ensures cause { OnErr result (Rose (faults self.old) (faults self.new)) };
}

/// Writes all of `bytes`, in as many calls as the sink needs for them; none where there are none.
///
/// # Errors
///
/// `Failed` at the first call that fails, which is not made again. The sink has taken a front of
/// the bytes then.
pub fn write_all<K: Sink>(sink: &mut K, bytes: &[u8]) -> Result<(), Failed>
    ensures bytes { OnOk result (Appends (K.holds sink.old) (K.holds sink.new) bytes.now) }
    ensures front { OnErr result (AppendsFront (K.holds sink.old) (K.holds sink.new) bytes.now) }
    ensures later { K.faults sink.old ≤ K.faults sink.new }
    ensures cause { OnErr result (Rose (K.faults sink.old) (K.faults sink.new)) }
{
    let mut rest = bytes;
    while !rest.is_empty() {
        let count = sink.write(rest)?;
        rest = &rest[count..];
    }
    Ok(())
}
