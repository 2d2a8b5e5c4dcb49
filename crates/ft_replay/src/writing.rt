//! Writing to a sink.

ghost use Rattle.std.specs.Prelude.{◌≡◌, ℕ, List, IfOk, IsErrOf, OnOk, string_bytes};
ghost use Rattle.ft_replay.specs.Writing.{WritesBytes};

use crate::endings::Fault;
use ft_base::OutOfMemory;
use ft_io::{Sink, write_all};

/// Writes all the bytes.
///
/// Returns `Write` only where the sink's count of faults rose, and then the sink has taken some of the
/// first of them; else the count is as it was.
pub fn put<K: Sink>(out: &mut K, bytes: &[u8]) -> Result<(), Fault>
    ensures writes { WritesBytes (K.contents out.old) (K.contents out.new) (K.faults out.old) (K.faults out.new) bytes.now result }
    ensures fault { IsErrOf result Fault.OutOfMemory → ⊥ }
    ensures steady { OnOk result (K.faults out.new ≡ K.faults out.old) }
    ensures kept { ¬ IsErrOf result Fault.Write → K.faults out.new ≡ K.faults out.old }
{
    write_all(out, bytes)?;
    Ok(())
}

/// Writes the text, if it was made.
///
/// Returns `Write` as `put` does, and `OutOfMemory` where it wasn't made, and then nothing is written.
pub fn put_text<K: Sink>(out: &mut K, made: Result<String, OutOfMemory>) -> Result<(), Fault>
    ensures writes { (bytes : List ℕ) → IfOk made (λ text. string_bytes text ≡ bytes)
        → WritesBytes (K.contents out.old) (K.contents out.new) (K.faults out.old) (K.faults out.new) bytes result }
    ensures steady { OnOk result (K.faults out.new ≡ K.faults out.old) }
    ensures kept { ¬ IsErrOf result Fault.Write → K.faults out.new ≡ K.faults out.old }
{
    let text = made?;
    put(out, text.as_bytes())
}
