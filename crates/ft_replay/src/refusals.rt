//! What is told of a refusal, and what is written of a refused line.

ghost use Rattle.std.specs.Prelude.{◌≡◌, ◌≢◌, IfOk, string_bytes};
ghost use Rattle.ft_io.specs.Lines.{with_lf};
ghost use Rattle.ft_seqr.specs.Refusals.{refused_line};

use crate::listener::Told;
use ft_base::OutOfMemory;
use ft_seqr::Refusal;
use std::alloc::Global;

/// What is written of a refused line, with its LF.
pub fn refused_line(alloc: Global, line: u64, refusal: Refusal) -> Result<String, OutOfMemory>
    ensures { IfOk result (λ text. string_bytes text ≡ with_lf (refused_line line refusal)) }
{
    let number = refusal.number();
    let text = format!(in alloc; "line {line} refused {number} {refusal}\n")?;
    Ok(text)
}

/// What is told of a line that is refused so.
///
/// Returns `OutOfMemory` where it is for want of memory.
pub fn told_refused(refusal: Refusal) -> Result<Told, OutOfMemory>
    ensures told { IfOk result (λ told. told ≡ Told.Refused refusal) }
    ensures found { IfOk result (λ told. refusal ≢ Refusal.OutOfMemory) }
{
    match refusal {
        Refusal::OutOfMemory => Err(OutOfMemory),
        refusal => Ok(Told::Refused(refusal)),
    }
}
