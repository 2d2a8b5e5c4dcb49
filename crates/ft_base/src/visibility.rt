//! Who sees an element.

ghost use Rattle.std.specs.Prelude.{◌≡◌};
ghost use Rattle.std.specs.List.{list_any};
ghost use Rattle.ft_base.specs.Visibility.{has_occurred, has_occurred_at_stage, sees, seen_at};

use crate::elements::{Element, Perspective};
use crate::stamps::Stamp;

/// Whether the perspective sees the element: its insertion has occurred there, and none of its
/// removals has. Pending stamps never have.
pub fn sees(e: &Element, at: Perspective) -> bool
    ensures { result ≡ sees e.now at.r at.c }
{
    has_occurred(&e.ins, at) && !has_any_occurred(e.dels.as_slice(), at)
}

/// Whether a client sees the element at this pending stage: its insertion has occurred by then, and
/// none of its removals has. Sequenced stamps always have.
pub fn seen_at(e: &Element, stage: u64) -> bool
    ensures { result ≡ seen_at e.now stage }
{
    has_occurred_at_stage(&e.ins, stage) && !has_any_occurred_at_stage(e.dels.as_slice(), stage)
}

/// Whether the stamp is sequenced with a number up to the perspective's, or by its connection.
pub fn has_occurred(stamp: &Stamp, at: Perspective) -> bool
    ensures { result ≡ has_occurred at.r at.c stamp.now }
{
    match stamp {
        Stamp::Acked { seq, conn } => *seq <= at.r || *conn == at.c,
        Stamp::Local { .. } => false,
    }
}

/// Whether the stamp is sequenced, or of a pending stage up to this one.
pub fn has_occurred_at_stage(stamp: &Stamp, stage: u64) -> bool
    ensures { result ≡ has_occurred_at_stage stage stamp.now }
{
    match stamp {
        Stamp::Acked { .. } => true,
        Stamp::Local { stage: own } => *own <= stage,
    }
}

// Whether one of the stamps has occurred for the perspective.
fn has_any_occurred(stamps: &[Stamp], at: Perspective) -> bool
    ensures { result ≡ list_any (has_occurred at.r at.c) stamps.now }
{
    stamps.iter().any(|stamp| has_occurred(stamp, at))
}

// Whether one of the stamps has occurred at the stage.
fn has_any_occurred_at_stage(stamps: &[Stamp], stage: u64) -> bool
    ensures { result ≡ list_any (has_occurred_at_stage stage) stamps.now }
{
    stamps
        .iter()
        .any(|stamp| has_occurred_at_stage(stamp, stage))
}
