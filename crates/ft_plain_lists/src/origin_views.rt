//! Who inserted what is shown of the text.

ghost use Rattle.std.specs.Prelude.{◌≡◌, ◌<◌, ◌^◌, IfOk, length, map};
ghost use Rattle.ft_msg.specs.Blame.{origin_of};
ghost use Rattle.ft_msg.specs.Content.{stage_view};

use crate::elements::PlainElement;
use ft_attrib::{Attribution, Origin};
use ft_base::{OutOfMemory, Stamp};
use std::alloc::Global;

/// Who inserted each element that a client sees at its pending stage.
pub fn shown_origins(
    alloc: Global,
    items: &[PlainElement],
    stage: u64,
) -> Result<Attribution, OutOfMemory>
    requires { length items.now < 2 ^ 53 }
    ensures { IfOk result (λ origins. origins ≡ map (λ e. origin_of e.by) (stage_view stage items.now)) }
{
    let mut origins = Attribution::new(alloc);
    for e in items {
        if e.is_seen_at(stage) {
            origins.push(1, origin_of(e.by()))?;
        }
    }
    Ok(origins)
}

// The origin that an author tells.
fn origin_of(by: Option<Stamp>) -> Origin
    ensures { result ≡ origin_of by }
{
    match by {
        None | Some(Stamp::Local { .. }) => Origin::Pending,
        Some(Stamp::Acked { seq: 0, conn: 0 }) => Origin::Unknown,
        Some(Stamp::Acked { seq, conn }) => Origin::Known { seq, conn },
    }
}
