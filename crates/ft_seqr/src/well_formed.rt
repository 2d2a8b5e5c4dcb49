//! Whether events are well formed.

ghost use Rattle.std.specs.Prelude.{◌↔◌, IsTrue};
ghost use Rattle.ft_seqr.specs.WellFormedEvent.{IsWellFormedCount, IsWellFormedEvent};

use crate::events::{Event, HowMany};
use ft_op::{is_count, is_range, is_well_formed};

/// Whether the event is well formed, as each is that is read: its operation is, its numbers are counts,
/// and its range isn't reversed.
pub fn is_well_formed_event(event: &Event) -> bool
    ensures { IsTrue result ↔ IsWellFormedEvent event.now }
{
    match event {
        Event::Edit { op, .. } => is_well_formed(op),
        Event::Ticket { count, .. } | Event::Deliver { count, .. } => is_well_formed_count(*count),
        Event::Overlap { start, end, .. } | Event::Blame { start, end, .. } => {
            is_range(*start, *end)
        }
        Event::Start { .. }
        | Event::Connect { .. }
        | Event::Drop { .. }
        | Event::Noop { .. }
        | Event::Show { .. }
        | Event::Queue { .. }
        | Event::Compact { .. }
        | Event::Summary { .. }
        | Event::Offer { .. }
        | Event::History
        | Event::Guest { .. }
        | Event::Submit { .. }
        | Event::Part { .. }
        | Event::Authors { .. } => true,
    }
}

// Whether it is all, or a count.
fn is_well_formed_count(count: HowMany) -> bool
    ensures { IsTrue result ↔ IsWellFormedCount count }
{
    match count {
        HowMany::Num(n) => is_count(n),
        HowMany::All => true,
    }
}
