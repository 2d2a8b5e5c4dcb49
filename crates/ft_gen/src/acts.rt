//! What clients do, without the memory that an event takes.

ghost use Rattle.std.specs.Prelude.{◌≡◌, IfOk};
ghost use Rattle.ft_seqr.specs.WellFormedEvent.{IsWellFormedEvent};
ghost use Rattle.ft_gen.specs.Acts.{act_event};
ghost use Rattle.ft_gen.specs.Rounds.{client_name};

use crate::edits::DrawnOp;
use crate::texts::numbered;
use ft_base::{OutOfMemory, Text};
use ft_op::{CellOp, ChannelOp, GridOp, Target};
use ft_seqr::{Event, HowMany};
use std::alloc::Global;

/// What a client does.
#[derive(Clone, Copy)]
pub enum Deed {
    Start,
    Connect,
    /// Four rows or columns go in before all others.
    AddFour(Target),
    Drop,
    Edit(DrawnOp),
    /// All its unsent messages are submitted.
    Ticket,
    /// It processes the rest of the log.
    Deliver,
    Noop,
    Compact,
    Show,
}

/// What the client of a number does.
#[derive(Clone, Copy)]
pub struct Act {
    pub client: u64,
    pub deed: Deed,
}

// The name of the client of that number.
fn client_name(alloc: Global, number: u64) -> Result<Text, OutOfMemory>
    ensures { IfOk result (λ name. name ≡ client_name number) }
{
    numbered(alloc, "c", number)
}

impl Act {
    /// What the client of this number does.
    pub fn new(client: u64, deed: Deed) -> Act
        ensures { result ≡ record { client = client; deed = deed } }
    {
        Act { client, deed }
    }

    /// The event.
    pub fn event(self, alloc: Global) -> Result<Event, OutOfMemory>
        requires { IsWellFormedEvent (act_event self) }
        ensures { IfOk result (λ event. event ≡ act_event self) }
    {
        let client = client_name(alloc, self.client)?;
        Ok(match self.deed {
            Deed::Start => Event::Start { client, from: None },
            Deed::Connect => Event::Connect { client },
            Deed::AddFour(target) => {
                let op = ChannelOp::Grid(GridOp::One(CellOp::SpliceIn {
                    target,
                    pos: 0,
                    count: 4,
                }));
                Event::Edit { client, op }
            }
            Deed::Drop => Event::Drop { client },
            Deed::Edit(drawn) => {
                let op = drawn.op(alloc)?;
                Event::Edit { client, op }
            }
            Deed::Ticket => Event::Ticket {
                client,
                count: HowMany::All,
            },
            Deed::Deliver => Event::Deliver {
                client,
                count: HowMany::All,
            },
            Deed::Noop => Event::Noop { client },
            Deed::Compact => Event::Compact { client },
            Deed::Show => Event::Show { client },
        })
    }
}
