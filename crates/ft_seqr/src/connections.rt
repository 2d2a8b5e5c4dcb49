//! Connections of clients: which one a link has, how it is named, and how many messages are asked for.

ghost use Rattle.std.specs.Prelude.{◌≡◌, IfOk};
ghost use Rattle.ft_seqr.specs.World.{conn_of, connection_name, wanted_count};

use crate::events::HowMany;
use ft_base::{OutOfMemory, Text};
use ft_msg::Link;
use std::alloc::Global;

/// The connection of a link: None exactly where that is offline.
pub fn conn_of(link: Link) -> Option<u32>
    ensures { result ≡ conn_of link }
{
    match link {
        Link::Offline => None,
        Link::Joining { conn } | Link::Online { conn } => Some(conn),
    }
}

/// How many messages, where there are so many: None exactly where there are fewer.
pub fn wanted_count(count: HowMany, have: u64) -> Option<u64>
    ensures { result ≡ wanted_count count have }
{
    match count {
        HowMany::All => Some(have),
        HowMany::Num(n) if n <= have => Some(n),
        HowMany::Num(_) => None,
    }
}

/// The name of the k-th connection of a client or guest.
pub fn connection_name(alloc: Global, name: &Text, k: u64) -> Result<Text, OutOfMemory>
    ensures { IfOk result (λ text. text ≡ connection_name name.now k) }
{
    let name = name.as_str();
    let text = format!(in alloc; "{name}/{k}")?;
    Text::new(alloc, text.as_str())
}
