//! Two editors of one text: each has a client, by whose changes it keeps what it shows, and what they type goes over one server.
#![tactic(auto)]

mod editor;
mod edits;
mod faults;
mod server;
mod showing;
mod story;
mod summary;

use crate::story::tell;
use ft_client::Client;

fn main(rt: HostRuntime) -> Result<(), anyhow::Error> {
    let told = tell::<Client>(rt.alloc())?;
    print!(rt; "{told}")?;
    Ok(())
}
