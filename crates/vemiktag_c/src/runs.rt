//! What a handle leads to.

use ft_client::Client;
use ft_door::{HeldClient, HeldSession};

/// What a handle leads to: a session of clients over trees, or one such client; the other one is at its end from the beginning. It names no
/// parameter, as what a handle leads to mustn't.
#[derive(Drop)]
pub struct ClientRun {
    pub session: HeldSession<Client>,
    pub client: HeldClient<Client>,
}
