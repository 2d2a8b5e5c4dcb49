//! What a session is generated from.

/// What a session is generated from.
#[derive(Clone, Copy, Debug, PartialEq, Eq)]
pub struct Settings {
    /// How many clients.
    pub clients: u64,
    /// How many edits.
    pub edits: u64,
    /// The seed of what is drawn.
    pub seed: u64,
}
