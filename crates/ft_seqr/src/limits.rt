//! The limit of a session.

/// The greatest number of clients and guests.
pub const NAME_LIMIT: usize = 16;
