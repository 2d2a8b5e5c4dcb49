//! What is behind the doors for C: a session or a client that is held between calls.
//!
//! Nothing here knows of C: `vemiktag_c` has the exported functions, one call each.
#![tactic(auto)]

pub mod calls;
pub mod clients;
mod editors;
mod giving;
mod parts;
pub mod sessions;
mod waiting;

pub use calls::Call;
pub use clients::HeldClient;
pub use sessions::HeldSession;
