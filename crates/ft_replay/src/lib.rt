//! The commands of Vemiktag's program over any replica: what each reads, what it writes, and how it ends.
//!
//! A command reads lines from a source and writes to a sink what each of them writes, which of them are
//! refused, and what stands behind them. What hears the lines is a `Listener`: the walk over them is one
//! for all commands. `log` reads sequenced messages, and shows at the end what an observer of them shows.
//! `load` reads a summary first, with which its observer starts. `session` reads the events of clients and
//! guests, and shows a client where one asks for it; `map` does so for clients over one shared map. `gen`
//! writes the events of a generated session, and `play` what becomes of its clients.
//!
//! Clients and observers are of the type `R` that the caller names, any `Replica` of `ft_msg`. Two of them write
//! the same, since each writes what the definitions say.
//!
//! A call that can't return `OutOfMemory` takes no memory; one that can returns it where there is no room.
#![tactic(auto)]

mod endings;
mod event_lines;
mod forms;
mod generated;
mod heads;
mod listener;
mod loading;
mod map_lines;
mod maps;
mod observer;
mod play;
mod refusals;
mod replay;
mod report;
mod session;
mod session_replay;
mod settings;
mod showing;
mod sums;
mod view_lines;
mod writing;

pub use endings::{Ending, Fault};
pub use event_lines::client_text;
pub use forms::{replay_load, replay_log, replay_map, replay_session};
pub use generated::write_generated;
pub use observer::{sender_number, table_of};
pub use play::write_play;
pub use session_replay::{SessionReplay, session_pieces};
pub use settings::Settings;
