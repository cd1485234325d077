//! What the program asks of the system by a name, and the disk under a database, whose reads at an
//! opening are watched.
#![tactic(auto)]

mod behind;
mod closing;
mod create;
mod database;
mod host;
mod host_place;
mod line;
mod opening;
mod place;
mod system;
mod timed;
mod watch;
mod watched;
mod watching;

pub use behind::Behind;
pub use database::{Database, let_go, open_database};
pub use host::Host;
pub use place::{Node, Place, is_own};
pub use system::System;
pub use timed::{Call, Limit, Timed, Waits};
pub use watch::{Event, Watch};
pub use watched::Watched;
pub use watching::Watching;
