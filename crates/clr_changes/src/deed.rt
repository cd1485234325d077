//! A command, an update or an archive.
use clr_rules::{Command, Moment};
use clr_update::Changes;

/// A command, an update or an archive, as a line of a journal carries it out.
#[derive(Drop)]
pub enum Deed {
    /// A command.
    Command(Command),
    /// Network and staff change so.
    Update(Changes),
    /// The records that were closed before this moment give up their steps.
    Archive(Moment),
}
