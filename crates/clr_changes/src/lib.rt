//! What comes of an update of network and staff: what is in its way, or the network, the staff and
//! the states after it, and what changes. What an archive is, by which closed records give up their
//! steps. And deeds: commands, updates and archives as one list.
#![tactic(auto)]

pub mod archive_laws;
mod archived_records;
mod archiving;
mod changes;
mod deed;
pub mod deed_laws;
mod growing;
mod made;
mod naming;
mod needs;
mod obstacles;
mod outcome;
mod past;
mod phases;
mod print;
mod report;
mod rows;
mod staffing;
mod states;
mod staying;
mod touched;
mod update;

pub use archived_records::{keys_that_go, printed_records};
pub use archiving::archived_book;
pub use clr_update::{Changes, Obstacle};
pub use deed::Deed;
pub use made::{made_of, update_of};
pub use outcome::{After, Outcome, outcome_of};
pub use print::print_changes;
pub use report::{Report, report_of};
pub use update::Update;
