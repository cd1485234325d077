//! The journal: each command that was given, when, at which login, and what was answered; each
//! update of network and staff, with all columns of the rows that come and go, and each archive. On
//! a disk lines are appended to it and synced.
#![tactic(auto)]

mod deeds;
mod delta;
mod delta_form;
pub mod delta_laws;
mod delta_rows;
mod fault;
mod journal;
pub mod laws;
mod line;
mod lines;
mod on_disk;
mod opening;
mod print;
mod read;
mod reading;

pub use clr_changes::{Changes, Deed};
pub use deeds::carried_out;
pub use delta::{can_be_said, changes_in, changes_value};
pub use fault::{OpenFault, WriteFault};
pub use journal::Journal;
pub use line::{Carried, Line, Receipt, is_accepted};
pub use lines::first_line;
pub use on_disk::OnDisk;
pub use opening::cut_at;
pub use print::{
    archived_value, commanded_value, print_archived, print_carried, print_updated, print_withdrawn,
    updated_value, withdrawn_value,
};
pub use read::{done_value, read_line, value_of};
pub use reading::Turn;
