//! The desk: a book on sorted shelves and its store, which carry out commands one after the other.
#![tactic(auto)]

mod archiving;
mod asking;
mod book;
mod commit;
mod commit_at;
mod copy;
mod desk;
mod desk_fault;
pub mod laws;
mod opening;
mod renewing;
mod run;
mod shelves;
mod stated;
mod typed;
mod typed_shelf;
mod updating;

pub use book::DeskBook;
pub use commit::{Commit, Unkept};
pub use commit_at::CommitAt;
pub use copy::{copied, copy_of, points_now};
pub use desk::Desk;
pub use desk_fault::DeskFault;
pub use opening::hand_edits;
pub use renewing::{book_after, book_archived};
pub use run::Run;
