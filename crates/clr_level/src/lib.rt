//! A keeper with a journal, level with it: each deed has its line before it is carried out, and
//! the register keeps its place in the journal.
#![tactic(auto)]

mod brief;
mod deed;
mod fault;
mod forward;
mod keeper;
mod keeping;
mod last;
pub mod laws;
mod lines;
mod noting;
mod opening;
mod placing;
mod renewing;
mod trying;

pub use fault::OpeningFault;
pub use keeper::Keeper;
pub use last::Last;
pub use opening::{ahead_of, with_journal};
pub use renewing::renew;
