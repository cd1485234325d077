//! A register that is checked against its journal, whose lines are run again one by one.
#![tactic(auto)]

mod brief;
mod checking;
mod deeds;
mod fault;
pub mod laws;

pub use checking::Checking;
pub use fault::CheckFault;
