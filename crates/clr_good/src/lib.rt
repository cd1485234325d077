//! Whether a register is good and staffed: the test of it, list by list, and that the test is
//! exact.
#![tactic(auto)]

mod around;
mod clearances;
mod fault;
mod holds;
pub mod laws;
mod points;
mod rounds;
mod shelves;
mod staffed;
mod steps;
mod undoing;

pub use fault::{ListAtFault, list_at_fault};
