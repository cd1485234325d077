//! The commands that give a clearance back.
#![tactic(auto)]

mod answer;
pub mod laws;
mod moves;
mod open;
mod print;
mod rows;
mod undoing;
mod walk;

pub use answer::{WayBack, way_back};
pub use moves::next_moves;
pub use print::{print_way_back, push_command, reads_back};
