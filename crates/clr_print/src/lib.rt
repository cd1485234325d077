//! What is printed of a register: a switching order, and the board.
#![tactic(auto)]

mod board;
mod columns;
mod moments;
mod orders;

pub use board::print_board;
pub use moments::{ClockOffset, moment_text};
pub use orders::{print_order, read_round};
