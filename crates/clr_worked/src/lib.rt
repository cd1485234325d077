//! What no session shows, of the storeys below the program: the worked network, its staff, its
//! register and its first commands, files in memory that stop, and one clearance over HTTP in two
//! registers.
#![tactic(auto)]

mod commands;
mod files;
mod no_command;
mod one_clearance;
mod register;
mod rows;
mod sent;
mod stopping;
mod version_one;

pub use commands::{FIRST_STEP, some_commands};
pub use files::{POINTS, SECTIONS, network, staff};
pub use no_command::answers_to_no_command;
pub use one_clearance::one_clearance_over_http;
pub use register::{make_over, new_desk, new_register, opened, read_over, rows_over, run_over};
pub use rows::are_same;
pub use sent::posted_commands_are_answered;
pub use stopping::{Behind, Held, Left, Part, Work, over_files};
pub use version_one::{move_over, old_register};
