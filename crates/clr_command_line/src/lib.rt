//! What the program does: whole command lines, over any runtime, reader and writers.
#![tactic(auto)]

pub mod command_line;
mod own_files;
pub mod report;
