//! The switching log: a journal's lines as a person reads them, and its commands alone.
#![tactic(auto)]

mod about;
mod commands;
mod line;
mod steps;
mod texts;
mod walked;
mod words;

pub use commands::commands_read_back;
pub use walked::{WalkedCommands, WalkedLog};
