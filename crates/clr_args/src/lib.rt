//! The words of a command line: what they may be, and what they ask for.
#![tactic(auto)]

pub mod asked;
pub mod parsing;
mod syntax;
mod words;
