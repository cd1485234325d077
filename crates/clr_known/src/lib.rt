//! A machine that meets what the clauses of the subcommands ask of one, by proof: its databases
//! have a known register, and the board is asked for over its port. Calls of the subcommands are
//! proved at any machine of which that much is known (`visits`, `answers`), and at this one. What
//! its databases are made of is `blank`: files in memory are.
#![tactic(auto)]

mod answers;
mod blank;
mod databases;
mod exchange;
mod files;
mod files_alone;
mod journals;
mod machine;
mod old_tables;
mod version_one;
mod visits;

pub use answers::{Answers, known_answers};
pub use blank::{Blank, InMemory};
pub use files_alone::{OfFiles, known_of_files};
pub use machine::Known;
pub use version_one::{OldKnown, known_move};
pub use visits::known_service;
