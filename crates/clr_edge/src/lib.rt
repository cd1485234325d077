//! The files, databases, journals and ports that a command line names, and what ends a command
//! before its answer.
#![tactic(auto)]

mod at_fault;
pub mod database;
pub mod fault;
pub mod files;
pub mod journals;
pub mod line;
pub mod lines;
pub mod logins;
pub mod loopback;
pub mod machine;
pub mod output;
pub mod paths;
