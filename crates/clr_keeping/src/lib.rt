//! A register's database and its journal as one: begun, taken up and let go; and a journal in one
//! or several files, read part by part and printed.
#![tactic(auto)]

pub mod beginning;
pub mod journal;
pub mod laws;
pub mod parts;
pub mod taking_up;
