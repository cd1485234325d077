//! The register in a database: seven tables, which are made, read back, and changed in one
//! transaction for each change.
#![tactic(auto)]

mod create;
mod edits;
mod laws;
mod migrate;
mod place;
mod renew;
mod sql;
mod statements;
mod steps;
mod store;
mod values;

pub use laws::{files_are_numbered, tables_are_there};
pub use store::{Back, Store};
