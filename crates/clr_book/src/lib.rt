//! The register of clearances: a book over four shelves, what of it a command looks at, and what it
//! is answered: where the command needs no fence, by the clearance's own rows.
#![tactic(auto)]

mod answer;
mod book;
pub mod laws;
mod near;
pub mod own;
mod states;

pub use book::Book;
pub use book::rows::{all_rows, filled};
pub use near::groups::rows_in;
pub use near::rows::groups_near;
