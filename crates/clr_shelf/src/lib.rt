//! Shelves of rows: finite maps from a key to its row.
#![tactic(auto)]

mod balance;
mod block;
mod blocks;
mod list_shelf;
mod row;
mod shelf;
mod sorted_shelf;

pub use list_shelf::ListShelf;
pub use row::Row;
pub use shelf::Shelf;
pub use sorted_shelf::SortedShelf;
