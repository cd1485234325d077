//! Whether two registers have the same tables, and what of a journal's lines was carried out.
#![tactic(auto)]

mod difference;
pub mod laws;
mod registers;
mod replay;
mod replies;
mod table_row;

pub use difference::first_difference;
pub use registers::{Difference, compare};
pub use replay::after_line;
pub use replies::{is_done, is_not_done, is_reply};
pub use table_row::{PointNow, TableRow};
