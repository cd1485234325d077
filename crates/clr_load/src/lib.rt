//! What the tables of a register in a database read as: the version, the rows, or the table with
//! the first row that does not read. The tables are definitions, with the words in them.
#![tactic(auto)]

mod column_forms;
mod expected;
mod fault;
mod fill;
mod laws;
mod layout;
mod listing;
mod load;
mod looks;
mod old;
mod place;
mod reading;
mod rows;
mod table;
pub mod table_laws;
mod table_name;
mod table_row;
mod version;
mod words;

pub use column_forms::ColumnForm;
pub use expected::expect_version;
pub use fault::StoreFault;
pub use fill::Fill;
pub use laws::tables_open_again;
pub use layout::Layout;
pub use load::{load_into, load_rows};
pub use old::check_old_points;
pub use place::read_place;
pub use rows::{Loaded, Rows};
pub use table_name::TableName;
pub use version::read_version;
pub use words::{action_name, action_named, role_word, role_worded, state_name, state_named};
