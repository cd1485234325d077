//! The three CSV files that a register begins with, and the file of logins, read into rows.
//! And what of a network and a staff that are accepted is worth a warning.
#![tactic(auto)]

mod alike;
mod columns;
mod fault;
mod found;
mod login_rows;
mod points;
mod reached;
mod rows;
mod sections;
mod staff_rows;
mod table;
mod warning;
mod warning_lines;

pub use alike::differ_by_one_letter;
pub use clr_staff::{Role, Staff, StaffFault, StaffRow};
pub use clr_stream::{Counted, CountedRead, CountedWrite};
pub use fault::CsvFault;
pub use found::check;
pub use login_rows::read_logins;
pub use points::read_points;
pub use sections::read_sections;
pub use staff_rows::read_staff;
pub use warning::{Names, Warning};
pub use warning_lines::print_warnings;
