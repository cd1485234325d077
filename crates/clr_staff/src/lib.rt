//! The staff: every employee whom a command may name, with role and supervisor.
//! And who may speak for whom: the logins of the machine, and the employees of each.
#![tactic(auto)]

mod employee;
pub mod laws;
mod login;
mod logins;
mod staff;
mod staff_fault;

pub use employee::{Role, StaffRow};
pub use login::Login;
pub use logins::{LoginRow, Logins};
pub use staff::{MAX_STAFF, Staff};
pub use staff_fault::StaffFault;
