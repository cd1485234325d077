//! Readers and writers that count their failures.
#![tactic(auto)]

mod counted;
mod fault;
mod step;
mod whole;

pub use counted::{Counted, CountedFlush, CountedRead, CountedWrite};
pub use fault::ReadFault;
pub use step::{ReadStep, WriteStep};
pub use whole::{read_whole, write_whole};
