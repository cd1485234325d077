//! The place of a register in its journal.
use crate::Text;

/// Where a register is in its journal. It is kept with the register; and a journal begins with
/// one.
#[derive(Drop)]
pub struct Place {
    /// The journal's id.
    pub id: Text,
    /// The number of the last command that the register has.
    pub number: u64,
    /// The sum at its line.
    pub sum: Text,
}
