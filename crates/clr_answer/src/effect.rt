//! What an accepted command changes.
use clr_rules::{Edit, Record, StepRow};

/// The changes of an accepted command, in the order of their edits.
#[derive(Drop)]
pub(crate) struct Effect {
    /// Edits of points and holds.
    pub(crate) lead: Vec<Edit>,
    /// The clearance's record after the command.
    pub(crate) clearance: Record,
    /// Steps of the clearance that change or are new.
    pub(crate) steps: Vec<StepRow>,
}
