//! What came of a run.
use crate::desk_fault::DeskFault;
use clr_rules::Reply;

/// The replies of a run, one for each command that was carried out, and the fault that ended it, if
/// one did.
#[derive(Debug, Drop)]
pub struct Run {
    pub replies: Vec<Reply>,
    pub fault: Option<DeskFault>,
}
