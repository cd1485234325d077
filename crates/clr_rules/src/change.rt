//! Changes: what an accepted command does to the rows of the register.
use crate::clearance_id::ClearanceId;
use crate::hold::Hold;
use crate::record::Record;
use crate::step_row::StepRow;
use clr_net::{Name, PointRow, Position, SectionRow};

/// One edit of the register's rows. To put a row is to replace the row of its key; all other rows
/// stay. To add one is to put it where there is none of its name.
///
/// The kinds of edits are in this order in a change, and those of a kind in the order of their
/// keys; putting and taking a hold are one kind.
#[derive(Clone, Copy, Debug, PartialEq, Eq)]
pub enum Edit {
    SetPosition {
        point: Name,
        position: Position,
    },
    /// Puts a point into a clearance's hand, or with `None` out of any.
    SetHand {
        point: Name,
        hand: Option<ClearanceId>,
    },
    PutHold(Hold),
    /// Takes a hold away, whether it is there or not.
    TakeHold(Hold),
    PutRecord(Record),
    PutStep(StepRow),
    /// Adds a section of a new name.
    AddSection(SectionRow),
    /// Adds a point of a new name. It is open and in nobody's hand, wherever its row says that it
    /// is.
    AddPoint(PointRow),
}

/// What an accepted command changes. That of a refused command or of `show` has no edit.
#[derive(Debug, PartialEq, Drop)]
pub struct Change {
    pub edits: Vec<Edit>,
}
