//! All rows of the tables, as they are loaded.
use clr_net::{PointRow, SectionRow};
use clr_rules::{Hold, PointState, Record, StepRow};
use clr_staff::StaffRow;

/// All rows of the tables, each list in the order of its key.
#[derive(Debug, Drop)]
pub struct Rows {
    /// The version in `meta`.
    pub version: i64,
    pub sections: Vec<SectionRow>,
    /// The switching points, each in its present position.
    pub points: Vec<PointRow>,
    /// The states of the same points, in the same order: position and hand.
    pub states: Vec<PointState>,
    pub staff: Vec<StaffRow>,
    /// Clearances and switch orders.
    pub records: Vec<Record>,
    pub steps: Vec<StepRow>,
    pub holds: Vec<Hold>,
}

/// The same, where clearances, steps and holds are read into what the caller keeps them in, so that
/// no list of all of them is made.
#[derive(Drop)]
pub struct Loaded<C, T, H> {
    pub version: i64,
    pub sections: Vec<SectionRow>,
    pub points: Vec<PointRow>,
    pub states: Vec<PointState>,
    pub staff: Vec<StaffRow>,
    pub records: C,
    pub steps: T,
    pub holds: H,
}
