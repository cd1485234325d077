//! What changes in network and staff.
use clr_net::{PointRow, SectionRow};
use clr_staff::StaffRow;

/// Rows that go, and rows that come. A row that changes goes as it was, and comes as it is.
#[derive(Drop)]
pub struct Changes {
    pub sections_go: Vec<SectionRow>,
    pub sections_come: Vec<SectionRow>,
    pub points_go: Vec<PointRow>,
    /// Each in its position.
    pub points_come: Vec<PointRow>,
    pub staff_goes: Vec<StaffRow>,
    pub staff_comes: Vec<StaffRow>,
}
