//! What two readings of tables have in common.
use clr_load::Rows;

/// Whether two readings of the tables have the same rows.
pub fn are_same(rows: &Rows, others: &Rows) -> bool {
    rows.version == others.version
        && rows.sections == others.sections
        && rows.points == others.points
        && rows.states == others.states
        && rows.staff == others.staff
        && rows.records == others.records
        && rows.steps == others.steps
        && rows.holds == others.holds
}
