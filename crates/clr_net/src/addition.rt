//! What is added to a network.
use crate::point::PointRow;
use crate::section::SectionRow;

/// A point that is added to a network, and the section that is added before it, if one is, so that
/// the point may lead to it.
#[derive(Clone, Copy, Debug, PartialEq, Eq)]
pub struct Addition {
    pub section: Option<SectionRow>,
    pub point: PointRow,
}
