//! A section as a row of the network.
use crate::name::Name;
use crate::named::Named;

/// A section of the network: a stretch of line that is live or dead as a whole.
#[derive(Clone, Copy, Debug, PartialEq, Eq)]
pub struct SectionRow {
    pub name: Name,
    /// Whether a known source feeds this section.
    pub source: bool,
}

impl Named for SectionRow {
    ghost name_of = { λ row. row.name };

    fn name(&self) -> Name {
        self.name
    }
}
