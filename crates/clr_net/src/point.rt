//! A switching point as a row of the network.
use crate::name::Name;
use crate::named::Named;

/// Whether a switching point is open or closed.
#[derive(Clone, Copy, Debug, PartialEq, Eq)]
pub enum Position {
    Opened,
    Closed,
}

/// A switching point: in a network it joins two different sections.
///
/// Its origin is 29 CFR 1910.269(m)(3)(ii) and (iii): the means through which a source may supply a
/// section.
#[derive(Clone, Copy, Debug, PartialEq, Eq)]
pub struct PointRow {
    pub name: Name,
    /// The section at one end.
    pub from_end: Name,
    /// The section at the other end.
    pub to_end: Name,
    /// Whether its design permits that it is made inoperable.
    pub lockable: bool,
    /// Whether it is controlled automatically or from afar.
    pub remote: bool,
    /// The position when this row was made. What is reported later is not kept here.
    pub position: Position,
    /// Whether it was put in by hand while the register was kept, and is in no file.
    pub jumper: bool,
}

impl Named for PointRow {
    ghost name_of = { λ row. row.name };

    fn name(&self) -> Name {
        self.name
    }
}
