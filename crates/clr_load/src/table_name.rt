//! The tables of the register.
ghost use Rattle.std.specs.Prelude.{◌≡◌, Some};
ghost use Rattle.clr_load.specs.TableText.{table_text};

use std::fmt;

/// A table of the register in a database.
#[derive(Clone, Copy, Debug, PartialEq, Eq)]
pub enum TableName {
    /// What the tables say of themselves: their version.
    Meta,
    Section,
    /// The switching points of version 1, with their present positions and hands.
    Point,
    Staff,
    /// The records of clearances and switch orders.
    Clearance,
    Step,
    Hold,
    /// The switching points of version 2: as in version 1, and whether each is a jumper.
    NetworkPoint,
    /// The place of the register in its journal, where it has one.
    Journal,
}

impl TableName {
    /// The name that the table has in the database.
    pub fn text(self) -> &'static str
        ensures { result.now ≡ table_text self }
    {
        match self {
            TableName::Meta => "meta",
            TableName::Section => "section",
            TableName::Point => "point",
            TableName::Staff => "staff",
            TableName::Clearance => "clearance",
            TableName::Step => "step",
            TableName::Hold => "hold",
            TableName::NetworkPoint => "network_point",
            TableName::Journal => "journal",
        }
    }
}

impl fmt::Display for TableName {
    ghost output = { λ table. Some (table_text table) };

    fn fmt<W: fmt::Write>(&self, f: &mut fmt::Formatter<W>) -> fmt::Result {
        f.pad(self.text())
    }
}
