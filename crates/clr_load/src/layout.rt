//! How the tables of a register lie in a database.
ghost use Rattle.std.specs.Prelude.{◌≡◌, ◌<◌};
ghost use Rattle.clr_load.specs.Layout.{has_table, is_moved, names_in, tree_in, version_of};
ghost use Rattle.clr_load.specs.declared.layout.Layout.TheVariants.{AsMadeLogged, AsMovedLogged};
ghost use Rattle.clr_load.specs.declared.table_name.TableName.TheVariants.{Journal};

use crate::TableName;

/// A layout of the tables of a register: which there are, and in which order they were made.
#[derive(Clone, Copy, Debug, PartialEq, Eq)]
pub enum Layout {
    /// Version 1.
    OfOne,
    /// Version 2, made in an empty database.
    AsMade,
    /// Version 2, moved from version 1: `point` stays, and is empty.
    AsMoved,
    /// As made, with the table of the register's place in its journal.
    AsMadeLogged,
    /// As moved, with that table.
    AsMovedLogged,
}

impl Layout {
    /// The version that `meta` has.
    pub(crate) fn version(self) -> u8
        ensures { result ≡ version_of self }
    {
        match self {
            Layout::OfOne => 1,
            Layout::AsMade | Layout::AsMoved => 2,
            Layout::AsMadeLogged | Layout::AsMovedLogged => 2,
        }
    }

    /// Whether there is the `point` that a move has emptied.
    pub(crate) fn is_moved(self) -> bool
        ensures { result ≡ is_moved self }
    {
        match self {
            Layout::OfOne | Layout::AsMade | Layout::AsMadeLogged => false,
            Layout::AsMoved | Layout::AsMovedLogged => true,
        }
    }

    /// Whether there is the table of the register's place in its journal.
    pub(crate) fn is_logged(self) -> bool
        ensures { result ≡ has_table self Journal }
    {
        match self {
            Layout::OfOne | Layout::AsMade | Layout::AsMoved => false,
            Layout::AsMadeLogged | Layout::AsMovedLogged => true,
        }
    }

    /// The tables, in the order in which they are made.
    pub(crate) fn tables(self) -> &'static [TableName]
        ensures { result.now ≡ names_in self }
    {
        match self {
            Layout::OfOne => &[
                TableName::Meta,
                TableName::Section,
                TableName::Point,
                TableName::Staff,
                TableName::Clearance,
                TableName::Step,
                TableName::Hold,
            ],
            Layout::AsMade => &[
                TableName::Meta,
                TableName::Section,
                TableName::NetworkPoint,
                TableName::Staff,
                TableName::Clearance,
                TableName::Step,
                TableName::Hold,
            ],
            Layout::AsMoved => &[
                TableName::Meta,
                TableName::Section,
                TableName::Point,
                TableName::Staff,
                TableName::Clearance,
                TableName::Step,
                TableName::Hold,
                TableName::NetworkPoint,
            ],
            Layout::AsMadeLogged => made_logged(),
            Layout::AsMovedLogged => moved_logged(),
        }
    }

    /// The tree that has the rows of a table.
    pub(crate) fn tree(self, table: TableName) -> u32
        ensures tree { result ≡ tree_in self table }
        ensures low { result < 18 }
    {
        match (self, table) {
            (_, TableName::Meta) => 0,
            (_, TableName::Section) => 2,
            (_, TableName::Point) => 4,
            (_, TableName::Staff) => 6,
            (_, TableName::Clearance) => 8,
            (_, TableName::Step) => 10,
            (_, TableName::Hold) => 12,
            (Layout::AsMade | Layout::AsMadeLogged, TableName::NetworkPoint) => 4,
            (_, TableName::NetworkPoint) => 14,
            (Layout::AsMadeLogged, TableName::Journal) => 14,
            (_, TableName::Journal) => 16,
        }
    }
}

/// The tables as made, and that of the register's place in its journal.
fn made_logged() -> &'static [TableName]
    ensures { result.now ≡ names_in AsMadeLogged }
{
    &[
        TableName::Meta,
        TableName::Section,
        TableName::NetworkPoint,
        TableName::Staff,
        TableName::Clearance,
        TableName::Step,
        TableName::Hold,
        TableName::Journal,
    ]
}

/// The tables as moved, and that of the register's place in its journal.
fn moved_logged() -> &'static [TableName]
    ensures { result.now ≡ names_in AsMovedLogged }
{
    &[
        TableName::Meta,
        TableName::Section,
        TableName::Point,
        TableName::Staff,
        TableName::Clearance,
        TableName::Step,
        TableName::Hold,
        TableName::NetworkPoint,
        TableName::Journal,
    ]
}
