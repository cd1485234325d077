//! Rows of tables, by their keys.
ghost use Rattle.std.specs.Prelude.{◌≡◌, ◌↔◌, true};
ghost use Rattle.std.specs.Ordering.{is_lt};
ghost use Rattle.std.specs.declared.cmp.Ordering.{Ordering};

use clr_net::{Name, PointRow, SectionRow};
use clr_rules::{ClearanceId, Hold, PointState, Record, StepKey, StepRow};
use clr_shelf::Row;
use clr_staff::StaffRow;
use std::cmp::Ordering;

/// A row of a table.
pub trait TableRow {
    /// Its key.
    type Key;

    ghost key_of: { Self → Self.Key };

    ghost key_cmp: { Self.Key → Self.Key → Ordering };

    fn key(&self) -> Self::Key
        ensures { result ≡ key_of self.now };

    /// Whether this is the row of a lower key.
    fn is_before(&self, other: &Self) -> bool
        ensures { result ≡ is_lt (key_cmp (key_of self.now) (key_of other.now)) };

    /// Whether two rows are the same in each column.
    fn is_same(&self, other: &Self) -> bool
        ensures { (result ≡ true) ↔ (self.now ≡ other.now) };
}

/// A switching point as it is now: its row, and its state.
#[derive(Clone, Copy, Debug, PartialEq, Eq)]
pub struct PointNow {
    pub row: PointRow,
    pub state: PointState,
}

impl TableRow for SectionRow {
    ghost use Rattle.clr_net.specs.Name.{name_cmp};

    type Key = Name;

    ghost key_of = { λ row. row.name };

    ghost key_cmp = { name_cmp };

    fn key(&self) -> Name {
        self.name
    }

    fn is_before(&self, other: &SectionRow) -> bool {
        self.name < other.name
    }

    fn is_same(&self, other: &SectionRow) -> bool {
        *self == *other
    }
}

impl TableRow for PointNow {
    ghost use Rattle.clr_net.specs.Name.{name_cmp};

    type Key = Name;

    ghost key_of = { λ point. point.row.name };

    ghost key_cmp = { name_cmp };

    fn key(&self) -> Name {
        self.row.name
    }

    fn is_before(&self, other: &PointNow) -> bool {
        self.row.name < other.row.name
    }

    fn is_same(&self, other: &PointNow) -> bool {
        *self == *other
    }
}

impl TableRow for StaffRow {
    ghost use Rattle.clr_net.specs.Name.{name_cmp};

    type Key = Name;

    ghost key_of = { λ row. row.name };

    ghost key_cmp = { name_cmp };

    fn key(&self) -> Name {
        self.name
    }

    fn is_before(&self, other: &StaffRow) -> bool {
        self.name < other.name
    }

    fn is_same(&self, other: &StaffRow) -> bool {
        *self == *other
    }
}

impl TableRow for Record {
    ghost use Rattle.clr_rules.specs.Id.{id_cmp};

    type Key = ClearanceId;

    ghost key_of = { λ row. row.id };

    ghost key_cmp = { id_cmp };

    fn key(&self) -> ClearanceId {
        self.id
    }

    fn is_before(&self, other: &Record) -> bool {
        self.id < other.id
    }

    fn is_same(&self, other: &Record) -> bool {
        *self == *other
    }
}

impl TableRow for StepRow {
    ghost use Rattle.clr_rules.specs.StepKey.{step_key, step_key_cmp};

    type Key = StepKey;

    ghost key_of = { step_key };

    ghost key_cmp = { step_key_cmp };

    fn key(&self) -> StepKey {
        Row::key(self)
    }

    fn is_before(&self, other: &StepRow) -> bool {
        self.compare_key(&Row::key(other)) == Ordering::Less
    }

    fn is_same(&self, other: &StepRow) -> bool {
        *self == *other
    }
}

impl TableRow for Hold {
    ghost use Rattle.clr_rules.specs.Hold.{hold_cmp};

    type Key = Hold;

    ghost key_of = { λ hold. hold };

    ghost key_cmp = { hold_cmp };

    fn key(&self) -> Hold {
        *self
    }

    fn is_before(&self, other: &Hold) -> bool {
        self.compare_key(other) == Ordering::Less
    }

    fn is_same(&self, other: &Hold) -> bool {
        *self == *other
    }
}
