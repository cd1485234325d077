//! The rows of a table: what each reads as, from the left, up to the first column that does not
//! read.
ghost use Rattle.std.specs.Prelude.{◌≡◌};
ghost use Rattle.clr_load.specs.RowsRead.{all_read, read_clearance, read_hold, read_section};
ghost use Rattle.clr_load.specs.RowsRead.{read_staff, read_step};
ghost use Rattle.clr_load.specs.Contract.{Yields};
ghost use Rattle.clr_load.specs.Reading.{old_values, placed_values, point_values};

use crate::TableName;
use crate::fault::StoreFault;
use crate::reading::{
    action_at, flag_at, hand_at, id_at, kind_at, name_at, name_or_none_at, number_at,
    number_within, phase_at, position_at, role_at, state_at,
};
use clr_net::{PointRow, SectionRow};
use clr_order::Step;
use clr_rules::{Hold, Moment, PointState, Record, StepRow};
use clr_staff::StaffRow;
use sqlite::Row;
use std::alloc::Global;

/// A kind of row, of which a table has one to each of its rows.
pub(crate) trait TableRow: Sized + Drop {
    ghost use Rattle.std.specs.Prelude.{Result};
    ghost use Rattle.sqlite.specs.Order.{Row};
    ghost use Rattle.clr_load.specs.declared.table_name.TableName.{TableName};

    /// What the values of a row read as.
    ghost values: { Row → Result Self TableName };

    /// Reads the values of a row from the left, up to the first that does not read.
    fn read(row: &Row) -> Result<Self, TableName>
        ensures { result ≡ values row.now };
}

impl TableRow for SectionRow {
    ghost values = { read_section };

    #[tactic(auto, unfolding(crate::specs::RowsRead::read_section))]
    fn read(row: &Row) -> Result<SectionRow, TableName> {
        let name = name_at(TableName::Section, 0, row)?;
        let source = flag_at(TableName::Section, 1, row)?;
        Ok(SectionRow { name, source })
    }
}

/// A switching point with its present position, and its state.
#[derive(Clone, Copy)]
pub(crate) struct PointRead {
    pub(crate) point: PointRow,
    pub(crate) state: PointState,
}

/// Reads the columns of version 1, in a table of this name.
#[tactic(auto, unfolding(crate::specs::RowsRead::read_placed))]
fn placed_at(table: TableName, row: &Row) -> Result<PointRead, TableName>
    ensures { result ≡ placed_values table row.now }
{
    let name = name_at(table, 0, row)?;
    let from_end = name_at(table, 1, row)?;
    let to_end = name_at(table, 2, row)?;
    let lockable = flag_at(table, 3, row)?;
    let remote = flag_at(table, 4, row)?;
    let position = position_at(table, 5, row)?;
    let hand = hand_at(table, row)?;
    Ok(PointRead {
        point: PointRow {
            name,
            from_end,
            to_end,
            lockable,
            remote,
            position,
            jumper: false,
        },
        state: PointState {
            point: name,
            position,
            hand,
        },
    })
}

impl TableRow for PointRead {
    ghost values = { point_values };

    #[tactic(auto, unfolding(crate::specs::RowsRead::read_point))]
    fn read(row: &Row) -> Result<PointRead, TableName> {
        let mut read = placed_at(TableName::NetworkPoint, row)?;
        read.point.jumper = flag_at(TableName::NetworkPoint, 8, row)?;
        Ok(read)
    }
}

/// A switching point of version 1.
#[derive(Clone, Copy)]
pub(crate) struct OldPoint {
    pub(crate) read: PointRead,
}

impl TableRow for OldPoint {
    ghost values = { old_values };

    fn read(row: &Row) -> Result<OldPoint, TableName> {
        let read = placed_at(TableName::Point, row)?;
        Ok(OldPoint { read })
    }
}

impl TableRow for StaffRow {
    ghost values = { read_staff };

    #[tactic(auto, unfolding(crate::specs::RowsRead::read_staff))]
    fn read(row: &Row) -> Result<StaffRow, TableName> {
        let name = name_at(TableName::Staff, 0, row)?;
        let role = role_at(1, row)?;
        let supervisor = name_or_none_at(TableName::Staff, 2, row)?;
        Ok(StaffRow {
            name,
            role,
            supervisor,
        })
    }
}

impl TableRow for Record {
    ghost values = { read_clearance };

    #[tactic(auto, unfolding(crate::specs::RowsRead::read_clearance))]
    fn read(row: &Row) -> Result<Record, TableName> {
        let id = id_at(TableName::Clearance, 0, row)?;
        let holder = name_at(TableName::Clearance, 2, row)?;
        let work = name_or_none_at(TableName::Clearance, 3, row)?;
        let phase = phase_at(4, row)?;
        let seconds = number_at(TableName::Clearance, 5, row)?;
        let last = Moment::new(seconds).ok_or(TableName::Clearance)?;
        Ok(Record {
            id,
            holder,
            work,
            phase,
            last,
        })
    }
}

impl TableRow for StepRow {
    ghost values = { read_step };

    #[tactic(auto, unfolding(crate::specs::RowsRead::read_step))]
    fn read(row: &Row) -> Result<StepRow, TableName> {
        let id = id_at(TableName::Step, 0, row)?;
        let round = number_within(TableName::Step, 255, 2, row)?;
        let ordinal = number_within(TableName::Step, 65535, 3, row)?;
        let action = action_at(4, row)?;
        let point = name_at(TableName::Step, 5, row)?;
        let state = state_at(6, row)?;
        let reader = name_or_none_at(TableName::Step, 7, row)?;
        Ok(StepRow {
            id,
            round: round as u8,
            ordinal: ordinal as u16,
            step: Step {
                action,
                point,
                state,
                reader,
            },
        })
    }
}

impl TableRow for Hold {
    ghost values = { read_hold };

    #[tactic(auto, unfolding(crate::specs::RowsRead::read_hold))]
    fn read(row: &Row) -> Result<Hold, TableName> {
        let kind = kind_at(0, row)?;
        let place = name_at(TableName::Hold, 1, row)?;
        let id = id_at(TableName::Hold, 2, row)?;
        Ok(Hold { kind, place, id })
    }
}

/// Reads all rows of a table, up to the first that does not read.
pub(crate) fn all_read<T: TableRow>(alloc: Global, rows: &[Row]) -> Result<Vec<T>, StoreFault>
    ensures { Yields (λ items. items.items) (all_read T.TableRow.values rows.now) result }
{
    let mut items = Vec::new(alloc);
    for row in rows {
        let item = T::read(row)?;
        items.push(item)?;
    }
    Ok(items)
}
