//! Network, staff and states of points replaced in the tables, in one transaction.
ghost use Rattle.std.specs.Prelude.{◌≡◌, ◌∷◌, ◌<◌, ◌^◌, IfSome, false, map, option_copied};
ghost use Rattle.std.specs.Prelude.{option_map, true};
ghost use Rattle.sqlite.specs.Held.{state};
ghost use Rattle.clr_net.specs.Name.{name_cmp};
ghost use Rattle.clr_rules.specs.States.{state_key};
ghost use Rattle.clr_shelf.specs.Rows.{in_key_order};
ghost use Rattle.clr_load.specs.Tables.{jumper_row, place_row, section_row, staff_row};
ghost use Rattle.clr_store.specs.Change.{Does, DoesWith, added, with_rows};
ghost use Rattle.clr_store.specs.Renewed.{AreStatesOf, rows_in_state, rows_renewed};
ghost use Rattle.clr_store.specs.Renewed.{tables_renewed, with_only};
ghost use Rattle.clr_store.specs.Transaction.{FailsAs, PlacesAs, Transacts};

use crate::create::{add_sections, add_staff};
use crate::place::{can_set, set_if_given, settle};
use crate::statements::{clear_table, conclude, insert_row};
use crate::values::{handed_values, point_values};
use clr_load::{StoreFault, TableName};
use clr_net::{Network, PointRow, SectionRow};
use clr_rules::{Place, PointState};
use clr_staff::{Staff, StaffRow};
use sqlite::{Alter, Connection, Transaction};

/// Replaces network, staff and states, and sets the place, if one is given, in one transaction, or
/// leaves all as it is.
pub(crate) fn renew<S: Alter>(
    conn: &mut Connection<S>,
    network: &Network,
    staff: &Staff,
    states: &[PointState],
    place: Option<&Place>,
) -> Result<(), StoreFault>
    requires states { AreStatesOf network.now.points states.now }
    requires idle { conn.old.in_transaction ≡ false }
    ensures idle { conn.new.in_transaction ≡ false }
    ensures transacts { Transacts (PlacesAs (option_copied place.entry))
        (FailsAs (option_copied place.entry)) (state S.Store conn.old) (state S.Store conn.new)
        (tables_renewed network.now staff.now states.now) result }
{
    if !conn.is_autocommit() || !can_set(conn.schema(), place) {
        return Err(StoreFault::Sql);
    }
    let sections = network.sections();
    let points = network.points();
    let employees = staff.rows();
    let mut tx = conn.transaction();
    let done = replace_all(&mut tx, sections, points, states, employees, place);
    let ended = conclude(tx, done);
    settle(conn, ended, place)
}

/// Replaces the rows of sections, points and staff, and sets the place, if one is given.
fn replace_all<S: Alter>(
    tx: &mut Transaction<'_, S>,
    sections: &[SectionRow],
    points: &[PointRow],
    states: &[PointState],
    staff: &[StaffRow],
    place: Option<&Place>,
) -> Result<(), StoreFault>
    requires states { AreStatesOf points.now states.now }
    requires ordered { in_key_order name_cmp state_key states.now ≡ true }
    requires fits { IfSome (option_copied place) (λ place. place.number < 2 ^ 63) }
    ensures { DoesWith S.Store tx.old tx.new
        (rows_renewed sections.now points.now states.now staff.now)
        (option_map place_row (option_copied place.entry)) result }
{
    replace_rows(tx, sections, points, states, staff)?;
    set_if_given(tx, place)
}

/// Replaces the rows of sections, points and staff.
fn replace_rows<S: Alter>(
    tx: &mut Transaction<'_, S>,
    sections: &[SectionRow],
    points: &[PointRow],
    states: &[PointState],
    staff: &[StaffRow],
) -> Result<(), StoreFault>
    requires states { AreStatesOf points.now states.now }
    requires ordered { in_key_order name_cmp state_key states.now ≡ true }
    ensures { Does S.Store tx.old tx.new
        (rows_renewed sections.now points.now states.now staff.now) result }
{
    replace_sections(tx, sections)?;
    replace_points(tx, points, states)?;
    replace_staff(tx, staff)
}

fn replace_sections<S: Alter>(
    tx: &mut Transaction<'_, S>,
    sections: &[SectionRow],
) -> Result<(), StoreFault>
    ensures { Does S.Store tx.old tx.new
        (with_only TableName.Section (map section_row sections.now)) result }
{
    clear_table(tx, TableName::Section)?;
    add_sections(tx, sections)
}

fn replace_points<S: Alter>(
    tx: &mut Transaction<'_, S>,
    points: &[PointRow],
    states: &[PointState],
) -> Result<(), StoreFault>
    requires states { AreStatesOf points.now states.now }
    requires ordered { in_key_order name_cmp state_key states.now ≡ true }
    ensures { Does S.Store tx.old tx.new
        (with_only TableName.NetworkPoint (rows_in_state states.now points.now)) result }
{
    clear_table(tx, TableName::NetworkPoint)?;
    add_points(tx, points, states)
}

fn replace_staff<S: Alter>(
    tx: &mut Transaction<'_, S>,
    staff: &[StaffRow],
) -> Result<(), StoreFault>
    ensures { Does S.Store tx.old tx.new
        (with_only TableName.Staff (map staff_row staff.now)) result }
{
    clear_table(tx, TableName::Staff)?;
    add_staff(tx, staff)
}

/// Adds points, each with its state.
fn add_points<S: Alter>(
    tx: &mut Transaction<'_, S>,
    points: &[PointRow],
    states: &[PointState],
) -> Result<(), StoreFault>
    requires states { AreStatesOf points.now states.now }
    requires ordered { in_key_order name_cmp state_key states.now ≡ true }
    ensures { Does S.Store tx.old tx.new
        (with_rows TableName.NetworkPoint (added (rows_in_state states.now points.now))) result }
{
    for (place, point) in points.iter().enumerate() {
        add_point(tx, point, &states[place])?;
    }
    Ok(())
}

/// Adds a point with its state.
fn add_point<S: Alter>(
    tx: &mut Transaction<'_, S>,
    point: &PointRow,
    state: &PointState,
) -> Result<(), StoreFault>
    ensures { Does S.Store tx.old tx.new (with_rows TableName.NetworkPoint
        (λ rows. jumper_row point.now state.now ∷ rows)) result }
{
    match state.hand {
        Some(id) => {
            let requester = id.requester();
            let row = handed_values(point, state.position, &requester, id.number());
            insert_row(tx, TableName::NetworkPoint, &row)
        }
        None => {
            let row = point_values(point, state.position);
            insert_row(tx, TableName::NetworkPoint, &row)
        }
    }
}
