//! The edits of a change, each by its statements, inside a transaction.
ghost use Rattle.std.specs.Prelude.{◌<◌, ◌≡◌, ◌∷◌, ◌^◌, IfSome, None, Some, option_copied};
ghost use Rattle.std.specs.Prelude.{option_map, take, true};
ghost use Rattle.sqlite.specs.Held.{state};
ghost use Rattle.sqlite.specs.Values.{bound};
ghost use Rattle.clr_rules.specs.declared.change.Edit.TheVariants.{SetPosition, SetHand, PutHold};
ghost use Rattle.clr_rules.specs.declared.change.Edit.TheVariants.{TakeHold, PutRecord, PutStep};
ghost use Rattle.clr_rules.specs.declared.change.Edit.TheVariants.{AddSection, AddPoint};
ghost use Rattle.clr_load.specs.TableEdits.{table_edited, tables_edited, with_table_row};
ghost use Rattle.clr_load.specs.Tables.{place_row};
ghost use Rattle.clr_store.specs.Change.{Does, DoesWith, with_rows};
ghost use Rattle.clr_load.specs.Layout.{has_table};
ghost use Rattle.clr_load.specs.declared.layout.Layout.TheVariants.{AsMade};
ghost use Rattle.clr_load.specs.Schema.{columns_in, keys_in};
ghost use Rattle.clr_load.specs.Stored.{fits_columns, has_key};

use crate::place::set_if_given;
use crate::statements::{delete_row, insert_new, insert_row, replace_row};
use crate::values::{
    flag_value, name_or_null, name_value, number_value, point_values, position_value, text_value,
};
use clr_load::{StoreFault, TableName, action_name, state_name};
use clr_net::{Name, PointRow, Position, SectionRow};
use clr_order::StepState;
use clr_rules::{ClearanceId, Edit, Hold, Phase, Place, Record, StepRow};
use sqlite::types::ValueRef;
use sqlite::{Alter, Transaction};

/// Puts a row in place of the one that has its key. Where that is there, it takes one statement.
pub(crate) fn put_row<S: Alter>(
    tx: &mut Transaction<'_, S>,
    table: TableName,
    row: &[ValueRef<'_>],
) -> Result<(), StoreFault>
    requires there { has_table AsMade table ≡ true }
    requires fits { fits_columns (columns_in table) (bound row.now) ≡ true }
    requires keyed { has_key (keys_in table) (take (keys_in table) (bound row.now)) ≡ true }
    ensures { Does S.Store tx.old tx.new
        (with_rows table (with_table_row (keys_in table) (bound row.now))) result }
{
    if replace_row(tx, table, row)? == 0 {
        insert_row(tx, table, row)
    } else {
        Ok(())
    }
}

/// Puts a row in place of the one that has its key. Where none is there, it takes one statement.
fn put_new<S: Alter>(
    tx: &mut Transaction<'_, S>,
    table: TableName,
    row: &[ValueRef<'_>],
) -> Result<(), StoreFault>
    requires there { has_table AsMade table ≡ true }
    requires fits { fits_columns (columns_in table) (bound row.now) ≡ true }
    requires keyed { has_key (keys_in table) (take (keys_in table) (bound row.now)) ≡ true }
    ensures { Does S.Store tx.old tx.new
        (with_rows table (with_table_row (keys_in table) (bound row.now))) result }
{
    if insert_new(tx, table, row)? {
        Ok(())
    } else {
        put_row(tx, table, row)
    }
}

/// Puts a row in place of the one that has its key. It takes one statement if the guess is right
/// that none is there, or that one is.
fn put<S: Alter>(
    tx: &mut Transaction<'_, S>,
    table: TableName,
    row: &[ValueRef<'_>],
    is_new: bool,
) -> Result<(), StoreFault>
    requires there { has_table AsMade table ≡ true }
    requires fits { fits_columns (columns_in table) (bound row.now) ≡ true }
    requires keyed { has_key (keys_in table) (take (keys_in table) (bound row.now)) ≡ true }
    ensures { Does S.Store tx.old tx.new
        (with_rows table (with_table_row (keys_in table) (bound row.now))) result }
{
    if is_new {
        put_new(tx, table, row)
    } else {
        put_row(tx, table, row)
    }
}

fn put_hold<S: Alter>(tx: &mut Transaction<'_, S>, hold: &Hold) -> Result<(), StoreFault>
    ensures { Does S.Store tx.old tx.new (table_edited (PutHold hold.now)) result }
{
    let requester = hold.id.requester();
    let row = [
        text_value(hold.kind.text()),
        name_value(&hold.place),
        name_value(&requester),
        number_value(u64::from(hold.id.number())),
    ];
    put_new(tx, TableName::Hold, &row)
}

fn take_hold<S: Alter>(tx: &mut Transaction<'_, S>, hold: &Hold) -> Result<(), StoreFault>
    ensures { Does S.Store tx.old tx.new (table_edited (TakeHold hold.now)) result }
{
    let requester = hold.id.requester();
    let key = [
        text_value(hold.kind.text()),
        name_value(&hold.place),
        name_value(&requester),
        number_value(u64::from(hold.id.number())),
    ];
    delete_row(tx, TableName::Hold, &key)
}

fn put_record<S: Alter>(tx: &mut Transaction<'_, S>, row: &Record) -> Result<(), StoreFault>
    ensures { Does S.Store tx.old tx.new (table_edited (PutRecord row.now)) result }
{
    let requester = row.id.requester();
    let values = [
        name_value(&requester),
        number_value(u64::from(row.id.number())),
        name_value(&row.holder),
        name_or_null(&row.work),
        text_value(row.phase.text()),
        number_value(row.last.seconds()),
    ];
    let is_new = row.phase == Phase::Requested;
    put(tx, TableName::Clearance, &values, is_new)
}

fn put_step<S: Alter>(tx: &mut Transaction<'_, S>, row: &StepRow) -> Result<(), StoreFault>
    ensures { Does S.Store tx.old tx.new (table_edited (PutStep row.now)) result }
{
    let requester = row.id.requester();
    let values = [
        name_value(&requester),
        number_value(u64::from(row.id.number())),
        number_value(u64::from(row.round)),
        number_value(u64::from(row.ordinal)),
        text_value(action_name(row.step.action)),
        name_value(&row.step.point),
        text_value(state_name(row.step.state)),
        name_or_null(&row.step.reader),
    ];
    let is_new = row.step.state == StepState::Waiting;
    put(tx, TableName::Step, &values, is_new)
}

fn set_position<S: Alter>(
    tx: &mut Transaction<'_, S>,
    point: &Name,
    position: Position,
) -> Result<(), StoreFault>
    ensures { Does S.Store tx.old tx.new (table_edited (SetPosition point.now position)) result }
{
    let given = [name_value(point), position_value(position)];
    tx.execute(
        "UPDATE network_point SET position = ?2 WHERE name = ?1",
        &given,
    )?;
    Ok(())
}

/// Sets the position of a point, and puts it out of any hand.
fn set_free<S: Alter>(
    tx: &mut Transaction<'_, S>,
    point: &Name,
    position: Position,
) -> Result<(), StoreFault>
    ensures { Does S.Store tx.old tx.new (λ t. table_edited (SetHand point.now None)
        (table_edited (SetPosition point.now position) t)) result }
{
    let given = [
        name_value(point),
        position_value(position),
        ValueRef::Null,
        ValueRef::Null,
    ];
    tx.execute(
        "UPDATE network_point SET position = ?2, hand_requester = ?3, hand_number = ?4 \
         WHERE name = ?1",
        &given,
    )?;
    Ok(())
}

fn clear_hand<S: Alter>(tx: &mut Transaction<'_, S>, point: &Name) -> Result<(), StoreFault>
    ensures { Does S.Store tx.old tx.new (table_edited (SetHand point.now None)) result }
{
    let given = [name_value(point), ValueRef::Null, ValueRef::Null];
    tx.execute(
        "UPDATE network_point SET hand_requester = ?2, hand_number = ?3 WHERE name = ?1",
        &given,
    )?;
    Ok(())
}

fn give_hand<S: Alter>(
    tx: &mut Transaction<'_, S>,
    point: &Name,
    id: ClearanceId,
) -> Result<(), StoreFault>
    ensures { Does S.Store tx.old tx.new (table_edited (SetHand point.now (Some id))) result }
{
    let requester = id.requester();
    let number = number_value(u64::from(id.number()));
    let given = [name_value(point), name_value(&requester), number];
    tx.execute(
        "UPDATE network_point SET hand_requester = ?2, hand_number = ?3 WHERE name = ?1",
        &given,
    )?;
    Ok(())
}

fn set_hand<S: Alter>(
    tx: &mut Transaction<'_, S>,
    point: &Name,
    hand: Option<ClearanceId>,
) -> Result<(), StoreFault>
    ensures { Does S.Store tx.old tx.new (table_edited (SetHand point.now hand)) result }
{
    match hand {
        Some(id) => give_hand(tx, point, id),
        None => clear_hand(tx, point),
    }
}

fn add_section<S: Alter>(
    tx: &mut Transaction<'_, S>,
    section: &SectionRow,
) -> Result<(), StoreFault>
    ensures { Does S.Store tx.old tx.new (table_edited (AddSection section.now)) result }
{
    let row = [name_value(&section.name), flag_value(section.source)];
    put_new(tx, TableName::Section, &row)
}

fn add_point<S: Alter>(tx: &mut Transaction<'_, S>, point: &PointRow) -> Result<(), StoreFault>
    ensures { Does S.Store tx.old tx.new (table_edited (AddPoint point.now)) result }
{
    let row = point_values(point, Position::Opened);
    put_new(tx, TableName::NetworkPoint, &row)
}

/// Makes one edit.
fn make<S: Alter>(tx: &mut Transaction<'_, S>, edit: &Edit) -> Result<(), StoreFault>
    ensures { Does S.Store tx.old tx.new (table_edited edit.now) result }
{
    match edit {
        Edit::SetPosition { point, position } => set_position(tx, point, *position),
        Edit::SetHand { point, hand } => set_hand(tx, point, *hand),
        Edit::PutHold(hold) => put_hold(tx, hold),
        Edit::TakeHold(hold) => take_hold(tx, hold),
        Edit::PutRecord(record) => put_record(tx, record),
        Edit::PutStep(row) => put_step(tx, row),
        Edit::AddSection(section) => add_section(tx, section),
        Edit::AddPoint(point) => add_point(tx, point),
    }
}

/// The point and the position that an edit sets.
fn set_point(edit: &Edit) -> Option<(Name, Position)>
    ensures { IfSome result (λ it. edit.now ≡ SetPosition it.0 it.1) }
{
    match edit {
        Edit::SetPosition { point, position } => Some((*point, *position)),
        _ => None,
    }
}

/// The point that an edit puts out of any hand.
fn freed_point(edit: &Edit) -> Option<Name>
    ensures { IfSome result (λ point. edit.now ≡ SetHand point None) }
{
    match edit {
        Edit::SetHand { point, hand: None } => Some(*point),
        _ => None,
    }
}

/// The point that the first two edits put in a position and out of any hand, that position, and the
/// other edits.
fn freed_first(edits: &[Edit]) -> Option<(Name, Position, &[Edit])>
    ensures { IfSome result (λ it. edits.now
        ≡ SetPosition it.0 it.1 ∷ SetHand it.0 None ∷ it.2.now) }
{
    let [first, second, rest @ ..] = edits else {
        return None;
    };
    let (point, position) = set_point(first)?;
    let other = freed_point(second)?;
    if point == other {
        Some((point, position, rest))
    } else {
        None
    }
}

/// Makes all edits. Those that a report begins with, the position and the hand of a point, are one
/// statement.
fn make_all<S: Alter>(tx: &mut Transaction<'_, S>, edits: &[Edit]) -> Result<(), StoreFault>
    ensures { Does S.Store tx.old tx.new (tables_edited edits.now) result }
{
    match freed_first(edits) {
        Some(first) => {
            set_free(tx, &first.0, first.1)?;
            make_each(tx, first.2)
        }
        None => make_each(tx, edits),
    }
}

/// Makes the edits, one after the other.
fn make_each<S: Alter>(tx: &mut Transaction<'_, S>, edits: &[Edit]) -> Result<(), StoreFault>
    ensures { Does S.Store tx.old tx.new (tables_edited edits.now) result }
{
    for edit in edits {
        make(tx, edit)?;
    }
    Ok(())
}

/// Makes all edits, and sets the place, if one is given.
pub(crate) fn make_with<S: Alter>(
    tx: &mut Transaction<'_, S>,
    edits: &[Edit],
    place: Option<&Place>,
) -> Result<(), StoreFault>
    requires { IfSome (option_copied place) (λ place. place.number < 2 ^ 63) }
    ensures { DoesWith S.Store tx.old tx.new (tables_edited edits.now)
        (option_map place_row (option_copied place.entry)) result }
{
    make_all(tx, edits)?;
    set_if_given(tx, place)
}
