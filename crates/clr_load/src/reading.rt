//! The columns of a row: what each value reads as. A fault is the table of the row.
ghost use Rattle.std.specs.Prelude.{◌≡◌, ◌<◌};
ghost use Rattle.clr_rules.specs.HoldKind.{hold_kind_named};
ghost use Rattle.clr_rules.specs.Phase.{phase_named};
ghost use Rattle.clr_load.specs.RowsRead.{flag_at, hand_at, id_at, name_at, name_or_none_at};
ghost use Rattle.clr_load.specs.RowsRead.{number_at, number_within, position_at, word_at};
ghost use Rattle.clr_load.specs.Words.{action_named, role_worded, state_named};
ghost use Rattle.clr_load.specs.declared.table_name.TableName.TheVariants.{Clearance, Hold};
ghost use Rattle.clr_load.specs.declared.table_name.TableName.TheVariants.{Staff, Step};
ghost use Rattle.clr_load.specs.Reading.{Reads, is_null_at, utf8_at};

use crate::{TableName, action_named, role_worded, state_named};
use clr_net::{Name, Position};
use clr_order::{Action, StepState};
use clr_rules::{ClearanceId, HoldKind, Phase};
use clr_staff::Role;
use sqlite::Row;
use sqlite::types::ValueRef;

/// A text.
#[tactic(auto, using(crate::proofs::TextsRead::is_text_at, crate::proofs::TextsRead::no_text_at))]
pub(crate) fn text_at(table: TableName, place: usize, row: &Row) -> Result<&str, TableName>
    ensures { Reads (λ text. text.now) (utf8_at table place row.now) result }
{
    match row.get_ref(place) {
        Ok(ValueRef::Text(bytes)) => match str::from_utf8(bytes) {
            Ok(text) => Ok(text),
            Err(_) => Err(table),
        },
        _ => Err(table),
    }
}

/// A number from 0.
pub(crate) fn number_at(table: TableName, place: usize, row: &Row) -> Result<u64, TableName>
    ensures { result ≡ number_at table place row.now }
{
    match row.get_ref(place) {
        Ok(ValueRef::Int(number)) if number >= 0 => Ok(number as u64),
        _ => Err(table),
    }
}

/// A number up to a limit.
pub(crate) fn number_within(
    table: TableName,
    limit: u64,
    place: usize,
    row: &Row,
) -> Result<u64, TableName>
    ensures { result ≡ number_within table limit place row.now }
{
    let number = number_at(table, place, row)?;
    if number <= limit {
        Ok(number)
    } else {
        Err(table)
    }
}

/// 0 for no, 1 for yes.
pub(crate) fn flag_at(table: TableName, place: usize, row: &Row) -> Result<bool, TableName>
    ensures { result ≡ flag_at table place row.now }
{
    let number = number_within(table, 1, place, row)?;
    Ok(number == 1)
}

/// 0 for open, 1 for closed.
pub(crate) fn position_at(table: TableName, place: usize, row: &Row) -> Result<Position, TableName>
    ensures { result ≡ position_at table place row.now }
{
    if flag_at(table, place, row)? {
        Ok(Position::Closed)
    } else {
        Ok(Position::Opened)
    }
}

/// A name.
pub(crate) fn name_at(table: TableName, place: usize, row: &Row) -> Result<Name, TableName>
    ensures { result ≡ name_at table place row.now }
{
    let text = text_at(table, place, row)?;
    Name::read(text).map_err(|_| table)
}

/// Whether a column is NULL.
fn is_null_at(place: usize, row: &Row) -> bool
    ensures { result ≡ is_null_at place row.now }
{
    match row.get_ref(place) {
        Ok(ValueRef::Null) => true,
        Ok(_) => false,
        Err(_) => true,
    }
}

/// A name, or none where the column is NULL.
pub(crate) fn name_or_none_at(
    table: TableName,
    place: usize,
    row: &Row,
) -> Result<Option<Name>, TableName>
    ensures { result ≡ name_or_none_at table place row.now }
{
    if is_null_at(place, row) {
        return Ok(None);
    }
    let name = name_at(table, place, row)?;
    Ok(Some(name))
}

/// A clearance in two columns.
pub(crate) fn id_at(table: TableName, place: usize, row: &Row) -> Result<ClearanceId, TableName>
    requires { place < 8 }
    ensures { result ≡ id_at table place row.now }
{
    let requester = name_at(table, place, row)?;
    let number = number_at(table, place + 1, row)?;
    match u16::try_from(number) {
        Ok(number) => ClearanceId::new(requester, number).ok_or(table),
        Err(_) => Err(table),
    }
}

/// The hand of a switching point: two NULLs, or a clearance.
pub(crate) fn hand_at(table: TableName, row: &Row) -> Result<Option<ClearanceId>, TableName>
    ensures { result ≡ hand_at table row.now }
{
    if is_null_at(6, row) && is_null_at(7, row) {
        return Ok(None);
    }
    let id = id_at(table, 6, row)?;
    Ok(Some(id))
}

/// The role of an employee.
pub(crate) fn role_at(place: usize, row: &Row) -> Result<Role, TableName>
    ensures { result ≡ word_at role_worded Staff place row.now }
{
    let word = text_at(TableName::Staff, place, row)?;
    role_worded(word).ok_or(TableName::Staff)
}

/// The phase of a clearance.
pub(crate) fn phase_at(place: usize, row: &Row) -> Result<Phase, TableName>
    ensures { result ≡ word_at phase_named Clearance place row.now }
{
    let word = text_at(TableName::Clearance, place, row)?;
    Phase::named(word).ok_or(TableName::Clearance)
}

/// The action of a step.
pub(crate) fn action_at(place: usize, row: &Row) -> Result<Action, TableName>
    ensures { result ≡ word_at action_named Step place row.now }
{
    let word = text_at(TableName::Step, place, row)?;
    action_named(word).ok_or(TableName::Step)
}

/// How far a step has come.
pub(crate) fn state_at(place: usize, row: &Row) -> Result<StepState, TableName>
    ensures { result ≡ word_at state_named Step place row.now }
{
    let word = text_at(TableName::Step, place, row)?;
    state_named(word).ok_or(TableName::Step)
}

/// The kind of a hold.
pub(crate) fn kind_at(place: usize, row: &Row) -> Result<HoldKind, TableName>
    ensures { result ≡ word_at hold_kind_named Hold place row.now }
{
    let word = text_at(TableName::Hold, place, row)?;
    HoldKind::named(word).ok_or(TableName::Hold)
}
