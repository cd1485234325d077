//! The columns of a row: what each field reads as.
ghost use Rattle.std.specs.Prelude.{◌≡◌, ◌<◌};
ghost use Rattle.csv.specs.Records.{fields_of};
ghost use Rattle.clr_csv.specs.Columns.{fault_in, field_in, login_in, name_in, name_or_none_in};
ghost use Rattle.clr_csv.specs.Columns.{position_in, role_in, yes_no_in};

use crate::fault::CsvFault;
use clr_net::{Name, Position};
use clr_staff::{Login, Role};
use csv::StringRecord;

/// Why a column of a row does not read. Columns count from 1.
#[derive(Clone, Copy, Debug, PartialEq, Eq)]
pub(crate) enum ColumnFault {
    /// The field is not a name, or not a login.
    BadName(usize),
    /// The field is not a word that may be there.
    BadWord(usize),
}

impl ColumnFault {
    /// The fault, of this row.
    pub(crate) fn in_row(self, row: usize) -> CsvFault
        ensures { result ≡ fault_in row self }
    {
        match self {
            ColumnFault::BadName(column) => CsvFault::BadName(row, column),
            ColumnFault::BadWord(column) => CsvFault::BadWord(row, column),
        }
    }
}

/// The text of a column, empty where the row has no such column.
fn field_in(column: usize, fields: &StringRecord) -> &str
    requires { 0 < column }
    ensures { result.now ≡ field_in column (fields_of fields.now) }
{
    fields.get(column - 1).unwrap_or("")
}

/// Reads a name. It is stored in place, so no memory is asked for.
pub(crate) fn name_in(column: usize, fields: &StringRecord) -> Result<Name, ColumnFault>
    requires { 0 < column }
    ensures { result ≡ name_in column (fields_of fields.now) }
{
    Name::read(field_in(column, fields)).map_err(|_| ColumnFault::BadName(column))
}

/// Reads a name, or none from an empty field.
pub(crate) fn name_or_none_in(
    column: usize,
    fields: &StringRecord,
) -> Result<Option<Name>, ColumnFault>
    requires { 0 < column }
    ensures { result ≡ name_or_none_in column (fields_of fields.now) }
{
    if field_in(column, fields).is_empty() {
        return Ok(None);
    }
    let name = name_in(column, fields)?;
    Ok(Some(name))
}

/// Reads a login, which is stored in place too.
pub(crate) fn login_in(column: usize, fields: &StringRecord) -> Result<Login, ColumnFault>
    requires { 0 < column }
    ensures { result ≡ login_in column (fields_of fields.now) }
{
    Login::read(field_in(column, fields)).ok_or(ColumnFault::BadName(column))
}

/// Reads `yes` or `no`.
pub(crate) fn yes_no_in(column: usize, fields: &StringRecord) -> Result<bool, ColumnFault>
    requires { 0 < column }
    ensures { result ≡ yes_no_in column (fields_of fields.now) }
{
    match field_in(column, fields) {
        "yes" => Ok(true),
        "no" => Ok(false),
        _ => Err(ColumnFault::BadWord(column)),
    }
}

/// Reads `open` or `closed`.
pub(crate) fn position_in(column: usize, fields: &StringRecord) -> Result<Position, ColumnFault>
    requires { 0 < column }
    ensures { result ≡ position_in column (fields_of fields.now) }
{
    match field_in(column, fields) {
        "open" => Ok(Position::Opened),
        "closed" => Ok(Position::Closed),
        _ => Err(ColumnFault::BadWord(column)),
    }
}

/// Reads `operator`, `field` or `charge`.
pub(crate) fn role_in(column: usize, fields: &StringRecord) -> Result<Role, ColumnFault>
    requires { 0 < column }
    ensures { result ≡ role_in column (fields_of fields.now) }
{
    match field_in(column, fields) {
        "operator" => Ok(Role::Operator),
        "field" => Ok(Role::Field),
        "charge" => Ok(Role::Charge),
        _ => Err(ColumnFault::BadWord(column)),
    }
}
