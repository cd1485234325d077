//! How rows of the network and of the staff are written, and read.
ghost use Rattle.std.specs.Prelude.{◌≡◌, IfOk, IsTrue, codes};
ghost use Rattle.serde_json.specs.Find.{as_bool};
ghost use Rattle.serde_json.specs.View.{view};
ghost use Rattle.clr_journal.specs.DeltaRows.{at_key, employee_data, employee_in, gone_data};
ghost use Rattle.clr_journal.specs.DeltaRows.{gone_in};
ghost use Rattle.clr_journal.specs.DeltaRows.{is_said_employee, is_said_point, is_said_section};
ghost use Rattle.clr_journal.specs.DeltaRows.{point_data, point_in, position_in, position_named};
ghost use Rattle.clr_journal.specs.DeltaRows.{role_in};
ghost use Rattle.clr_journal.specs.DeltaRows.{role_named, section_data, section_in};
ghost use Rattle.clr_journal.specs.DeltaRows.{supervisor_in};
ghost use Rattle.clr_net.specs.Name.{is_name};
ghost use Rattle.clr_text.specs.Json.{name_data, optional_data};
ghost use Rattle.clr_text.specs.Values.{name_in};

use crate::delta_form::Form;
use clr_net::{Name, PointRow, Position, SectionRow};
use clr_staff::{Role, StaffRow};
use clr_text::{position_text, role_text};
use serde_json::{Value, json};
use std::alloc::{AllocError, Global};

/// A section.
pub(crate) struct Section;

/// A point that goes, without its position.
pub(crate) struct Gone;

/// A point that comes, in its position.
pub(crate) struct Come;

/// An employee.
pub(crate) struct Employee;

impl Form<SectionRow> for Section {
    ghost seen = { section_data };

    ghost reading = { section_in };

    ghost is_named = { is_said_section };

    fn value(alloc: Global, row: &SectionRow) -> Result<Value, AllocError> {
        let name = name_value(alloc, &row.name)?;
        json!(in alloc; {"name": name, "source": row.source})
    }

    fn read(value: &Value) -> Option<SectionRow> {
        match (name_at(value, "name"), flag_at(value, "source")) {
            (Some(name), Some(source)) => Some(SectionRow { name, source }),
            _ => None,
        }
    }

    fn named(row: &SectionRow) {
        has_text(&row.name);
    }
}

impl Form<PointRow> for Gone {
    ghost seen = { gone_data };

    ghost reading = { gone_in };

    ghost is_named = { is_said_point };

    fn value(alloc: Global, row: &PointRow) -> Result<Value, AllocError> {
        let from = name_value(alloc, &row.from_end)?;
        let name = name_value(alloc, &row.name)?;
        let to = name_value(alloc, &row.to_end)?;
        json!(in alloc; {
            "from": from,
            "jumper": row.jumper,
            "lockable": row.lockable,
            "name": name,
            "remote": row.remote,
            "to": to
        })
    }

    fn read(value: &Value) -> Option<PointRow> {
        columns_in(value)
    }

    fn named(row: &PointRow) {
        has_texts(row);
    }
}

impl Form<PointRow> for Come {
    ghost seen = { point_data };

    ghost reading = { point_in };

    ghost is_named = { is_said_point };

    fn value(alloc: Global, row: &PointRow) -> Result<Value, AllocError> {
        let from = name_value(alloc, &row.from_end)?;
        let name = name_value(alloc, &row.name)?;
        let to = name_value(alloc, &row.to_end)?;
        json!(in alloc; {
            "from": from,
            "jumper": row.jumper,
            "lockable": row.lockable,
            "name": name,
            "position": position_text(row.position),
            "remote": row.remote,
            "to": to
        })
    }

    fn read(value: &Value) -> Option<PointRow> {
        match (columns_in(value), position_at(value)) {
            (Some(row), Some(position)) => Some(PointRow { position, ..row }),
            _ => None,
        }
    }

    fn named(row: &PointRow) {
        has_texts(row);
    }
}

impl Form<StaffRow> for Employee {
    ghost seen = { employee_data };

    ghost reading = { employee_in };

    ghost is_named = { is_said_employee };

    fn value(alloc: Global, row: &StaffRow) -> Result<Value, AllocError> {
        let name = name_value(alloc, &row.name)?;
        let supervisor = supervisor_value(alloc, &row.supervisor)?;
        json!(in alloc; {"name": name, "role": role_text(row.role), "supervisor": supervisor})
    }

    fn read(value: &Value) -> Option<StaffRow> {
        match (name_at(value, "name"), role_at(value), supervisor_at(value)) {
            (Some(name), Some(role), Some(supervisor)) => Some(StaffRow {
                name,
                role,
                supervisor,
            }),
            _ => None,
        }
    }

    fn named(row: &StaffRow) {
        has_text(&row.name);
        if let Some(supervisor) = &row.supervisor {
            has_text(supervisor);
        }
    }
}

/// A name has a name's text: a law, with nothing to do.
fn has_text(name: &Name)
    ensures { IsTrue (is_name name.now) }
{
    let _text = name.as_str();
}

/// The names of a point are names: a law, with nothing to do.
fn has_texts(row: &PointRow)
    ensures { IsTrue (is_said_point row.now) }
{
    has_text(&row.name);
    has_text(&row.from_end);
    has_text(&row.to_end);
}

/// A name as a JSON value.
fn name_value(alloc: Global, name: &Name) -> Result<Value, AllocError>
    ensures { IfOk result (λ value. view value ≡ name_data name.now) }
{
    Value::try_from_str(alloc, name.as_str())
}

/// A supervisor as a JSON value: a name, or null.
fn supervisor_value(alloc: Global, supervisor: &Option<Name>) -> Result<Value, AllocError>
    ensures { IfOk result (λ value. view value ≡ optional_data name_data supervisor.now) }
{
    match supervisor {
        Some(name) => name_value(alloc, name),
        None => Ok(Value::Null),
    }
}

/// The name at a key.
fn name_at(value: &Value, key: &str) -> Option<Name>
    ensures { result ≡ at_key name_in key.now (view value.now) }
{
    match value.get(key).and_then(Value::as_str) {
        Some(text) => Name::read(text).ok(),
        None => None,
    }
}

/// The flag at a key.
fn flag_at(value: &Value, key: &str) -> Option<bool>
    ensures { result ≡ at_key as_bool key.now (view value.now) }
{
    value.get(key).and_then(Value::as_bool)
}

/// The columns of a point but for its position.
fn columns_in(value: &Value) -> Option<PointRow>
    ensures { result ≡ gone_in (view value.now) }
{
    let name = name_at(value, "name");
    let ends = (name_at(value, "from"), name_at(value, "to"));
    let lockable = flag_at(value, "lockable");
    let flags = (flag_at(value, "remote"), flag_at(value, "jumper"));
    match (name, ends, lockable, flags) {
        (
            Some(name),
            (Some(from_end), Some(to_end)),
            Some(lockable),
            (Some(remote), Some(jumper)),
        ) => {
            Some(PointRow {
                name,
                from_end,
                to_end,
                lockable,
                remote,
                position: Position::Opened,
                jumper,
            })
        }
        _ => None,
    }
}

/// The position at `position`.
fn position_at(value: &Value) -> Option<Position>
    ensures { result ≡ at_key position_in (codes "position")
        (view value.now) }
{
    match value.get("position").and_then(Value::as_str) {
        Some(text) => position_named(text),
        None => None,
    }
}

/// The position of a text.
fn position_named(text: &str) -> Option<Position>
    ensures { result ≡ position_named text.now }
{
    match text {
        "open" => Some(Position::Opened),
        "closed" => Some(Position::Closed),
        _ => None,
    }
}

/// The role at `role`.
fn role_at(value: &Value) -> Option<Role>
    ensures { result ≡ at_key role_in (codes "role")
        (view value.now) }
{
    match value.get("role").and_then(Value::as_str) {
        Some(text) => role_named(text),
        None => None,
    }
}

/// The role of a text.
fn role_named(text: &str) -> Option<Role>
    ensures { result ≡ role_named text.now }
{
    match text {
        "operator" => Some(Role::Operator),
        "field" => Some(Role::Field),
        "charge" => Some(Role::Charge),
        _ => None,
    }
}

/// The supervisor at `supervisor`: a name, or null.
fn supervisor_at(value: &Value) -> Option<Option<Name>>
    ensures { result ≡ at_key supervisor_in (codes "supervisor") (view value.now) }
{
    match value.get("supervisor") {
        Some(Value::Null) => Some(None),
        Some(Value::String(text)) => match Name::read(text.as_str()) {
            Ok(name) => Some(Some(name)),
            Err(_) => None,
        },
        _ => None,
    }
}
