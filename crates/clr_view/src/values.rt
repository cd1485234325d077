//! Members of what a page draws, as they are written.
ghost use Rattle.std.specs.Prelude.{◌≡◌, ◌∷◌, [], OnOk, map};
ghost use Rattle.json.specs.Token.{begin_array, begin_object, end_array, end_object, key};
ghost use Rattle.serde_json.specs.Data.{boolean, null, string};
ghost use Rattle.clr_text.specs.Json.{id_data, list_data, name_data, optional_data};
ghost use Rattle.clr_view.specs.Tokens.{Adds, data_tokens, member_tokens};
ghost use Rattle.clr_view.specs.View.{employee_data, holder_data, position_data};

use clr_net::{Name, Position};
use clr_rules::{ClearanceId, Hold};
use clr_staff::StaffRow;
use clr_text::role_text;
use json::Writer;
use std::alloc::{AllocError, Global};

/// Begins an object.
pub(crate) fn begin(out: &mut Writer) -> Result<(), AllocError>
    ensures { OnOk result (Adds (begin_object ∷ []) out.old out.new) }
{
    out.begin_object()
}

/// Ends an object.
pub(crate) fn end(out: &mut Writer) -> Result<(), AllocError>
    ensures { OnOk result (Adds (end_object ∷ []) out.old out.new) }
{
    out.end_object()
}

/// Begins a list under a key.
pub(crate) fn begin_list(out: &mut Writer, name: &str) -> Result<(), AllocError>
    ensures { OnOk result (Adds (key name.now ∷ begin_array ∷ []) out.old out.new) }
{
    out.key(name)?;
    out.begin_array()
}

/// Ends a list.
pub(crate) fn end_list(out: &mut Writer) -> Result<(), AllocError>
    ensures { OnOk result (Adds (end_array ∷ []) out.old out.new) }
{
    out.end_array()
}

/// A text.
pub(crate) fn push_text(out: &mut Writer, key: &str, text: &str) -> Result<(), AllocError>
    ensures { OnOk result (Adds (member_tokens key.now (string text.now)) out.old out.new) }
{
    out.key(key)?;
    out.string(text)
}

/// Yes or no.
pub(crate) fn push_flag(out: &mut Writer, key: &str, flag: bool) -> Result<(), AllocError>
    ensures { OnOk result (Adds (member_tokens key.now (boolean flag)) out.old out.new) }
{
    out.key(key)?;
    out.boolean(flag)
}

fn push_null(out: &mut Writer, key: &str) -> Result<(), AllocError>
    ensures { OnOk result (Adds (member_tokens key.now null) out.old out.new) }
{
    out.key(key)?;
    out.null()
}

/// A name.
pub(crate) fn push_name(out: &mut Writer, key: &str, name: &Name) -> Result<(), AllocError>
    ensures { OnOk result (Adds (member_tokens key.now (name_data name.now)) out.old out.new) }
{
    push_text(out, key, name.as_str())
}

/// A name, or null.
fn push_name_or_null(out: &mut Writer, key: &str, name: &Option<Name>) -> Result<(), AllocError>
    ensures { OnOk result
        (Adds (member_tokens key.now (optional_data name_data name.now)) out.old out.new) }
{
    match name {
        Some(name) => push_name(out, key, name),
        None => push_null(out, key),
    }
}

/// A clearance.
fn push_clearance(
    alloc: Global,
    out: &mut Writer,
    key: &str,
    id: ClearanceId,
) -> Result<(), AllocError>
    ensures { OnOk result (Adds (member_tokens key.now (id_data id)) out.old out.new) }
{
    let text = format!(in alloc; "{id}")?;
    push_text(out, key, &text)
}

/// A clearance, or null.
pub(crate) fn push_clearance_or_null(
    alloc: Global,
    out: &mut Writer,
    key: &str,
    clearance: Option<ClearanceId>,
) -> Result<(), AllocError>
    ensures { OnOk result
        (Adds (member_tokens key.now (optional_data id_data clearance)) out.old out.new) }
{
    match clearance {
        Some(id) => push_clearance(alloc, out, key, id),
        None => push_null(out, key),
    }
}

/// A position, or null.
pub(crate) fn push_position_or_null(
    out: &mut Writer,
    key: &str,
    position: Option<Position>,
) -> Result<(), AllocError>
    ensures { OnOk result
        (Adds (member_tokens key.now (optional_data position_data position)) out.old out.new) }
{
    match position {
        Some(Position::Opened) => push_text(out, key, "open"),
        Some(Position::Closed) => push_text(out, key, "closed"),
        None => push_null(out, key),
    }
}

/// Who holds a place, with the kinds of the holds.
pub(crate) fn push_holders(
    alloc: Global,
    out: &mut Writer,
    key: &str,
    holds: &[&Hold],
) -> Result<(), AllocError>
    ensures { OnOk result (Adds (member_tokens key.now
        (list_data holder_data (map (λ hold. hold.now) holds.now))) out.old out.new) }
{
    begin_list(out, key)?;
    for hold in holds {
        push_holder(alloc, out, hold)?;
    }
    end_list(out)
}

fn push_holder(alloc: Global, out: &mut Writer, hold: &Hold) -> Result<(), AllocError>
    ensures { OnOk result (Adds (data_tokens (holder_data hold.now)) out.old out.new) }
{
    begin(out)?;
    push_clearance(alloc, out, "by", hold.id)?;
    push_text(out, "kind", hold.kind.text())?;
    end(out)
}

/// The staff.
pub(crate) fn push_staff(out: &mut Writer, key: &str, staff: &[StaffRow]) -> Result<(), AllocError>
    ensures { OnOk result
        (Adds (member_tokens key.now (list_data employee_data staff.now)) out.old out.new) }
{
    begin_list(out, key)?;
    for row in staff {
        push_employee(out, row)?;
    }
    end_list(out)
}

fn push_employee(out: &mut Writer, row: &StaffRow) -> Result<(), AllocError>
    ensures { OnOk result (Adds (data_tokens (employee_data row.now)) out.old out.new) }
{
    begin(out)?;
    push_name(out, "employee", &row.name)?;
    push_text(out, "role", role_text(row.role))?;
    push_name_or_null(out, "supervisor", &row.supervisor)?;
    end(out)
}
