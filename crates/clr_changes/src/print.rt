//! What changes, as lines.
ghost use Rattle.std.specs.Prelude.{◌≡◌, ◌++◌, IfOk, OnOk, codes, option_copied, string_bytes};
ghost use Rattle.std.specs.List.{flat_map};
ghost use Rattle.clr_changes.specs.Lines.{Said, change_lines, changed_line, employee_columns};
ghost use Rattle.clr_changes.specs.Lines.{employees_said, point_columns};
ghost use Rattle.clr_changes.specs.Lines.{flag_line, name_or_none, namesake, new_line};
ghost use Rattle.clr_changes.specs.Lines.{points_said, role_text, row_lines};
ghost use Rattle.clr_changes.specs.Lines.{sections_said, text_line, was_text};
ghost use Rattle.clr_changes.specs.Lines.{yes_no};
ghost use Rattle.clr_update.specs.Shown.{as_changes};

use clr_net::{Name, Named, PointRow, SectionRow};
use clr_staff::{Role, StaffRow};
use clr_update::Changes;
use std::alloc::{AllocError, Global};

/// What changes, a line each: of the sections, the points and the staff.
pub fn print_changes(alloc: Global, changes: &Changes) -> Result<String, AllocError>
    ensures { IfOk result (λ text. string_bytes text ≡ change_lines (as_changes changes.now)) }
{
    let mut text = String::new(alloc);
    push_rows(&mut text, &changes.sections_go, &changes.sections_come)?;
    push_rows(&mut text, &changes.points_go, &changes.points_come)?;
    push_rows(&mut text, &changes.staff_goes, &changes.staff_comes)?;
    Ok(text)
}

/// A row that goes by a name and has columns, as a line has them.
trait Printed: Named {
    ghost said: { Said Self };

    /// Adds what the row is called.
    fn push_called(&self, text: &mut String) -> Result<(), AllocError>
        ensures { OnOk result
            (string_bytes text.new ≡ string_bytes text.old ++ said.called self.now) };

    /// Adds a line for each column in which another row differs.
    fn push_columns(&self, text: &mut String, is: &Self) -> Result<(), AllocError>
        ensures { OnOk result
            (string_bytes text.new ≡ string_bytes text.old ++ said.columns self.now is.now) };

    // Its name.
    ghost named: { (row : Self) → said.name_of row ≡ Self.name_of row };
}

impl Printed for SectionRow {
    ghost use Rattle.std.specs.Prelude.{refl};

    ghost said = { sections_said };

    fn push_called(&self, text: &mut String) -> Result<(), AllocError> {
        push_name(text, "section ", self.name)
    }

    fn push_columns(&self, text: &mut String, is: &SectionRow) -> Result<(), AllocError> {
        push_flag(text, "section ", is.name, "source", self.source, is.source)
    }

    ghost named = { λ row. refl };
}

impl Printed for PointRow {
    ghost use Rattle.std.specs.Prelude.{refl};

    ghost said = { points_said };

    fn push_called(&self, text: &mut String) -> Result<(), AllocError> {
        push_name(text, "point ", self.name)
    }

    fn push_columns(&self, text: &mut String, is: &PointRow) -> Result<(), AllocError> {
        push_point_columns(text, self, is)
    }

    ghost named = { λ row. refl };
}

impl Printed for StaffRow {
    ghost use Rattle.std.specs.Prelude.{refl};

    ghost said = { employees_said };

    fn push_called(&self, text: &mut String) -> Result<(), AllocError> {
        push_name(text, "employee ", self.name)
    }

    fn push_columns(&self, text: &mut String, is: &StaffRow) -> Result<(), AllocError> {
        push_employee_columns(text, self, is)
    }

    ghost named = { λ row. refl };
}

/// Adds the lines of the columns of a point that differ.
#[tactic(auto, using(crate::proofs::Appended::four_appended))]
fn push_point_columns(text: &mut String, was: &PointRow, is: &PointRow) -> Result<(), AllocError>
    ensures { OnOk result (string_bytes text.new
        ≡ string_bytes text.old ++ point_columns was.now is.now) }
{
    push_ends(text, was, is)?;
    let point = is.name;
    let (was_lockable, is_lockable) = (was.lockable, is.lockable);
    push_flag(text, "point ", point, "lockable", was_lockable, is_lockable)?;
    push_flag(text, "point ", point, "remote", was.remote, is.remote)?;
    push_flag(text, "point ", point, "jumper", was.jumper, is.jumper)?;
    Ok(())
}

/// Adds the lines of the columns of an employee that differ.
#[tactic(auto, using(crate::proofs::Appended::two_appended))]
fn push_employee_columns(text: &mut String, was: &StaffRow, is: &StaffRow) -> Result<(), AllocError>
    ensures { OnOk result (string_bytes text.new
        ≡ string_bytes text.old ++ employee_columns was.now is.now) }
{
    let (was_role, is_role) = (role_text(was.role), role_text(is.role));
    push_text(text, "employee ", is.name, "role", was_role, is_role)?;
    let was_over = name_or_none(&was.supervisor);
    let is_over = name_or_none(&is.supervisor);
    push_text(text, "employee ", is.name, "supervisor", was_over, is_over)?;
    Ok(())
}

/// Adds the lines of the ends of a point, if they differ.
#[tactic(auto, using(crate::proofs::Appended::two_appended))]
fn push_ends(text: &mut String, was: &PointRow, is: &PointRow) -> Result<(), AllocError>
    ensures { OnOk result (string_bytes text.new ≡ string_bytes text.old
        ++ (text_line (codes "point " ++ is.now.name) (codes "from") was.now.from_end
        is.now.from_end
        ++ text_line (codes "point " ++ is.now.name) (codes "to") was.now.to_end
        is.now.to_end)) }
{
    let (was_from, is_from) = (was.from_end.as_str(), is.from_end.as_str());
    push_text(text, "point ", is.name, "from", was_from, is_from)?;
    let (was_to, is_to) = (was.to_end.as_str(), is.to_end.as_str());
    push_text(text, "point ", is.name, "to", was_to, is_to)?;
    Ok(())
}

/// Adds the lines of rows of a kind: those that go or change, and then those that come.
#[tactic(auto, using(crate::proofs::Appended::two_appended))]
fn push_rows<R: Printed>(text: &mut String, go: &[R], come: &[R]) -> Result<(), AllocError>
    ensures { OnOk result (string_bytes text.new
        ≡ string_bytes text.old ++ row_lines R.said go.now come.now) }
{
    push_gone(text, go, come)?;
    push_new(text, go, come)?;
    Ok(())
}

/// Adds the lines of the rows that go or change.
fn push_gone<R: Printed>(text: &mut String, go: &[R], come: &[R]) -> Result<(), AllocError>
    ensures { OnOk result (string_bytes text.new ≡ string_bytes text.old
        ++ flat_map (λ row. changed_line R.said row (namesake R.said come.now row)) go.now) }
{
    for row in go {
        push_changed(text, row, namesake(come, row))?;
    }
    Ok(())
}

/// Adds the lines of the rows that are new.
fn push_new<R: Printed>(text: &mut String, go: &[R], come: &[R]) -> Result<(), AllocError>
    ensures { OnOk result (string_bytes text.new ≡ string_bytes text.old
        ++ flat_map (λ row. new_line R.said row (namesake R.said go.now row)) come.now) }
{
    for row in come {
        if namesake(go, row).is_none() {
            row.push_called(text)?;
            text.push_str(" comes\n")?;
        }
    }
    Ok(())
}

/// The row of the same name, if there is one among these.
fn namesake<'a, R: Printed>(rows: &'a [R], row: &R) -> Option<&'a R>
    ensures { option_copied result ≡ namesake R.said rows.now row.now }
{
    let name = row.name();
    for other in rows {
        if other.name() == name {
            return Some(other);
        }
    }
    None
}

/// Adds the lines of a row that goes, or of which another has the name.
fn push_changed<R: Printed>(text: &mut String, row: &R, is: Option<&R>) -> Result<(), AllocError>
    ensures { OnOk result (string_bytes text.new
        ≡ string_bytes text.old ++ changed_line R.said row.now (option_copied is.entry)) }
{
    match is {
        Some(is) => row.push_columns(text, is),
        None => {
            row.push_called(text)?;
            text.push_str(" goes\n")?;
            Ok(())
        }
    }
}

/// Adds a kind of row, and a row's name.
#[tactic(auto, using(crate::proofs::Appended::two_appended))]
fn push_name(text: &mut String, kind: &str, name: Name) -> Result<(), AllocError>
    ensures { OnOk result
        (string_bytes text.new ≡ string_bytes text.old ++ (kind.now ++ name)) }
{
    text.push_str(kind)?;
    text.push_str(name.as_str())?;
    Ok(())
}

/// Adds the line of a column of a row, if its texts differ.
#[tactic(auto, using(crate::proofs::Appended::two_appended))]
fn push_text(
    text: &mut String,
    kind: &str,
    name: Name,
    column: &str,
    was: &str,
    is: &str,
) -> Result<(), AllocError>
    ensures { OnOk result (string_bytes text.new ≡ string_bytes text.old
        ++ text_line (kind.now ++ name) column.now was.now is.now) }
{
    if was == is {
        return Ok(());
    }
    push_column(text, kind, name, column)?;
    push_was(text, was, is)?;
    Ok(())
}

/// Adds a row, and the column of it that differs.
#[tactic(auto, using(crate::proofs::Appended::three_appended))]
fn push_column(text: &mut String, kind: &str, name: Name, column: &str) -> Result<(), AllocError>
    ensures { OnOk result (string_bytes text.new
        ≡ string_bytes text.old ++ (kind.now ++ name ++ codes ": " ++ column.now)) }
{
    push_name(text, kind, name)?;
    text.push_str(": ")?;
    text.push_str(column)?;
    Ok(())
}

/// Adds what is in a column, and what was.
#[tactic(auto, using(crate::proofs::Appended::five_appended))]
fn push_was(text: &mut String, was: &str, is: &str) -> Result<(), AllocError>
    ensures { OnOk result
        (string_bytes text.new ≡ string_bytes text.old ++ was_text was.now is.now) }
{
    text.push_str(" ")?;
    text.push_str(is)?;
    text.push_str(", was ")?;
    text.push_str(was)?;
    text.push_str("\n")?;
    Ok(())
}

/// Adds the line of a column that is yes or no, if it differs.
fn push_flag(
    text: &mut String,
    kind: &str,
    name: Name,
    column: &str,
    was: bool,
    is: bool,
) -> Result<(), AllocError>
    ensures { OnOk result (string_bytes text.new ≡ string_bytes text.old
        ++ flag_line (kind.now ++ name) column.now was is) }
{
    push_text(text, kind, name, column, yes_no(was), yes_no(is))
}

fn yes_no(flag: bool) -> &'static str
    ensures { result.now ≡ yes_no flag }
{
    if flag { "yes" } else { "no" }
}

fn role_text(role: Role) -> &'static str
    ensures { result.now ≡ role_text role }
{
    match role {
        Role::Operator => "operator",
        Role::Field => "field",
        Role::Charge => "charge",
    }
}

/// A supervisor's name, or none.
fn name_or_none(name: &Option<Name>) -> &str
    ensures { result.now ≡ name_or_none name.now }
{
    match name {
        Some(name) => name.as_str(),
        None => "none",
    }
}
