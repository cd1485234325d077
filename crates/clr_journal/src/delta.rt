//! The changes of an update as a JSON value.
ghost use Rattle.std.specs.Prelude.{◌≡◌, IfOk, IsTrue, option_map};
ghost use Rattle.std.specs.List.{list_all};
ghost use Rattle.serde_json.specs.View.{view};
ghost use Rattle.clr_journal.specs.Delta.{both_data, both_in, can_be_said, changes_data};
ghost use Rattle.clr_journal.specs.Delta.{changes_in};
ghost use Rattle.clr_journal.specs.Delta.{list_in};
ghost use Rattle.clr_journal.specs.DeltaRows.{at_key, is_open};
ghost use Rattle.clr_text.specs.Json.{list_data};
ghost use Rattle.clr_update.specs.Shown.{as_changes};

use crate::delta_form::{Form, list_in, list_value, names_said};
use crate::delta_rows::{Come, Employee, Gone, Section};
use clr_net::{PointRow, SectionRow};
use clr_staff::StaffRow;
use clr_update::Changes;
use serde_json::{Value, json};
use std::alloc::{AllocError, Global};

/// The JSON value of changes.
#[tactic(auto, unfolding(crate::specs::Delta::changes_data))]
pub fn changes_value(alloc: Global, changes: &Changes) -> Result<Value, AllocError>
    ensures { IfOk result (λ value. view value ≡ changes_data (as_changes changes.now)) }
{
    let points = both_value::<PointRow, Come, Gone>(
        alloc,
        &changes.points_come,
        &changes.points_go,
    )?;
    let sections = both_value::<SectionRow, Section, Section>(
        alloc,
        &changes.sections_come,
        &changes.sections_go,
    )?;
    let staff = both_value::<StaffRow, Employee, Employee>(
        alloc,
        &changes.staff_comes,
        &changes.staff_goes,
    )?;
    json!(in alloc; {"points": points, "sections": sections, "staff": staff})
}

/// Rows that come, and rows that go.
fn both_value<R: Copy, C: Form<R>, G: Form<R>>(
    alloc: Global,
    come: &[R],
    go: &[R],
) -> Result<Value, AllocError>
    ensures { IfOk result (λ value. view value
        ≡ both_data (list_data C.seen come.now) (list_data G.seen go.now)) }
{
    let come = list_value::<R, C>(alloc, come)?;
    let go = list_value::<R, G>(alloc, go)?;
    json!(in alloc; {"come": come, "go": go})
}

/// The changes that a JSON value says, if it says such. A key that it does not have is passed over.
#[tactic(auto, unfolding(crate::specs::Delta::changes_in))]
pub fn changes_in(alloc: Global, value: &Value) -> Result<Option<Changes>, AllocError>
    ensures { IfOk result (λ found. option_map as_changes found ≡ changes_in (view value.now)) }
{
    let Some(points) = both_at::<PointRow, Come, Gone>(alloc, value, "points")? else {
        return Ok(None);
    };
    let Some(sections) = both_at::<SectionRow, Section, Section>(alloc, value, "sections")? else {
        return Ok(None);
    };
    let Some(staff) = both_at::<StaffRow, Employee, Employee>(alloc, value, "staff")? else {
        return Ok(None);
    };
    Ok(Some(Changes {
        sections_go: sections.1,
        sections_come: sections.0,
        points_go: points.1,
        points_come: points.0,
        staff_goes: staff.1,
        staff_comes: staff.0,
    }))
}

/// The rows at a key: those that come, and those that go.
fn both_at<R: Copy, C: Form<R>, G: Form<R>>(
    alloc: Global,
    value: &Value,
    key: &str,
) -> Result<Option<(Vec<R>, Vec<R>)>, AllocError>
    ensures { IfOk result (λ found. option_map (λ both. (both.0.items, both.1.items)) found
        ≡ at_key (both_in C.reading G.reading) key.now (view value.now)) }
{
    match value.get(key) {
        Some(found) => both_in::<R, C, G>(alloc, found),
        None => Ok(None),
    }
}

/// The rows of a value: those that come, and those that go.
fn both_in<R: Copy, C: Form<R>, G: Form<R>>(
    alloc: Global,
    value: &Value,
) -> Result<Option<(Vec<R>, Vec<R>)>, AllocError>
    ensures { IfOk result (λ found. option_map (λ both. (both.0.items, both.1.items)) found
        ≡ both_in C.reading G.reading (view value.now)) }
{
    let Some(come) = rows_at::<R, C>(alloc, value, "come")? else {
        return Ok(None);
    };
    let Some(go) = rows_at::<R, G>(alloc, value, "go")? else {
        return Ok(None);
    };
    Ok(Some((come, go)))
}

/// The rows of the list at a key.
fn rows_at<R: Copy, F: Form<R>>(
    alloc: Global,
    value: &Value,
    key: &str,
) -> Result<Option<Vec<R>>, AllocError>
    ensures { IfOk result (λ found. option_map (λ rows. rows.items) found
        ≡ at_key (list_in F.reading) key.now (view value.now)) }
{
    match value.get(key) {
        Some(found) => list_in::<R, F>(alloc, found),
        None => Ok(None),
    }
}

/// Changes can be said, if no point that goes has a position: a law, with nothing to do.
pub fn can_be_said(changes: &Changes)
    ensures { IsTrue (list_all (λ p. is_open p.position) changes.now.points_go.items)
        → IsTrue (can_be_said (as_changes changes.now)) }
{
    names_said::<SectionRow, Section>(&changes.sections_go);
    names_said::<SectionRow, Section>(&changes.sections_come);
    names_said::<PointRow, Gone>(&changes.points_go);
    names_said::<PointRow, Come>(&changes.points_come);
    names_said::<StaffRow, Employee>(&changes.staff_goes);
    names_said::<StaffRow, Employee>(&changes.staff_comes);
}
