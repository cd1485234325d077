//! The forms of rows as JSON values, and lists of them.
ghost use Rattle.std.specs.Prelude.{◌≡◌, Bool, IfOk, IsTrue, Option, option_map};
ghost use Rattle.std.specs.List.{list_all};
ghost use Rattle.serde_json.specs.Data.{Data};
ghost use Rattle.serde_json.specs.View.{items_view, view};
ghost use Rattle.clr_journal.specs.Delta.{list_in};
ghost use Rattle.clr_text.specs.Json.{list_data};
ghost use Rattle.clr_text.specs.Values.{all_read};

use serde_json::Value;
use std::alloc::{AllocError, Global};

/// How a row is written as a JSON value, and read.
pub(crate) trait Form<R: Copy> {
    /// The value of a row.
    ghost seen: { R → Data };

    /// What a value is read as.
    ghost reading: { Data → Option R };

    /// Whether the names of a row are names.
    ghost is_named: { R → Bool };

    /// The JSON value of a row.
    fn value(alloc: Global, row: &R) -> Result<Value, AllocError>
        ensures { IfOk result (λ value. view value ≡ seen row.now) };

    /// The row that a JSON value is, if it is one.
    fn read(value: &Value) -> Option<R>
        ensures { result ≡ reading (view value.now) };

    /// The names of a row are names: a law, with nothing to do.
    fn named(row: &R)
        ensures { IsTrue (is_named row.now) };
}

/// A list of rows.
pub(crate) fn list_value<R: Copy, F: Form<R>>(
    alloc: Global,
    rows: &[R],
) -> Result<Value, AllocError>
    ensures { IfOk result (λ value. view value ≡ list_data F.seen rows.now) }
{
    let mut list = Vec::new(alloc);
    for row in rows {
        list.push(F::value(alloc, row)?)?;
    }
    Ok(Value::Array(list))
}

/// The rows of a list, if each of its items is one.
pub(crate) fn list_in<R: Copy, F: Form<R>>(
    alloc: Global,
    value: &Value,
) -> Result<Option<Vec<R>>, AllocError>
    ensures { IfOk result (λ found. option_map (λ rows. rows.items) found
        ≡ list_in F.reading (view value.now)) }
{
    match value.as_array() {
        Some(list) => all_read::<R, F>(alloc, list.as_slice()),
        None => Ok(None),
    }
}

/// What the items of a list are read as, where each of them is a row.
fn all_read<R: Copy, F: Form<R>>(
    alloc: Global,
    list: &[Value],
) -> Result<Option<Vec<R>>, AllocError>
    ensures { IfOk result (λ found. option_map (λ rows. rows.items) found
        ≡ all_read F.reading (items_view list.now)) }
{
    let mut rows = Vec::new(alloc);
    for item in list {
        let Some(row) = F::read(item) else {
            return Ok(None);
        };
        rows.push(row)?;
    }
    Ok(Some(rows))
}

/// The names of rows are names: a law, with nothing to do.
pub(crate) fn names_said<R: Copy, F: Form<R>>(rows: &[R])
    ensures { IsTrue (list_all F.is_named rows.now) }
{
    for row in rows {
        F::named(row);
    }
}
