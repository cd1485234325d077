//! The records that give up their steps, each as a line of JSON with these.
ghost use Rattle.std.specs.Prelude.{◌≡◌, ◌++◌, IfOk, OnOk, map, string_bytes};
ghost use Rattle.serde_json.specs.View.{view};
ghost use Rattle.serde_json.specs.Written.{compact_text};
ghost use Rattle.clr_rules.specs.Steps.{steps_of};
ghost use Rattle.clr_text.specs.Json.{list_data, name_data, optional_data};
ghost use Rattle.clr_commands.specs.ArchiveText.{archive_text, record_data, record_line};
ghost use Rattle.clr_commands.specs.ArchiveText.{step_row_data};

use clr_book::Book;
use clr_changes::printed_records;
use clr_net::Name;
use clr_order::step_text;
use clr_rules::{Hold, Moment, PointState, Record, StepRow};
use clr_shelf::Shelf;
use serde_json::{Value, json};
use std::alloc::{AllocError, Global};

/// The records of a book that were closed before a moment and have steps, each with these as one
/// line, as `{"clearance":"JONES/1","holder":"JONES","last":116,"steps":[..],"work":"L2"}`. A step
/// is as `{"number":1,"reader":"KIM","round":1,"state":"Done","text":"OPEN S2"}`.
pub fn archive_text<P, C, T, H>(
    alloc: Global,
    book: &Book<P, C, T, H>,
    before: Moment,
) -> Result<String, AllocError>
where
    P: Shelf<PointState>,
    C: Shelf<Record>,
    T: Shelf<StepRow>,
    H: Shelf<Hold>,
    ensures { IfOk result (λ text. string_bytes text ≡ archive_text before book.now.register) }
{
    let records = printed_records(alloc, book, before)?;
    let mut text = String::new(alloc);
    for closed in &records {
        push_record(alloc, book, &mut text, closed)?;
    }
    Ok(text)
}

/// Writes the line of a record.
fn push_record<P, C, T, H>(
    alloc: Global,
    book: &Book<P, C, T, H>,
    out: &mut String,
    closed: &Record,
) -> Result<(), AllocError>
where
    P: Shelf<PointState>,
    C: Shelf<Record>,
    T: Shelf<StepRow>,
    H: Shelf<Hold>,
    ensures { OnOk result (string_bytes out.new ≡ string_bytes out.old
        ++ record_line closed.now (steps_of book.now.register.steps closed.now.id)) }
{
    let steps = book.steps(&closed.id)?;
    let line = record_line(alloc, closed, steps.as_slice())?;
    out.push_str(line.as_str())?;
    Ok(())
}

/// A record and its steps as one line.
fn record_line(alloc: Global, closed: &Record, steps: &[&StepRow]) -> Result<String, AllocError>
    ensures { IfOk result (λ line. string_bytes line
        ≡ record_line closed.now (map (λ row. row.now) steps.now)) }
{
    let mut line = record_text(alloc, closed, steps)?;
    line.push('\n')?;
    Ok(line)
}

fn record_text(alloc: Global, closed: &Record, steps: &[&StepRow]) -> Result<String, AllocError>
    ensures { IfOk result (λ text. string_bytes text
        ≡ compact_text (record_data closed.now (map (λ row. row.now) steps.now))) }
{
    let value = record_value(alloc, closed, steps)?;
    value.to_string(alloc)
}

fn record_value(alloc: Global, closed: &Record, steps: &[&StepRow]) -> Result<Value, AllocError>
    ensures { IfOk result (λ value. view value
        ≡ record_data closed.now (map (λ row. row.now) steps.now)) }
{
    let id = closed.id;
    let clearance = format!(in alloc; "{id}")?;
    let steps = steps_value(alloc, steps)?;
    let work = name_value(alloc, &closed.work)?;
    json!(in alloc; {
        "clearance": clearance,
        "holder": closed.holder.as_str(),
        "last": closed.last.seconds(),
        "steps": steps,
        "work": work
    })
}

fn steps_value(alloc: Global, steps: &[&StepRow]) -> Result<Value, AllocError>
    ensures { IfOk result (λ value. view value
        ≡ list_data step_row_data (map (λ row. row.now) steps.now)) }
{
    let mut list = Vec::new(alloc);
    for row in steps {
        list.push(step_value(alloc, row)?)?;
    }
    Ok(Value::Array(list))
}

fn step_value(alloc: Global, row: &StepRow) -> Result<Value, AllocError>
    ensures { IfOk result (λ value. view value ≡ step_row_data row.now) }
{
    let reader = name_value(alloc, &row.step.reader)?;
    let text = step_text(alloc, &row.step)?;
    json!(in alloc; {
        "number": row.ordinal,
        "reader": reader,
        "round": row.round,
        "state": row.step.state.text(),
        "text": text
    })
}

/// A name, or null.
fn name_value(alloc: Global, name: &Option<Name>) -> Result<Value, AllocError>
    ensures { IfOk result (λ value. view value ≡ optional_data name_data name.now) }
{
    match name {
        Some(name) => Value::try_from_str(alloc, name.as_str()),
        None => Ok(Value::Null),
    }
}
