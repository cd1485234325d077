//! The printed order.
ghost use Rattle.std.specs.Prelude.{◌≡◌, ◌++◌, IfOk, OnOk, filter, map, neg_ℤ, option_map, pos};
ghost use Rattle.std.specs.Prelude.{string_bytes, ◌==◌, ◌≤ℤ◌};
ghost use Rattle.std.specs.List.{flat_map};
ghost use Rattle.clr_rules.specs.Records.{record_of};
ghost use Rattle.clr_rules.specs.Steps.{steps_of};
ghost use Rattle.clr_print.specs.Printed.{head_text, in_round, order_name, order_text, round_text};
ghost use Rattle.clr_print.specs.Printed.{read_round, step_line};

use crate::columns::{id_text, name_or_dash, numeral, push_left, push_line, push_right};
use crate::moments::{ClockOffset, moment_text};
use clr_book::Book;
use clr_rules::{ClearanceId, Hold, PointState, Record, StepRow};
use clr_shelf::Shelf;
use std::alloc::{AllocError, Global};

/// One round of a clearance or a switch order, as it is printed: its record, and a line for each
/// step.
///
/// There is none where the register has no such record, or the round has no steps. Rounds are 1 and
/// 2. The offset, in minutes east of Greenwich, is that of the clock by which the last moment is
/// printed.
pub fn print_order<P: Shelf<PointState>, C: Shelf<Record>, T: Shelf<StepRow>, H: Shelf<Hold>>(
    alloc: Global,
    book: &Book<P, C, T, H>,
    id: &ClearanceId,
    round: u8,
    offset: i16,
) -> Result<Option<String>, AllocError>
    requires low { neg_ℤ (pos 720) ≤ℤ offset }
    requires high { offset ≤ℤ pos 840 }
    ensures { IfOk result (λ text. option_map (λ s. string_bytes s) text
        ≡ order_text (record_of book.now.register.records id.now)
        (steps_of book.now.register.steps id.now) round offset) }
{
    let clock = ClockOffset::new(offset);
    let Some(record) = book.record(id) else {
        return Ok(None);
    };
    let steps = book.steps(id)?;
    let rows = in_round(alloc, steps.as_slice(), round)?;
    round_text(alloc, record, rows.as_slice(), round, clock)
}

/// The round that a text names, 1 or 2.
pub fn read_round(text: &str) -> Option<u8>
    ensures { result ≡ read_round text.now }
{
    match text {
        "1" => Some(1),
        "2" => Some(2),
        _ => None,
    }
}

/// The steps of a round.
fn in_round<'a>(
    alloc: Global,
    steps: &[&'a StepRow],
    round: u8,
) -> Result<Vec<&'a StepRow>, AllocError>
    ensures { IfOk result (λ rows. rows.items ≡ filter (λ row. row.now.round == round) steps.now) }
{
    steps
        .iter()
        .copied()
        .filter(|row| row.round == round)
        .collect(alloc)
}

/// The text of a round, if it has steps.
fn round_text(
    alloc: Global,
    record: &Record,
    rows: &[&StepRow],
    round: u8,
    clock: ClockOffset,
) -> Result<Option<String>, AllocError>
    ensures { IfOk result (λ text. option_map (λ s. string_bytes s) text
        ≡ round_text record.now (map (λ row. row.now) rows.now) round clock) }
{
    if rows.is_empty() {
        return Ok(None);
    }
    let mut text = head_text(alloc, record, round, clock)?;
    push_steps(alloc, &mut text, rows)?;
    text.push_str("END\n")?;
    Ok(Some(text))
}

/// The five lines before the steps.
#[tactic(auto, unfolding(crate::specs::Printed::head_text))]
fn head_text(
    alloc: Global,
    record: &Record,
    round: u8,
    clock: ClockOffset,
) -> Result<String, AllocError>
    ensures { IfOk result (λ text. string_bytes text ≡ head_text record.now round clock) }
{
    let order = order_name(alloc, record.id, round)?;
    let holder = record.holder;
    let last = moment_text(alloc, record.last, clock)?;
    let mut text = String::new(alloc);
    push_line(&mut text, "ORDER ", order.as_str())?;
    push_line(&mut text, "WORK ", name_or_dash(&record.work))?;
    push_line(&mut text, "HOLDER ", holder.as_str())?;
    push_line(&mut text, "PHASE ", record.phase.text())?;
    push_line(&mut text, "LAST ", last.as_str())?;
    Ok(text)
}

/// The name of a clearance and a round of it.
#[tactic(auto, unfolding(crate::specs::Printed::order_name))]
fn order_name(alloc: Global, id: ClearanceId, round: u8) -> Result<String, AllocError>
    ensures { IfOk result (λ text. string_bytes text ≡ order_name id round) }
{
    let mut text = id_text(alloc, id)?;
    let number = numeral(alloc, usize::from(round))?;
    text.push_str(" ROUND ")?;
    text.push_str(number.as_str())?;
    Ok(text)
}

/// Writes a line for each step.
fn push_steps(alloc: Global, out: &mut String, rows: &[&StepRow]) -> Result<(), AllocError>
    ensures { OnOk result (string_bytes out.new
        ≡ string_bytes out.old ++ flat_map step_line (map (λ row. row.now) rows.now)) }
{
    for row in rows {
        let line = step_line(alloc, *row)?;
        out.push_str(line.as_str())?;
    }
    Ok(())
}

/// The line of a step.
#[tactic(auto, unfolding(crate::specs::Printed::step_line))]
fn step_line(alloc: Global, row: &StepRow) -> Result<String, AllocError>
    ensures { IfOk result (λ line. string_bytes line ≡ step_line row.now) }
{
    let number = numeral(alloc, usize::from(row.ordinal))?;
    let point = row.step.point;
    let mut line = String::new(alloc);
    push_right(&mut line, 3, number.as_str())?;
    push_left(&mut line, 9, row.step.action.word())?;
    push_left(&mut line, 24, point.as_str())?;
    push_left(&mut line, 10, row.step.state.text())?;
    line.push_str(name_or_dash(&row.step.reader))?;
    line.push('\n')?;
    Ok(line)
}
