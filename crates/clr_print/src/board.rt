//! The board.
ghost use Rattle.std.specs.Prelude.{◌≡◌, ◌++◌, IfOk, OnOk, map, neg_ℤ, pos, string_bytes};
ghost use Rattle.std.specs.Prelude.{◌≤ℤ◌};
ghost use Rattle.std.specs.List.{flat_map};
ghost use Rattle.clr_net.specs.Grid.{unplaced};
ghost use Rattle.clr_print.specs.Printed.{board_line, board_of, board_text, count_line};
ghost use Rattle.clr_print.specs.Printed.{jumper_line, jumper_lines, position_word};

use crate::columns::{id_text, name_or_dash, push_left};
use crate::moments::{ClockOffset, moment_text};
use clr_book::Book;
use clr_net::{PointRow, Position};
use clr_rules::{Hold, PointState, Record, StepRow};
use clr_shelf::Shelf;
use std::alloc::{AllocError, Global};

/// The board: how many clearances and switch orders are not closed, a line for each, in the order
/// of their names, and then one for each jumper, as it is now.
///
/// The offset, in minutes east of Greenwich, is that of the clock by which the last moments are
/// printed.
pub fn print_board<P: Shelf<PointState>, C: Shelf<Record>, T: Shelf<StepRow>, H: Shelf<Hold>>(
    alloc: Global,
    book: &Book<P, C, T, H>,
    offset: i16,
) -> Result<String, AllocError>
    requires low { neg_ℤ (pos 720) ≤ℤ offset }
    requires high { offset ≤ℤ pos 840 }
    ensures { IfOk result (λ text. string_bytes text
        ≡ board_text book.now.register offset) }
{
    let clock = ClockOffset::new(offset);
    let standing = book.open_records()?;
    let mut text = board_of(alloc, standing.as_slice(), clock)?;
    push_jumpers(alloc, &mut text, book.network().points(), book)?;
    Ok(text)
}

/// The board of the records that are not closed.
fn board_of(alloc: Global, standing: &[&Record], clock: ClockOffset) -> Result<String, AllocError>
    ensures { IfOk result (λ text. string_bytes text
        ≡ board_of (map (λ row. row.now) standing.now) clock) }
{
    let mut text = count_line(alloc, standing.len())?;
    push_lines(alloc, &mut text, standing, clock)?;
    Ok(text)
}

/// The first line.
fn count_line(alloc: Global, count: usize) -> Result<String, AllocError>
    ensures { IfOk result (λ text. string_bytes text ≡ count_line count) }
{
    format!(in alloc; "BOARD {count}\n")
}

/// Writes a line for each record.
fn push_lines(
    alloc: Global,
    out: &mut String,
    standing: &[&Record],
    clock: ClockOffset,
) -> Result<(), AllocError>
    ensures { OnOk result (string_bytes out.new
        ≡ string_bytes out.old ++ flat_map (board_line clock) (map (λ row. row.now) standing.now)) }
{
    for row in standing {
        let line = board_line(alloc, *row, clock)?;
        out.push_str(line.as_str())?;
    }
    Ok(())
}

/// The line of a record.
#[tactic(auto, unfolding(crate::specs::Printed::board_line))]
fn board_line(alloc: Global, row: &Record, clock: ClockOffset) -> Result<String, AllocError>
    ensures { IfOk result (λ line. string_bytes line ≡ board_line clock row.now) }
{
    let name = id_text(alloc, row.id)?;
    let last = moment_text(alloc, row.last, clock)?;
    let holder = row.holder;
    let mut line = String::new(alloc);
    push_left(&mut line, 29, name.as_str())?;
    push_left(&mut line, 9, row.phase.text())?;
    push_left(&mut line, 24, name_or_dash(&row.work))?;
    line.push_str(last.as_str())?;
    line.push(' ')?;
    line.push_str(holder.as_str())?;
    line.push('\n')?;
    Ok(line)
}

/// Writes a line for each jumper among the points, in their order.
fn push_jumpers<P: Shelf<PointState>, C: Shelf<Record>, T: Shelf<StepRow>, H: Shelf<Hold>>(
    alloc: Global,
    out: &mut String,
    points: &[PointRow],
    book: &Book<P, C, T, H>,
) -> Result<(), AllocError>
    ensures { OnOk result (string_bytes out.new
        ≡ string_bytes out.old ++ jumper_lines book.now.register.states (map unplaced points.now)) }
{
    for point in points {
        if point.jumper {
            let position = book.state(&point.name).map(|state| state.position);
            let line = jumper_line(alloc, point, position)?;
            out.push_str(line.as_str())?;
        }
    }
    Ok(())
}

/// The line of a jumper, which is in this position.
#[tactic(auto, unfolding(crate::specs::Printed::jumper_line))]
fn jumper_line(
    alloc: Global,
    point: &PointRow,
    position: Option<Position>,
) -> Result<String, AllocError>
    ensures { IfOk result (λ line. string_bytes line
        ≡ jumper_line (unplaced point.now) position) }
{
    let mut line = String::new(alloc);
    line.push_str("JUMPER ")?;
    push_left(&mut line, 24, point.name.as_str())?;
    push_left(&mut line, 24, point.from_end.as_str())?;
    push_left(&mut line, 24, point.to_end.as_str())?;
    line.push_str(position_word(position))?;
    line.push('\n')?;
    Ok(line)
}

/// The position of a point as a word, or a dash where there is none.
fn position_word(position: Option<Position>) -> &'static str
    ensures { result.now ≡ position_word position }
{
    match position {
        None => "-",
        Some(Position::Opened) => "open",
        Some(Position::Closed) => "closed",
    }
}
