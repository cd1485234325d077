//! What an opening finds in a journal at the place that a register has in it.
ghost use Rattle.std.specs.Prelude.{◌≡◌, IfOk, IfSome, IfNone, map, true, false};
ghost use Rattle.std.specs.List.{list_any};
ghost use Rattle.clr_journal.specs.Lines.{ended_lines, unfinished};
ghost use Rattle.clr_journal.specs.Journals.{withdraws};
ghost use Rattle.clr_journal.specs.Line.{entry_of};
ghost use Rattle.clr_chain.specs.Chain.{links_of, read_on};
ghost use Rattle.clr_chain.specs.Finding.{end_of, found_after, found_at_first, found_by};
ghost use Rattle.clr_chain.specs.Finding.{found_in, found_short, says_accepted};
ghost use Rattle.clr_chain.specs.Reading.{EndsAlike, IsFound, IsFoundWith, seen_read, seen_sought};
ghost use Rattle.clr_chain.specs.Reading.{seen_unread};

use crate::chain_end::ChainEnd;
use crate::first::{first_of, other_rules_of};
use crate::read_on::{ReadOn, read_on};
use crate::sought::{Sought, seek};
use crate::values::is_same;
use clr_journal::{Line, Turn, first_line, is_accepted, read_line};
use clr_rules::{Place, Text};
use std::alloc::{AllocError, Global};

/// What an opening finds in a journal.
#[derive(Drop)]
pub enum Found {
    /// The journal goes by other rules, of this number.
    OtherRules(u64),
    /// The journal has another id than the register's place.
    OtherRegister,
    /// The journal does not have the register's number.
    TooShort,
    /// At this number, the register's, the journal has another sum, or withdraws the deed.
    Differs(u64),
    /// The line of this number does not hold its sum, and an accepted one comes after it.
    BadLine(u64),
    /// These lines come after the register's.
    Ahead(Ahead),
}

/// The lines of a journal that come after a register's.
#[derive(Drop)]
pub struct Ahead {
    pub lines: Vec<Line>,
    /// The end of the chain after them.
    pub end: ChainEnd,
    /// How many bytes come after the last of them. They were never synced, and are to be cut off.
    pub rest: usize,
}

/// What an opening finds in the bytes of a journal, at the place that a register has.
#[tactic(auto, unfolding(crate::specs::Finding::found_in))]
pub fn found_in(alloc: Global, place: &Place, bytes: &[u8]) -> Result<Found, AllocError>
    ensures { IfOk result (λ found. IsFound bytes.now found (found_in place.now bytes.now)) }
{
    let Some(first) = first_of(alloc, bytes)? else {
        let other = other_rules_of(alloc, bytes)?;
        return Ok(found_unread(other));
    };
    if !is_same(first.id.as_str().as_bytes(), place.id.as_str().as_bytes()) {
        return Ok(Found::OtherRegister);
    }
    let links = links_of(bytes);
    let sought = seek(alloc, place, links)?;
    found_by(alloc, place, &first, links, sought)
}

/// What is found, where there is no first line by the program's rules.
pub(crate) fn found_unread(other: Option<u64>) -> Found
    ensures { result ≡ seen_unread other }
{
    match other {
        Some(number) => Found::OtherRules(number),
        None => Found::BadLine(0),
    }
}

/// The lines after the first.
pub(crate) fn links_of(bytes: &[u8]) -> &[u8]
    ensures lines { ended_lines result.now ≡ links_of bytes.now }
    ensures rest { unfinished result.now ≡ unfinished bytes.now }
{
    match first_line(bytes) {
        Some((_first, after)) => after,
        None => bytes,
    }
}

/// What is found, by the line that was met.
pub(crate) fn found_by(
    alloc: Global,
    place: &Place,
    first: &Place,
    links: &[u8],
    sought: Sought<'_>,
) -> Result<Found, AllocError>
    requires { EndsAlike (unfinished links.now) sought }
    ensures { IfOk result (λ found. IsFoundWith (unfinished links.now) found
        (found_by place.now first.now (ended_lines links.now) (seen_sought sought.entry))) }
{
    match sought {
        Sought::Met(true, turn, after) => found_from(alloc, place, turn, after),
        Sought::Met(false, _, _) => Ok(Found::Differs(place.number)),
        Sought::Passed(number, after) => found_short(alloc, number, after),
        Sought::Unmet => found_at_first(alloc, place, first, links),
    }
}

/// What is found, where no line has the register's number or a lower one.
fn found_at_first(
    alloc: Global,
    place: &Place,
    first: &Place,
    links: &[u8],
) -> Result<Found, AllocError>
    ensures { IfOk result (λ found. IsFoundWith (unfinished links.now) found
        (found_at_first place.now first.now (ended_lines links.now))) }
{
    if first.number < place.number {
        return found_short(alloc, first.number, links);
    }
    if first.number != place.number {
        return Ok(Found::TooShort);
    }
    if !is_same(first.sum.as_str().as_bytes(), place.sum.as_str().as_bytes()) {
        return Ok(Found::Differs(place.number));
    }
    let turn = Turn {
        last: place.number,
        is_open: false,
    };
    found_from(alloc, place, turn, links)
}

/// What is found after the register's line.
fn found_from(alloc: Global, place: &Place, turn: Turn, after: &[u8]) -> Result<Found, AllocError>
    ensures { IfOk result (λ found. IsFoundWith (unfinished after.now) found
        (found_after place.now.number
        (read_on (end_of place.now turn) (ended_lines after.now)))) }
{
    let sum = copy_of(alloc, &place.sum)?;
    let read = read_on(alloc, ChainEnd { turn, sum }, after)?;
    found_after(alloc, place.number, read)
}

/// A copy of a text.
fn copy_of(alloc: Global, text: &Text) -> Result<Text, AllocError>
    ensures { IfOk result (λ copy. copy ≡ text.now) }
{
    let copy = String::from_str(alloc, text.as_str())?;
    Ok(Text::new(copy))
}

/// What is found, by how far the lines after the register's hold their sums.
fn found_after(alloc: Global, number: u64, read: ReadOn<'_>) -> Result<Found, AllocError>
    ensures { IfOk result (λ found. IsFoundWith (unfinished read.entry.rest.now) found
        (found_after number (seen_read read.entry))) }
{
    if withdraws(&read.lines) {
        return Ok(Found::Differs(number));
    }
    if any_accepted(alloc, read.rest)? {
        return Ok(Found::BadLine(read.end.turn.last.saturating_add(1)));
    }
    let rest = read.rest.len();
    Ok(Found::Ahead(Ahead {
        lines: read.lines,
        end: read.end,
        rest,
    }))
}

/// What is found, where the journal has a lower number and not the register's.
fn found_short(alloc: Global, number: u64, after: &[u8]) -> Result<Found, AllocError>
    ensures { IfOk result (λ found. IsFoundWith (unfinished after.now) found
        (found_short number (ended_lines after.now))) }
{
    if any_accepted(alloc, after)? {
        Ok(Found::BadLine(number.saturating_add(1)))
    } else {
        Ok(Found::TooShort)
    }
}

/// Whether the first of these lines withdraws.
fn withdraws(lines: &[Line]) -> bool
    ensures { result ≡ withdraws (map entry_of lines.now) }
{
    match lines.first() {
        Some(Line::Withdrawn(_)) => true,
        _ => false,
    }
}

/// Whether a line says that a deed was accepted.
fn any_accepted(alloc: Global, bytes: &[u8]) -> Result<bool, AllocError>
    ensures { IfOk result (λ any. any
        ≡ list_any says_accepted (ended_lines bytes.now)) }
{
    let mut rest = bytes;
    while let Some((text, after)) = first_line(rest) {
        if says_accepted(alloc, text)? {
            return Ok(true);
        }
        rest = after;
    }
    Ok(false)
}

/// Whether a text says that a deed was accepted.
fn says_accepted(alloc: Global, text: &[u8]) -> Result<bool, AllocError>
    ensures { IfOk result (λ says. says ≡ says_accepted text.now) }
{
    match read_line(alloc, text)? {
        Some(Line::Carried(carried)) => Ok(is_accepted(&carried.reply)),
        _ => Ok(false),
    }
}
