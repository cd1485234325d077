//! The line of a register's number, from the last line of a journal back.
ghost use Rattle.std.specs.Prelude.{◌≡◌, ℕ, IfOk, List, Option};
ghost use Rattle.clr_journal.specs.Lines.{ended_lines, unfinished};
ghost use Rattle.clr_journal.specs.Line.{entry_of, read_line};
ghost use Rattle.clr_chain.specs.Finding.{or_earlier, sought, sought_at, sought_below};
ghost use Rattle.clr_chain.specs.Finding.{sought_here};
ghost use Rattle.clr_chain.specs.Reading.{EndsAlike, seen_sought};

use crate::values::is_own;
use clr_journal::{Line, Turn, first_line, read_line};
use clr_rules::Place;
use std::alloc::{AllocError, Global};

/// What comes of looking for the line of a register's number.
#[derive(Clone, Copy)]
pub(crate) enum Sought<'a> {
    /// It is met: whether it has the register's sum, where the chain has come to at it, and what
    /// comes after it.
    Met(bool, Turn, &'a [u8]),
    /// A line with this number, which is lower, is met before it; and what comes after that.
    Passed(u64, &'a [u8]),
    /// Neither.
    Unmet,
}

/// Looks for the line of a register's number: the last one that has it or a lower number counts.
#[tactic(auto, unfolding(crate::specs::Finding::sought))]
pub(crate) fn seek<'a>(
    alloc: Global,
    place: &Place,
    bytes: &'a [u8],
) -> Result<Sought<'a>, AllocError>
    ensures found { IfOk result (λ found. seen_sought found
        ≡ sought place.now (ended_lines bytes.now)) }
    ensures rest { IfOk result (EndsAlike (unfinished bytes.now)) }
{
    let mut last = Sought::Unmet;
    let mut rest = bytes;
    while let Some((text, after)) = first_line(rest) {
        last = last.or_later(sought_at(alloc, place, text, after)?);
        rest = after;
    }
    Ok(last)
}

impl<'a> Sought<'a> {
    /// The later one counts.
    fn or_later(self, later: Sought<'a>) -> Sought<'a>
        ensures found { seen_sought result
            ≡ or_earlier (seen_sought later.entry) (seen_sought self.entry) }
        ensures rest { (rest : Option (List ℕ)) → EndsAlike rest later.entry
            → EndsAlike rest self.entry → EndsAlike rest result }
    {
        match later {
            Sought::Unmet => self,
            Sought::Met(is_own, turn, after) => Sought::Met(is_own, turn, after),
            Sought::Passed(number, after) => Sought::Passed(number, after),
        }
    }
}

/// What one line is for a place.
fn sought_at<'a>(
    alloc: Global,
    place: &Place,
    text: &[u8],
    after: &'a [u8],
) -> Result<Sought<'a>, AllocError>
    ensures found { IfOk result (λ found. seen_sought found
        ≡ sought_at place.now text.now (ended_lines after.now) (read_line text.now)) }
    ensures rest { IfOk result (EndsAlike (unfinished after.now)) }
{
    let Some(line) = read_line(alloc, text)? else {
        return Ok(Sought::Unmet);
    };
    let number = Turn::after(&line).last;
    if number != place.number {
        return Ok(sought_below(place, number, after));
    }
    let is_own = is_own(alloc, &line, place.sum.as_str(), text)?;
    Ok(sought_here(is_own, &line, after))
}

/// What a line of the register's number is, by whether it has the register's sum.
fn sought_here<'a>(is_own: bool, line: &Line, after: &'a [u8]) -> Sought<'a>
    ensures found { seen_sought result
        ≡ sought_here is_own (entry_of line.now) (ended_lines after.now) }
    ensures rest { EndsAlike (unfinished after.now) result }
{
    let turn = Turn::after(line);
    if is_own {
        return Sought::Met(true, turn, after);
    }
    match line {
        Line::Carried(_) => Sought::Met(false, turn, after),
        Line::Withdrawn(_) => Sought::Unmet,
    }
}

/// A line with this number, where that is lower than the register's.
fn sought_below<'a>(place: &Place, number: u64, after: &'a [u8]) -> Sought<'a>
    ensures found { seen_sought result
        ≡ sought_below place.now number (ended_lines after.now) }
    ensures rest { EndsAlike (unfinished after.now) result }
{
    if number < place.number {
        Sought::Passed(number, after)
    } else {
        Sought::Unmet
    }
}
