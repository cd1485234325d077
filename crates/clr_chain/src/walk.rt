//! A chain is read line by line, to its end.
ghost use Rattle.std.specs.Prelude.{◌≡◌, IfOk, OnErr, OnOk, false, option_map};
ghost use Rattle.clr_journal.specs.Journals.{turn_after};
ghost use Rattle.clr_journal.specs.Line.{read_line};
ghost use Rattle.clr_chain.specs.First.{end_at, read_first};
ghost use Rattle.clr_chain.specs.Walking.{end_said, end_unread, goes_on, part_of, seen_step};
ghost use Rattle.clr_chain.specs.Walking.{step_of, sum_bytes, sum_said};

use crate::chain_end::{ChainEnd, next_link};
use crate::first::{read_first, text_at};
use crate::values::is_same;
use clr_journal::{Line, Turn, read_line, value_of};
use clr_rules::{Place, Text};
use std::alloc::{AllocError, Global};

/// A line of a chain.
#[derive(Drop)]
pub enum Step {
    /// It holds its sum.
    Holds(Line),
    /// It does not, and would have this number.
    Bad(u64),
}

/// Where a chain that is read line by line has come to.
#[derive(Drop)]
pub struct Walk {
    /// The journal's id.
    pub id: Text,
    pub end: ChainEnd,
}

impl Walk {
    /// At the first line of a journal.
    pub fn from(first: Place) -> Walk
        ensures id { result.id ≡ first.id }
        ensures end { result.end ≡ end_at first }
    {
        let Place { id, number, sum } = first;
        let end = ChainEnd::at(number, sum);
        Walk { id, end }
    }

    /// The next line, as it is without its line feed. After one that does not hold its sum the
    /// chain goes on at the number and the sum that it says.
    pub fn step(&mut self, alloc: Global, text: &[u8]) -> Result<Step, AllocError>
        ensures step { IfOk result (λ step.
            (seen_step step, self.new.end) ≡ step_of self.old.end text.now) }
        ensures id { self.new.id ≡ self.old.id }
        ensures failed { OnErr result (self.new ≡ self.old) }
    {
        match next_link(alloc, &self.end, text)? {
            Some((line, end)) => {
                self.end = end;
                Ok(Step::Holds(line))
            }
            None => {
                let number = self.end.turn.last.saturating_add(1);
                self.pass(alloc, text)?;
                Ok(Step::Bad(number))
            }
        }
    }

    /// Passes over a line that does not hold its sum.
    fn pass(&mut self, alloc: Global, text: &[u8]) -> Result<(), AllocError>
        ensures end { OnOk result (self.new.end ≡ end_said self.old.end text.now) }
        ensures id { self.new.id ≡ self.old.id }
        ensures failed { OnErr result (self.new ≡ self.old) }
    {
        let turn = turn_said(alloc, text)?;
        let sum = sum_said(alloc, text)?;
        match (turn, sum) {
            (Some(turn), Some(sum)) => {
                self.end = ChainEnd { turn, sum };
                Ok(())
            }
            _ => self.pass_unread(alloc, text),
        }
    }

    /// Passes over a line that cannot be read, or says no sum.
    #[tactic(auto, using(crate::proofs::Walked::text_there, crate::proofs::Walked::no_text))]
    fn pass_unread(&mut self, alloc: Global, text: &[u8]) -> Result<(), AllocError>
        ensures end { OnOk result (self.new.end ≡ end_unread self.old.end text.now) }
        ensures id { self.new.id ≡ self.old.id }
        ensures failed { OnErr result (self.new ≡ self.old) }
    {
        if let Ok(sum) = str::from_utf8(sum_bytes(text)) {
            let sum = String::from_str(alloc, sum)?;
            self.end.sum = Text::new(sum);
        }
        self.end.turn = Turn {
            last: self.end.turn.last.saturating_add(1),
            is_open: false,
        };
        Ok(())
    }

    /// The first line of the next part, as it is without its line feed: whether the part goes on
    /// from the last line of the one before it. Where it does not, nothing is changed.
    pub fn next_part(&mut self, alloc: Global, text: &[u8]) -> Result<bool, AllocError>
        ensures part { IfOk result (λ is.
            (is, self.new.end) ≡ part_of self.old.id self.old.end (read_first text.now)) }
        ensures id { self.new.id ≡ self.old.id }
        ensures failed { OnErr result (self.new ≡ self.old) }
    {
        let Some(first) = read_first(alloc, text)? else {
            return Ok(false);
        };
        if !self.goes_on(&first) {
            return Ok(false);
        }
        self.end = ChainEnd::at(first.number, first.sum);
        Ok(true)
    }

    /// Whether a part with this first line goes on.
    fn goes_on(&self, first: &Place) -> bool
        ensures { result ≡ goes_on self.now.id self.now.end first.now }
    {
        is_same(first.id.as_str().as_bytes(), self.id.as_str().as_bytes())
            && (first.number == self.end.turn.last
                && is_same(
                    first.sum.as_str().as_bytes(),
                    self.end.sum.as_str().as_bytes(),
                ))
    }
}

impl ChainEnd {
    /// After a first line with this number and this sum.
    fn at(number: u64, sum: Text) -> ChainEnd
        ensures turn { result.turn ≡ record { last = number; is_open = false } }
        ensures sum { result.sum ≡ sum }
    {
        let turn = Turn {
            last: number,
            is_open: false,
        };
        ChainEnd { turn, sum }
    }
}

/// The turn after the line that a text says, if it is one.
fn turn_said(alloc: Global, text: &[u8]) -> Result<Option<Turn>, AllocError>
    ensures { IfOk result (λ turn. turn ≡ option_map turn_after (read_line text.now)) }
{
    match read_line(alloc, text)? {
        Some(line) => Ok(Some(Turn::after(&line))),
        None => Ok(None),
    }
}

/// The sum that a text says, if it says one.
fn sum_said(alloc: Global, text: &[u8]) -> Result<Option<Text>, AllocError>
    ensures { IfOk result (λ sum. sum ≡ sum_said text.now) }
{
    let Some(value) = value_of(alloc, text)? else {
        return Ok(None);
    };
    let Some(sum) = text_at(&value, "sum") else {
        return Ok(None);
    };
    let sum = String::from_str(alloc, sum)?;
    Ok(Some(Text::new(sum)))
}

/// The bytes of a text where the line of a command has its sum, before `"}`.
#[tactic(auto, using(crate::proofs::Walked::sum_there))]
fn sum_bytes(text: &[u8]) -> &[u8]
    ensures { result.now ≡ sum_bytes text.now }
{
    let len = text.len();
    &text[len.saturating_sub(66)..len.saturating_sub(2)]
}
