//! The end of a chain.
ghost use Rattle.std.specs.Prelude.{◌≡◌, IfOk, IfSome, option_map, false};
ghost use Rattle.clr_journal.specs.Line.{entry_of};
ghost use Rattle.clr_chain.specs.Link.{end_after, has_fraction, next_link};
ghost use Rattle.clr_chain.specs.Sums.{sum_after};

use crate::sums::sum_of;
use crate::values::{has_fraction, is_own, line_text};
use clr_journal::{Line, Turn, read_line};
use clr_rules::Text;
use std::alloc::{AllocError, Global};

/// The end of a chain: where it has come to, and the sum at its last line.
#[derive(Drop)]
pub struct ChainEnd {
    pub turn: Turn,
    pub sum: Text,
}

/// Reads the next line of a chain, as it is without its line feed, if it is that and holds its sum;
/// with the end of the chain after it.
#[tactic(auto, unfolding(crate::specs::Link::next_link))]
pub(crate) fn next_link(
    alloc: Global,
    end: &ChainEnd,
    text: &[u8],
) -> Result<Option<(Line, ChainEnd)>, AllocError>
    ensures line { IfOk result (λ found.
        option_map (λ one. entry_of one.0) found ≡ next_link end.now text.now) }
    ensures end { IfOk result (λ found. IfSome found (λ one.
        one.1 ≡ end_after end.now (entry_of one.0))) }
{
    let Some(line) = read_line(alloc, text)? else {
        return Ok(None);
    };
    if !end.turn.is_next(&line) || has_fraction(&line) {
        return Ok(None);
    }
    let sum = sum_at(alloc, end.sum.as_str(), &line)?;
    if !is_own(alloc, &line, sum.as_str(), text)? {
        return Ok(None);
    }
    let turn = Turn::after(&line);
    Ok(Some((line, ChainEnd { turn, sum })))
}

/// The sum at a line that was read, after a sum.
#[tactic(auto, unfolding(crate::specs::Sums::sum_after))]
pub(crate) fn sum_at(alloc: Global, before: &str, line: &Line) -> Result<Text, AllocError>
    requires { has_fraction (entry_of line.now) ≡ false }
    ensures { IfOk result (λ sum. sum ≡ sum_after before.now (entry_of line.now)) }
{
    let text = line_text(alloc, line)?;
    sum_of(alloc, before.as_bytes(), &text)
}
