//! A chain is read on from an end of it.
ghost use Rattle.std.specs.Prelude.{◌≡◌, IfOk};
ghost use Rattle.clr_journal.specs.Lines.{ended_lines, unfinished};
ghost use Rattle.clr_chain.specs.Chain.{read_on};
ghost use Rattle.clr_chain.specs.Reading.{seen_read};

use crate::chain_end::{ChainEnd, next_link};
use clr_journal::{Line, first_line};
use std::alloc::{AllocError, Global};

/// How far lines hold their sums.
#[derive(Drop)]
pub(crate) struct ReadOn<'a> {
    pub(crate) lines: Vec<Line>,
    /// The end of the chain after them.
    pub(crate) end: ChainEnd,
    /// What comes after the last of them.
    pub(crate) rest: &'a [u8],
}

/// Reads a chain on from an end of it, up to the first line that does not hold its sum.
pub(crate) fn read_on<'a>(
    alloc: Global,
    end: ChainEnd,
    bytes: &'a [u8],
) -> Result<ReadOn<'a>, AllocError>
    ensures read { IfOk result (λ read.
        seen_read read ≡ read_on end (ended_lines bytes.now)) }
    ensures rest { IfOk result (λ read. unfinished read.rest.now ≡ unfinished bytes.now) }
{
    let mut lines = Vec::new(alloc);
    let mut end = end;
    let mut rest = bytes;
    while let Some((text, after)) = first_line(rest) {
        match next_link(alloc, &end, text)? {
            Some((line, next)) => {
                lines.push(line)?;
                end = next;
                rest = after;
            }
            None => return Ok(ReadOn { lines, end, rest }),
        }
    }
    Ok(ReadOn { lines, end, rest })
}
