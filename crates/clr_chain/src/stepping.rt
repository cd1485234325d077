//! A place goes on by a line.
ghost use Rattle.std.specs.Prelude.{◌≡◌, IfOk, OnErr, not};
ghost use Rattle.clr_journal.specs.Line.{entry_of};
ghost use Rattle.clr_chain.specs.Level.{stepped};
ghost use Rattle.clr_chain.specs.Link.{has_fraction};

use crate::chain_end::sum_at;
use crate::values::has_fraction;
use clr_journal::{Line, Turn};
use clr_rules::Place;
use std::alloc::{AllocError, Global};

/// Takes a place on by a line that was read. Where the reply of the line has a number that is no
/// whole number, it stays: no line of a chain has one.
pub fn step(alloc: Global, place: &mut Place, line: &Line) -> Result<bool, AllocError>
    ensures whole { IfOk result (λ is. is ≡ not (has_fraction (entry_of line.now))) }
    ensures stepped { IfOk result (λ is. place.new ≡ stepped is place.old (entry_of line.now)) }
    ensures failed { OnErr result (place.new ≡ place.old) }
{
    if has_fraction(line) {
        return Ok(false);
    }
    let sum = sum_at(alloc, place.sum.as_str(), line)?;
    place.number = Turn::after(line).last;
    place.sum = sum;
    Ok(true)
}
