//! What an opening finds by the end of a journal.
ghost use Rattle.std.specs.Prelude.{◌≡◌, ◌≤◌, IfOk, IfSome, length};
ghost use Rattle.clr_journal.specs.Lines.{unfinished};
ghost use Rattle.clr_chain.specs.Near.{found_near, is_unmet};
ghost use Rattle.clr_chain.specs.Reading.{IsFoundNear, rest_of, seen_sought};

use crate::finding::{Found, found_by, links_of};
use crate::sought::{Sought, seek};
use clr_rules::Place;
use std::alloc::{AllocError, Global};

/// What is found by the end of a journal, if it has a line of the register's number or a lower one.
/// Its first line may be a part of one.
#[tactic(auto, unfolding(crate::specs::Near::found_near))]
pub(crate) fn found_near(
    alloc: Global,
    place: &Place,
    first: &Place,
    tail: &[u8],
) -> Result<Option<Found>, AllocError>
    ensures found { IfOk result (λ found. IsFoundNear (unfinished tail.now) found
        (found_near place.now first.now tail.now)) }
    ensures within { IfOk result (λ found. IfSome found (λ one. rest_of one ≤ length tail.now)) }
{
    let links = links_of(tail);
    let sought = seek(alloc, place, links)?;
    if sought.is_unmet() {
        return Ok(None);
    }
    let found = found_by(alloc, place, first, links, sought)?;
    Ok(Some(found))
}

impl<'a> Sought<'a> {
    /// No line of the register's number or a lower one is met.
    fn is_unmet(self) -> bool
        ensures { result ≡ is_unmet (seen_sought self.entry) }
    {
        match self {
            Sought::Met(_, _, _) | Sought::Passed(_, _) => false,
            Sought::Unmet => true,
        }
    }
}
