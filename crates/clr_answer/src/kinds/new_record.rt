//! The record of a new clearance or switch order.
ghost use Rattle.std.specs.Prelude.{◌≡◌, None};
ghost use Rattle.clr_rules.specs.Changes.{new_record};
ghost use Rattle.clr_rules.specs.Checks.{too_many_clearances};

use crate::checks::clearances::greatest;
use crate::near::Near;
use clr_net::Name;
use clr_rules::{ClearanceId, Moment, Phase, Record};

/// A record under the requester's next number.
pub(crate) fn new_record(
    near: &Near,
    by: Name,
    at: Moment,
    work: Option<Name>,
    phase: Phase,
) -> Record
    requires { too_many_clearances near.now.known.greatest ≡ None }
    ensures { result ≡ new_record near.now.known.greatest by at work phase }
{
    let Some(id) = ClearanceId::new(by, greatest(near) + 1) else {
        unreachable!()
    };
    Record {
        id,
        holder: by,
        work,
        phase,
        last: at,
    }
}
