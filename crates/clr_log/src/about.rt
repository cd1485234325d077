//! Which clearance a line is about.
ghost use Rattle.std.specs.Prelude.{◌≡◌, map, option_and_then, reverse};
ghost use Rattle.clr_rules.specs.IdText.{read_id};
ghost use Rattle.serde_json.specs.Find.{as_str, get};
ghost use Rattle.serde_json.specs.View.{view};
ghost use Rattle.clr_changes.specs.Deeds.{command as of_command, deed_of};
ghost use Rattle.clr_journal.specs.Line.{entry_of};
ghost use Rattle.clr_log.specs.About.{card_clearance, clearance_of, is_wanted, last_clearance};
ghost use Rattle.clr_log.specs.About.{line_clearance};

use clr_journal::{Carried, Deed, Line};
use clr_rules::{ClearanceId, Command};
use serde_json::Value;

/// The clearance of a line, which comes after these.
pub(crate) fn line_clearance(before: &[Line], line: &Line) -> Option<ClearanceId>
    ensures { result
        ≡ line_clearance (reverse (map entry_of before.now)) (entry_of line.now) }
{
    match line {
        Line::Carried(carried) => carried_clearance(carried),
        Line::Withdrawn(_) => last_clearance(before),
    }
}

/// The clearance of the last of these lines.
pub(crate) fn last_clearance(before: &[Line]) -> Option<ClearanceId>
    ensures { result ≡ last_clearance (reverse (map entry_of before.now)) }
{
    match before.split_last() {
        Some((Line::Carried(carried), _)) => carried_clearance(carried),
        _ => None,
    }
}

/// The clearance of a deed with its reply: an update or an archive is about none.
pub(crate) fn carried_clearance(carried: &Carried) -> Option<ClearanceId>
    ensures { result ≡ clearance_of (deed_of carried.now.deed) (view carried.now.reply) }
{
    match &carried.deed {
        Deed::Command(command) => clearance_of(command, &carried.reply),
        Deed::Update(_) | Deed::Archive(_) => None,
    }
}

/// The clearance of a command with its reply.
pub(crate) fn clearance_of(command: &Command, reply: &Value) -> Option<ClearanceId>
    ensures { result ≡ clearance_of (of_command command.now) (view reply.now) }
{
    match command.kind.clearance() {
        Some(clearance) => Some(clearance),
        None => card_clearance(reply),
    }
}

/// The clearance that a reply's card names.
fn card_clearance(reply: &Value) -> Option<ClearanceId>
    ensures { result ≡ card_clearance (view reply.now) }
{
    let text = match reply.get("card") {
        Some(card) => card.get("clearance").and_then(Value::as_str),
        None => None,
    };
    match text {
        Some(text) => ClearanceId::read(text).ok(),
        None => None,
    }
}

/// Whether a line about this clearance is wanted.
pub(crate) fn is_wanted(wanted: &Option<ClearanceId>, found: Option<ClearanceId>) -> bool
    ensures { result ≡ is_wanted wanted.now found }
{
    match (wanted, found) {
        (None, _) => true,
        (Some(_), None) => false,
        (Some(wanted), Some(found)) => *wanted == found,
    }
}
