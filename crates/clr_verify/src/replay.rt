//! The deeds of a journal that were carried out, line by line.
ghost use Rattle.std.specs.Prelude.{◌≡◌, ◌++◌, ◌∷◌, IfSome, List};
ghost use Rattle.clr_journal.specs.Line.{Entry, entry_of};
ghost use Rattle.clr_verify.specs.Replay.{IsAccepted, answered_in, answered_of};
ghost use Rattle.clr_verify.specs.Replay.{if_accepted, open_entries};

use clr_journal::{Carried, Line, is_accepted};

/// What comes of a line after an accepted deed, if there was one: the deed that was carried out,
/// since the line does not withdraw it, and the line's own deed, if it was accepted.
pub fn after_line(last: Option<Carried>, line: Line) -> (Option<Carried>, Option<Carried>)
    requires { IfSome last IsAccepted }
    ensures answered { (rest : List Entry) → answered_in (open_entries last ++ entry_of line ∷ rest)
        ≡ answered_of result.0 ++ answered_in (open_entries result.1 ++ rest) }
    ensures open { IfSome result.1 IsAccepted }
{
    match line {
        Line::Carried(next) => (last, if_accepted(next)),
        Line::Withdrawn(_) => (None, None),
    }
}

/// A deed, if it was accepted.
fn if_accepted(one: Carried) -> Option<Carried>
    ensures { result ≡ if_accepted one }
{
    if is_accepted(&one.reply) {
        Some(one)
    } else {
        None
    }
}
