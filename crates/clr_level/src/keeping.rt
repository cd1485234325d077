//! A keeper with a journal keeps changes.
ghost use Rattle.std.specs.Prelude.{◌≡◌, ◌⊎◌};
ghost use Rattle.clr_level.specs.Journaling.{FailsToo, Journals};
ghost use Rattle.clr_level.specs.Journaling.{is_doubtful, left_by};

use crate::brief::is_show;
use crate::keeper::Keeper;
use crate::last::Last;
use clr_chain::Clock;
use clr_desk::{Commit, CommitAt, DeskFault};
use clr_journal::Journal;
use clr_rules::{Change, Command, Reply, Text};

/// Each command that is accepted has its line in the journal, synced, before the keeper commits its
/// change with the place at that line. One that is refused has a line that is not synced; a `show`
/// has none.
impl<K: CommitAt, J: Journal + Drop, C: Clock> Commit for Keeper<K, J, C> {
    ghost kept = { λ it. K.kept it.keeper };

    ghost fails = { FailsToo K.fails };

    ghost takes = { Journals K.takes K.kept K.has_place C.shows J.text J.found J.may_leave
        J.is_usable };

    ghost doubts = { λ it. is_doubtful it.last };

    ghost settled = { λ it trees here left. K.settled it.keeper trees here left };

    fn is_in_doubt(&self) -> bool {
        match self.last {
            Last::Doubtful => true,
            Last::Settled | Last::Owed => false,
        }
    }

    fn commit(
        &mut self,
        login: Option<Text>,
        command: &Command,
        reply: &Reply,
        change: &Change,
    ) -> Result<(), DeskFault> {
        self.note_durably(login, command, reply)?;
        match self.keeper.commit_at(command, reply, change, &self.at) {
            Ok(()) => Ok(()),
            Err(fault) => {
                self.last = left_by(fault);
                Err(fault)
            }
        }
    }

    fn note_refused(
        &mut self,
        login: Option<Text>,
        command: &Command,
        reply: &Reply,
    ) -> Result<(), DeskFault> {
        if is_show(command) {
            return self.keeper.note_refused(None, command, reply);
        }
        self.note(login, command, reply)?;
        self.keeper.note_refused(None, command, reply)
    }
}

/// What is known of a line after whose command the keeper met a fault: where memory ran out, the
/// keeper goes on as it was; otherwise it may have kept the change.
fn left_by(fault: DeskFault) -> Last
    ensures { result ≡ left_by fault }
{
    match fault {
        DeskFault::NoMemory => Last::Owed,
        DeskFault::Store(_) | DeskFault::Journal => Last::Doubtful,
    }
}
