//! A command is carried out, and its change kept with a place.
ghost use Rattle.std.specs.Prelude.{◌≡◌, true, IfErr, IfOk, OnErr, OnOk};
ghost use Rattle.sqlite.specs.State.{Survives};
ghost use Rattle.clr_answer.specs.Decision.{is_accepted};
ghost use Rattle.clr_rules.specs.Answer.{Answer, answer};
ghost use Rattle.clr_rules.specs.Good.{IsGood};
ghost use Rattle.clr_rules.specs.Run.{after};
ghost use Rattle.clr_desk.specs.Faults.{IsOfKeeper};
ghost use Rattle.clr_desk.specs.Given.{LeadsTo};
ghost use Rattle.clr_level.specs.Crash.{AreAfterAt, KeepsTables};
ghost use Rattle.clr_level.specs.Forward.{Carries};
ghost use Rattle.clr_level.specs.Placing.{ComesTo, StaysShown};

use clr_desk::{Commit, CommitAt, Desk, DeskFault};
use clr_rules::{Change, Command, Place, Reply, Text};

/// A keeper, and the place that it keeps with each change.
#[derive(Drop)]
pub(crate) struct Placed<K: CommitAt> {
    keeper: K,
    place: Place,
}

impl<K: CommitAt> Commit for Placed<K> {
    ghost kept = { λ it. K.kept it.keeper };

    ghost fails = { K.fails };

    ghost takes = { Carries K.takes K.kept K.has_place };

    ghost doubts = { λ it. K.doubts it.keeper };

    ghost settled = { λ it trees here left. K.settled it.keeper trees here left };

    fn is_in_doubt(&self) -> bool {
        self.keeper.is_in_doubt()
    }

    fn commit(
        &mut self,
        login: Option<Text>,
        command: &Command,
        reply: &Reply,
        change: &Change,
    ) -> Result<(), DeskFault> {
        self.keeper.commit_at(command, reply, change, &self.place)?;
        Ok(())
    }

    fn note_refused(
        &mut self,
        login: Option<Text>,
        command: &Command,
        reply: &Reply,
    ) -> Result<(), DeskFault> {
        self.keeper.note_refused(None, command, reply)?;
        Ok(())
    }
}

/// Carries out a command at a desk. Where it is accepted its change is kept with this place.
pub(crate) fn carry_at<K: CommitAt>(
    desk: Desk<K>,
    command: Command,
    place: Place,
) -> (Result<Reply, DeskFault>, Desk<K>, Place)
    ensures reply { IsGood desk.book.register → IfOk result.0 (λ reply.
        reply ≡ Answer.reply (answer desk.book.register command)) }
    ensures register { IsGood desk.book.register → OnOk result.0
        (result.1.book.register ≡ after desk.book.register command) }
    ensures unchanged { OnErr result.0 (result.1.book.register ≡ desk.book.register) }
    ensures placed { IfOk result.0 (λ reply. is_accepted reply ≡ true
        → ComesTo K.has_place (K.kept desk.store) (K.kept result.1.store) place) }
    ensures stays { OnErr result.0 (StaysShown (K.kept desk.store) (K.kept result.1.store)) }
    ensures tables { OnOk result.0 (KeepsTables K.kept desk result.1) }
    ensures left { Survives (K.kept desk.store) (K.kept result.1.store)
        (AreAfterAt K.has_place (K.kept desk.store).now desk.book.register command place) }
    ensures led { LeadsTo K.kept K.takes desk result.1 }
    ensures place { result.2 ≡ place }
    ensures fault { IfErr result.0 (IsOfKeeper K.fails) }
{
    let faults = desk.faults();
    let (book, keeper) = desk.parted();
    let mut desk = Desk::of(book, Placed { keeper, place }, faults);
    let came = desk.one(command);
    let faults = desk.faults();
    let (book, placed) = desk.parted();
    let Placed { keeper, place } = placed;
    (came, Desk::of(book, keeper, faults), place)
}
