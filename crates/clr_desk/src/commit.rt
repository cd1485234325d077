//! What keeps the changes of a desk: a store, or nothing.
ghost use Rattle.std.specs.Prelude.{◌≡◌, ℕ, Bool, IfErr, IsTrue, List, Option, Result, false, true};
ghost use Rattle.std.specs.Prelude.{⊤};
ghost use Rattle.sqlite.specs.Held.{state};
ghost use Rattle.sqlite.specs.State.{State};
ghost use Rattle.sqlite.specs.Tree.{Trees};
ghost use Rattle.clr_rules.specs.declared.command.Command.{Command};
ghost use Rattle.clr_rules.specs.declared.reply.Reply.{Reply};
ghost use Rattle.clr_answer.specs.Decision.{is_accepted};
ghost use Rattle.clr_load.specs.TableEdits.{tables_edited};
ghost use Rattle.clr_store.specs.Transaction.{Transacts};
ghost use Rattle.clr_desk.specs.Commit.{Stays, StaysSaved, nothing};
ghost use Rattle.clr_desk.specs.Faults.{FailsAsStore, IsOfKeeper};
ghost use Rattle.clr_desk.specs.Taking.{NeverFails, PassesOver, is_refused};
ghost use Rattle.clr_desk.specs.declared.desk_fault.DeskFault.{DeskFault};

use crate::desk_fault::DeskFault;
use clr_rules::{Change, Command, Reply, Text};
use clr_store::Store;
use sqlite::Alter;

/// Keeps what accepted commands change, each change whole or not at all, and may note the commands
/// that are refused.
pub trait Commit: Drop {
    /// What it shows, what a crash may leave of it, whether it is open and its disk clean.
    ghost kept: { Self → State };

    /// Which faults it answers, beside want of memory.
    ghost fails: { DeskFault → Type 0 };

    /// Which state a call with a login, a command and its reply leads to, by what came of the call.
    /// Only the calls of `commit` and `note_refused` are of this relation.
    ghost takes: { Self → Option (List ℕ) → Command → Reply → Result (Unit {0}) DeskFault → Self
        → Type 0 };

    /// Whether it is not known if the last change was kept.
    ghost doubts: { Self → Bool };

    /// Whether it is not known if the last change was kept: only opening the register again decides
    /// that, and no change is kept before.
    fn is_in_doubt(&self) -> bool
        ensures { result ≡ doubts self.now };

    /// Keeps the change of a command that is accepted with a reply. It is given at a login, or at
    /// none.
    ///
    /// On a fault nothing of it is kept.
    fn commit(
        &mut self,
        login: Option<Text>,
        command: &Command,
        reply: &Reply,
        change: &Change,
    ) -> Result<(), DeskFault>
        requires accepted { is_accepted reply.now ≡ true }
        ensures commits { Transacts (λ _ _. ⊤) StaysSaved (kept self.old) (kept self.new)
            (tables_edited change.now.edits.items) result }
        ensures fault { IfErr result (IsOfKeeper fails) }
        ensures taken { takes self.old login command.now reply.now result self.new };

    /// Notes a command that is refused with a reply, and its login. What is kept stays as it is.
    fn note_refused(
        &mut self,
        login: Option<Text>,
        command: &Command,
        reply: &Reply,
    ) -> Result<(), DeskFault>
        requires refused { is_refused reply.now ≡ true }
        ensures stays { Stays (kept self.old) (kept self.new) }
        ensures fault { IfErr result (IsOfKeeper fails) }
        ensures taken { takes self.old login command.now reply.now result self.new };

    /// Between calls a crash leaves the last commit.
    ghost settled: { (keeper : Self) (trees : Trees) → IsTrue (kept keeper).is_open
        → (kept keeper).may_leave trees → trees ≡ (kept keeper).committed.trees };
}

/// A store keeps each change in its tables, in one transaction, and notes no refused command.
impl<S: Alter + Drop> Commit for Store<S> {
    ghost kept = { λ store. state S.Store store };

    ghost fails = { FailsAsStore };

    ghost takes = { PassesOver };

    ghost doubts = { λ _. false };

    ghost settled = { λ store trees here left. S.Store.settled store.store trees here left };

    fn is_in_doubt(&self) -> bool {
        false
    }

    fn commit(
        &mut self,
        login: Option<Text>,
        command: &Command,
        reply: &Reply,
        change: &Change,
    ) -> Result<(), DeskFault> {
        self.commit(change, None)?;
        Ok(())
    }

    fn note_refused(
        &mut self,
        login: Option<Text>,
        command: &Command,
        reply: &Reply,
    ) -> Result<(), DeskFault> {
        Ok(())
    }
}

/// Keeps nothing: what it shows is an empty database, which stays empty.
#[derive(Drop)]
pub struct Unkept;

impl Commit for Unkept {
    ghost kept = { λ _. nothing };

    ghost fails = { λ _. ⊥ };

    ghost takes = { NeverFails };

    ghost doubts = { λ _. false };

    ghost settled = { λ _ trees here left. left };

    fn is_in_doubt(&self) -> bool {
        false
    }

    fn commit(
        &mut self,
        login: Option<Text>,
        command: &Command,
        reply: &Reply,
        change: &Change,
    ) -> Result<(), DeskFault> {
        Ok(())
    }

    fn note_refused(
        &mut self,
        login: Option<Text>,
        command: &Command,
        reply: &Reply,
    ) -> Result<(), DeskFault> {
        Ok(())
    }
}
