//! Lines are noted.
ghost use Rattle.std.specs.Prelude.{◌≡◌, ◌≢◌, ◌+◌, ℕ, List, false, true, IfErr, IfOk, IsTrue};
ghost use Rattle.std.specs.Prelude.{OnErr, OnOk, string_bytes};
ghost use Rattle.sqlite_disk.specs.Disk.{Only};
ghost use Rattle.clr_answer.specs.Decision.{is_accepted as accepts};
ghost use Rattle.clr_chain.specs.Link.{link_text};
ghost use Rattle.clr_chain.specs.Sums.{sum_after};
ghost use Rattle.clr_level.specs.Journaling.{DoubtHasCause, IsDurable, IsKept, IsNoted};
ghost use Rattle.clr_level.specs.Journaling.{IsItsOwn, IsOfJournal, IsSound, IsUnnoted};
ghost use Rattle.clr_level.specs.Journaling.{IsLeftAs, IsUnwritten};
ghost use Rattle.clr_level.specs.Journaling.{IsWithdrawn, StaySafe, end_said, is_doubtful};
ghost use Rattle.clr_level.specs.Journaling.{IsDeedNoted, IsDeedUnwritten, line_of, said};
ghost use Rattle.clr_changes.specs.Deeds.{deed_of};
ghost use Rattle.clr_journal.specs.Line.{carried, done};

use crate::brief::{brief, is_accepted};
use crate::keeper::Keeper;
use crate::last::Last;
use crate::lines::append;
use clr_chain::{Clock, Link, print_archived, print_carried, print_updated, print_withdrawn};
use clr_desk::{CommitAt, DeskFault};
use clr_journal::{Deed, Journal, Receipt};
use clr_rules::{Command, Reply, Text};
use std::alloc::AllocError;

/// The line of a refused command has no more bytes than this, where its lists and its text make it
/// longer.
const BRIEF: usize = 2048;

impl<K: CommitAt, J: Journal + Drop, C: Clock> Keeper<K, J, C> {
    /// Adds the line of a command and its reply, after the withdrawal that is owed. Before the line
    /// of one that is accepted, all others are synced.
    pub(crate) fn note(
        &mut self,
        login: Option<Text>,
        command: &Command,
        reply: &Reply,
    ) -> Result<(), DeskFault>
        ensures keeper { self.new.keeper ≡ self.old.keeper }
        ensures noted { OnOk result (IsNoted C.shows J.text
            self.old login command.now reply.now self.new) }
        ensures settled { OnOk result (self.new.last ≡ Last.Settled) }
        ensures whole { OnOk result (J.found self.new.journal ≡ J.text self.new.journal) }
        ensures usable { OnOk result (IsTrue (J.is_usable self.new.journal)) }
        ensures none { OnErr result (IsUnnoted J.text self.old self.new) }
        ensures sound { IsSound J.text J.found J.may_leave self.old
            → IsSound J.text J.found J.may_leave self.new }
        ensures safe { StaySafe J.text J.may_leave self.old.journal self.new.journal }
        ensures withdrawn { IsWithdrawn J.text J.may_leave self.old self.new }
        ensures cause { DoubtHasCause J.is_usable self.old self.new }
        ensures before { accepts reply.now ≡ true → self.new.last ≡ Last.Settled
            → IsSound J.text J.found J.may_leave self.old
            → IsKept J.may_leave (said J.text self.old) self.new.journal }
        ensures fault { IfErr result IsOfJournal }
        ensures its_own { IfErr result (IsItsOwn self.new.last) }
    {
        self.make_ready(is_accepted(reply))?;
        let receipt = self.receipt(login)?;
        let number = receipt.number;
        let Link { text, sum } = self.line(&receipt, command, reply)?;
        self.is_synced = false;
        append(&mut self.journal, text)?;
        self.at.number = number;
        self.at.sum = sum;
        Ok(())
    }

    /// The same of a command that is accepted, and the line is synced. Where that fails it is in
    /// doubt.
    pub(crate) fn note_durably(
        &mut self,
        login: Option<Text>,
        command: &Command,
        reply: &Reply,
    ) -> Result<(), DeskFault>
        requires { accepts reply.now ≡ true }
        ensures keeper { self.new.keeper ≡ self.old.keeper }
        ensures noted { OnOk result (IsNoted C.shows J.text
            self.old login command.now reply.now self.new) }
        ensures settled { OnOk result (self.new.last ≡ Last.Settled) }
        ensures durable { OnOk result (IsDurable J.text J.may_leave self.new.journal) }
        ensures unwritten { IfErr result (λ fault. IsUnwritten C.shows J.text J.found J.may_leave
            self.old login command.now reply.now fault self.new) }
        ensures sound { IsSound J.text J.found J.may_leave self.old
            → IsSound J.text J.found J.may_leave self.new }
        ensures safe { StaySafe J.text J.may_leave self.old.journal self.new.journal }
        ensures withdrawn { IsWithdrawn J.text J.may_leave self.old self.new }
        ensures cause { DoubtHasCause J.is_usable self.old self.new }
        ensures fault { IfErr result IsOfJournal }
    {
        self.note(login, command, reply)?;
        self.sync()?;
        Ok(())
    }

    /// Adds the line of an update or of an archive, after the withdrawal that is owed, and syncs
    /// it. All other lines are synced before it. Where its own sync fails it is in doubt.
    pub(crate) fn note_deed(&mut self, deed: &Deed) -> Result<(), DeskFault>
        ensures keeper { self.new.keeper ≡ self.old.keeper }
        ensures noted { OnOk result
            (IsDeedNoted C.shows J.text self.old (deed_of deed.now) self.new) }
        ensures settled { OnOk result (self.new.last ≡ Last.Settled) }
        ensures durable { OnOk result (IsDurable J.text J.may_leave self.new.journal) }
        ensures unwritten { IfErr result (λ fault. IsDeedUnwritten C.shows J.text J.found
            J.may_leave self.old (deed_of deed.now) fault self.new) }
        ensures sound { IsSound J.text J.found J.may_leave self.old
            → IsSound J.text J.found J.may_leave self.new }
        ensures safe { StaySafe J.text J.may_leave self.old.journal self.new.journal }
        ensures withdrawn { IsWithdrawn J.text J.may_leave self.old self.new }
        ensures cause { DoubtHasCause J.is_usable self.old self.new }
        ensures fault { IfErr result IsOfJournal }
    {
        self.add_deed(deed)?;
        self.sync()?;
        Ok(())
    }

    /// The same, and the line is not synced.
    fn add_deed(&mut self, deed: &Deed) -> Result<(), DeskFault>
        ensures keeper { self.new.keeper ≡ self.old.keeper }
        ensures noted { OnOk result
            (IsDeedNoted C.shows J.text self.old (deed_of deed.now) self.new) }
        ensures settled { OnOk result (self.new.last ≡ Last.Settled) }
        ensures whole { OnOk result (J.found self.new.journal ≡ J.text self.new.journal) }
        ensures usable { OnOk result (IsTrue (J.is_usable self.new.journal)) }
        ensures none { OnErr result (IsUnnoted J.text self.old self.new) }
        ensures sound { IsSound J.text J.found J.may_leave self.old
            → IsSound J.text J.found J.may_leave self.new }
        ensures safe { StaySafe J.text J.may_leave self.old.journal self.new.journal }
        ensures withdrawn { IsWithdrawn J.text J.may_leave self.old self.new }
        ensures cause { DoubtHasCause J.is_usable self.old self.new }
        ensures before { self.new.last ≡ Last.Settled → IsSound J.text J.found J.may_leave self.old
            → IsKept J.may_leave (said J.text self.old) self.new.journal }
        ensures fault { IfErr result IsOfJournal }
        ensures its_own { IfErr result (IsItsOwn self.new.last) }
    {
        self.make_ready(true)?;
        let receipt = self.receipt(None)?;
        let number = receipt.number;
        let _received = receipt.received;
        let Link { text, sum } = self.deed_line(&receipt, deed)?;
        self.is_synced = false;
        append(&mut self.journal, text)?;
        self.at.number = number;
        self.at.sum = sum;
        Ok(())
    }

    /// The line of an update or of an archive. A command has another (`line`).
    fn deed_line(&self, receipt: &Receipt, deed: &Deed) -> Result<Link, DeskFault>
        ensures text { IfOk result (λ link. string_bytes link.text
            ≡ link_text (carried receipt.now (deed_of deed.now) done) link.sum) }
        ensures sum { IfOk result (λ link. link.sum
            ≡ sum_after self.now.at.sum (carried receipt.now (deed_of deed.now) done)) }
        ensures fault { IfErr result IsOfJournal }
    {
        match deed {
            Deed::Update(changes) => {
                let link = print_updated(self.alloc, &self.at.sum, receipt, changes)?;
                Ok(link)
            }
            Deed::Archive(before) => {
                let link = print_archived(self.alloc, &self.at.sum, receipt, *before)?;
                Ok(link)
            }
            Deed::Command(_) => Err(DeskFault::Journal),
        }
    }

    /// Makes the journal ready for a line: the withdrawal that is owed is written, and synced; for
    /// a deed that is accepted all lines are. A journal in doubt fails.
    fn make_ready(&mut self, is_accepted: bool) -> Result<(), DeskFault>
        ensures keeper { self.new.keeper ≡ self.old.keeper }
        ensures clock { self.new.clock ≡ self.old.clock }
        ensures settled { OnOk result (self.new.last ≡ Last.Settled) }
        ensures text { OnOk result (J.text self.new.journal ≡ said J.text self.old) }
        ensures at { OnOk result (self.new.at ≡ end_said self.old) }
        ensures certain { OnOk result (is_doubtful self.old.last ≡ false) }
        ensures synced { is_accepted ≡ true → IsSound J.text J.found J.may_leave self.old
            → OnOk result (Only (J.found self.new.journal) (J.may_leave self.new.journal)) }
        ensures none { OnErr result (IsUnnoted J.text self.old self.new) }
        ensures unready { OnErr result (self.new.last ≢ Last.Settled) }
        ensures sound { IsSound J.text J.found J.may_leave self.old
            → IsSound J.text J.found J.may_leave self.new }
        ensures safe { StaySafe J.text J.may_leave self.old.journal self.new.journal }
        ensures withdrawn { IsWithdrawn J.text J.may_leave self.old self.new }
        ensures cause { DoubtHasCause J.is_usable self.old self.new }
        ensures fault { IfErr result IsOfJournal }
        ensures its_own { IfErr result (IsItsOwn self.new.last) }
    {
        self.settle()?;
        if !is_accepted {
            return Ok(());
        }
        self.sync_lines()
    }

    /// Writes the withdrawal that is owed, and syncs it. A journal in doubt fails.
    fn settle(&mut self) -> Result<(), DeskFault>
        ensures keeper { self.new.keeper ≡ self.old.keeper }
        ensures clock { self.new.clock ≡ self.old.clock }
        ensures settled { OnOk result (self.new.last ≡ Last.Settled) }
        ensures text { OnOk result (J.text self.new.journal ≡ said J.text self.old) }
        ensures at { OnOk result (self.new.at ≡ end_said self.old) }
        ensures certain { OnOk result (is_doubtful self.old.last ≡ false) }
        ensures none { OnErr result (IsUnnoted J.text self.old self.new) }
        ensures unready { OnErr result (self.new.last ≢ Last.Settled) }
        ensures sound { IsSound J.text J.found J.may_leave self.old
            → IsSound J.text J.found J.may_leave self.new }
        ensures safe { StaySafe J.text J.may_leave self.old.journal self.new.journal }
        ensures withdrawn { IsWithdrawn J.text J.may_leave self.old self.new }
        ensures cause { DoubtHasCause J.is_usable self.old self.new }
        ensures fault { IfErr result IsOfJournal }
        ensures its_own { IfErr result (IsItsOwn self.new.last) }
    {
        match self.last {
            Last::Settled => Ok(()),
            Last::Owed => self.withdraw(),
            Last::Doubtful => Err(DeskFault::Journal),
        }
    }

    /// Hands back the keeper, and the journal with the withdrawal that is owed. Where memory runs
    /// out or the journal fails it may lack it: then the next opening carries the command out.
    pub fn finish(self) -> (K, J)
        ensures keeper { result.0 ≡ self.keeper }
        ensures journal { IsLeftAs J.text J.may_leave J.is_usable self result.1 }
    {
        match self.last {
            Last::Owed => self.withdrawn(),
            Last::Settled | Last::Doubtful => self.end(),
        }
    }

    /// The same where a withdrawal is owed.
    fn withdrawn(self) -> (K, J)
        requires { self.last ≡ Last.Owed }
        ensures keeper { result.0 ≡ self.keeper }
        ensures journal { IsLeftAs J.text J.may_leave J.is_usable self result.1 }
    {
        let mut keeper = self;
        let _ = keeper.withdraw();
        keeper.end()
    }

    /// Writes the withdrawal that is owed, and syncs it.
    fn withdraw(&mut self) -> Result<(), DeskFault>
        requires { self.old.last ≡ Last.Owed }
        ensures keeper { self.new.keeper ≡ self.old.keeper }
        ensures clock { self.new.clock ≡ self.old.clock }
        ensures settled { OnOk result (self.new.last ≡ Last.Settled) }
        ensures text { OnOk result (J.text self.new.journal ≡ said J.text self.old) }
        ensures at { OnOk result (self.new.at ≡ end_said self.old) }
        ensures synced { OnOk result (IsDurable J.text J.may_leave self.new.journal) }
        ensures none { OnErr result (IsUnnoted J.text self.old self.new) }
        ensures unready { OnErr result (self.new.last ≢ Last.Settled) }
        ensures sound { IsSound J.text J.found J.may_leave self.old
            → IsSound J.text J.found J.may_leave self.new }
        ensures safe { StaySafe J.text J.may_leave self.old.journal self.new.journal }
        ensures withdrawn { IsWithdrawn J.text J.may_leave self.old self.new }
        ensures cause { DoubtHasCause J.is_usable self.old self.new }
        ensures fault { IfErr result IsOfJournal }
        ensures its_own { IfErr result (IsItsOwn self.new.last) }
    {
        let Link { text, sum } = print_withdrawn(self.alloc, &self.at.sum, self.at.number)?;
        self.is_synced = false;
        append(&mut self.journal, text)?;
        self.at.sum = sum;
        self.last = Last::Settled;
        self.sync()?;
        Ok(())
    }

    /// Syncs the lines that there are, if they are not synced.
    fn sync_lines(&mut self) -> Result<(), DeskFault>
        ensures keeper { self.new.keeper ≡ self.old.keeper }
        ensures clock { self.new.clock ≡ self.old.clock }
        ensures at { self.new.at ≡ self.old.at }
        ensures text { J.text self.new.journal ≡ J.text self.old.journal }
        ensures found { J.found self.new.journal ≡ J.found self.old.journal }
        ensures same { OnOk result (self.new.last ≡ self.old.last) }
        ensures synced { IsSound J.text J.found J.may_leave self.old
            → OnOk result (Only (J.found self.new.journal) (J.may_leave self.new.journal)) }
        ensures sound { IsSound J.text J.found J.may_leave self.old
            → IsSound J.text J.found J.may_leave self.new }
        ensures safe { StaySafe J.text J.may_leave self.old.journal self.new.journal }
        ensures cause { DoubtHasCause J.is_usable self.old self.new }
        ensures doubtful { OnErr result (self.new.last ≡ Last.Doubtful) }
        ensures fault { IfErr result (λ fault. fault ≡ DeskFault.Journal) }
    {
        if self.is_synced {
            return Ok(());
        }
        if !self.journal.may_be_used() {
            self.last = Last::Doubtful;
            return Err(DeskFault::Journal);
        }
        self.sync()
    }

    /// Syncs the journal. Where that fails it is in doubt.
    fn sync(&mut self) -> Result<(), DeskFault>
        requires { IsTrue (J.is_usable self.old.journal) }
        ensures keeper { self.new.keeper ≡ self.old.keeper }
        ensures clock { self.new.clock ≡ self.old.clock }
        ensures at { self.new.at ≡ self.old.at }
        ensures text { J.text self.new.journal ≡ J.text self.old.journal }
        ensures found { J.found self.new.journal ≡ J.found self.old.journal }
        ensures same { OnOk result (self.new.last ≡ self.old.last) }
        ensures synced { OnOk result
            (Only (J.found self.new.journal) (J.may_leave self.new.journal)) }
        ensures sound { IsSound J.text J.found J.may_leave self.old
            → IsSound J.text J.found J.may_leave self.new }
        ensures safe { StaySafe J.text J.may_leave self.old.journal self.new.journal }
        ensures cause { DoubtHasCause J.is_usable self.old self.new }
        ensures no_more { (bytes : List ℕ) → J.may_leave self.new.journal bytes
            → J.may_leave self.old.journal bytes }
        ensures doubtful { OnErr result (self.new.last ≡ Last.Doubtful) }
        ensures fault { IfErr result (λ fault. fault ≡ DeskFault.Journal) }
    {
        if self.journal.sync().is_err() {
            self.last = Last::Doubtful;
            return Err(DeskFault::Journal);
        }
        self.is_synced = true;
        Ok(())
    }

    /// The line of a command and its reply. A refused one that would be long is noted in brief.
    fn line(&self, receipt: &Receipt, command: &Command, reply: &Reply) -> Result<Link, AllocError>
        ensures text { IfOk result (λ link. string_bytes link.text
            ≡ link_text (line_of self.now.at.sum receipt.now command.now reply.now) link.sum) }
        ensures sum { IfOk result (λ link. link.sum
            ≡ sum_after self.now.at.sum
            (line_of self.now.at.sum receipt.now command.now reply.now)) }
    {
        let link = print_carried(self.alloc, &self.at.sum, receipt, command, reply)?;
        if is_accepted(reply) || link.text.len() <= BRIEF {
            return Ok(link);
        }
        match brief(self.alloc, command) {
            Some(brief) => print_carried(self.alloc, &self.at.sum, receipt, &brief, reply),
            None => Ok(link),
        }
    }

    /// The receipt of the next deed, given at a login, or at none. There is none after the greatest
    /// number.
    fn receipt(&mut self, login: Option<Text>) -> Result<Receipt, DeskFault>
        ensures number { IfOk result (λ receipt. receipt.number ≡ self.old.at.number + 1) }
        ensures login { IfOk result (λ receipt. receipt.login ≡ login) }
        ensures received { IfOk result (λ receipt. C.shows self.new.clock receipt.received) }
        ensures clock { self.new.clock ≡ self.old.clock }
        ensures keeper { self.new.keeper ≡ self.old.keeper }
        ensures journal { self.new.journal ≡ self.old.journal }
        ensures at { self.new.at ≡ self.old.at }
        ensures synced { self.new.is_synced ≡ self.old.is_synced }
        ensures last { self.new.last ≡ self.old.last }
        ensures fault { IfErr result IsOfJournal }
    {
        let Some(number) = self.at.number.checked_add(1) else {
            return Err(DeskFault::Journal);
        };
        let received = self.clock.seconds();
        Ok(Receipt {
            number,
            received,
            login,
        })
    }
}
