//! The machines in memory have no journals: none is opened there, and none is begun.
ghost use Rattle.std.specs.Prelude.{◌≡◌, IfErr, IfOk, true};
ghost use Rattle.clr_edge.specs.Journals.{IsNew, IsOfBeginning, IsOfOpening};

use crate::blank::Blank;
use crate::machine::Known;
use crate::version_one::OldKnown;
use clr_chain::Clock;
use clr_edge::fault::{Fault, JournalFault};
use clr_edge::journals::{Journals, OpenedJournal};
use clr_rules::Place;

/// Each journal fails to open.
impl<B: Blank + Drop> Journals for Known<B> {
    ghost use Rattle.std.specs.Prelude.{◌≡◌, true};

    type Log = B::Log;

    type Time = NoTime;

    ghost opens_journal = { λ _ _ _ _ _ _. ⊥ };

    ghost shuts_journal = { λ old _ _ _ new. new ≡ old };

    ghost begins_journal = { λ _ _ _ _ _. ⊥ };

    ghost spares_journal = { λ old _ _ _ new. new ≡ old };

    ghost lets_journal_go = { λ old _ new. new ≡ old };

    ghost has_time = { λ _ _. Unit {0} };

    ghost is_clean = { λ _. true };

    fn journal(&mut self, _path: &str, _place: &Place) -> Result<OpenedJournal<B::Log>, Fault>
        ensures opens_journal { IfOk result (λ _. ⊥) }
        ensures shuts_journal { IfErr result (λ _. self.new ≡ self.old) }
        ensures whole { IfOk result (λ opened.
            B.Log.found opened.journal ≡ B.Log.text opened.journal) }
        ensures fault { IfErr result IsOfOpening }
    {
        Err(no_journal())
    }

    fn begin_journal(&mut self, _path: &str, first: &Place) -> Result<B::Log, Fault>
        ensures begins_journal { IfOk result (λ _. ⊥) }
        ensures new { IfOk result (IsNew B.Log.Journal (λ _. true) first.now) }
        ensures spares_journal { IfErr result (λ _. self.new ≡ self.old) }
        ensures fault { IfErr result IsOfBeginning }
    {
        let _first = first;
        Err(no_journal())
    }

    fn let_journal_go(&mut self, _journal: B::Log)
        ensures { self.new ≡ self.old }
    {}

    fn time(&self) -> NoTime {
        NoTime
    }
}

/// So it is with the machine whose tables are of version 1.
impl<B: Blank + Drop> Journals for OldKnown<B> {
    ghost use Rattle.std.specs.Prelude.{◌≡◌, true};

    type Log = B::Log;

    type Time = NoTime;

    ghost opens_journal = { λ _ _ _ _ _ _. ⊥ };

    ghost shuts_journal = { λ old _ _ _ new. new ≡ old };

    ghost begins_journal = { λ _ _ _ _ _. ⊥ };

    ghost spares_journal = { λ old _ _ _ new. new ≡ old };

    ghost lets_journal_go = { λ old _ new. new ≡ old };

    ghost has_time = { λ _ _. Unit {0} };

    ghost is_clean = { λ _. true };

    fn journal(&mut self, _path: &str, _place: &Place) -> Result<OpenedJournal<B::Log>, Fault>
        ensures opens_journal { IfOk result (λ _. ⊥) }
        ensures shuts_journal { IfErr result (λ _. self.new ≡ self.old) }
        ensures whole { IfOk result (λ opened.
            B.Log.found opened.journal ≡ B.Log.text opened.journal) }
        ensures fault { IfErr result IsOfOpening }
    {
        Err(no_journal())
    }

    fn begin_journal(&mut self, _path: &str, first: &Place) -> Result<B::Log, Fault>
        ensures begins_journal { IfOk result (λ _. ⊥) }
        ensures new { IfOk result (IsNew B.Log.Journal (λ _. true) first.now) }
        ensures spares_journal { IfErr result (λ _. self.new ≡ self.old) }
        ensures fault { IfErr result IsOfBeginning }
    {
        let _first = first;
        Err(no_journal())
    }

    fn let_journal_go(&mut self, _journal: B::Log)
        ensures { self.new ≡ self.old }
    {}

    fn time(&self) -> NoTime {
        NoTime
    }
}

/// The fault of each.
fn no_journal() -> Fault
    ensures opening { IsOfOpening result }
    ensures beginning { IsOfBeginning result }
{
    Fault::Journal(JournalFault::OpenFailed)
}

/// A clock that is always at the beginning.
#[derive(Drop)]
pub struct NoTime;

impl Clock for NoTime {
    ghost use Rattle.std.specs.Prelude.{◌≡◌};

    ghost shows = { λ _ seconds. seconds ≡ 0 };

    fn seconds(&self) -> u64
        ensures { result ≡ 0 }
    {
        0
    }
}
