//! A keeper, and a journal in which each deed has its line before the keeper takes it.
ghost use Rattle.std.specs.Prelude.{◌≡◌, false, IfSome, IsSome};

use crate::last::Last;
use clr_chain::Clock;
use clr_desk::CommitAt;
use clr_journal::Journal;
use clr_rules::Place;
use std::alloc::Global;

/// A keeper, and a journal in which each deed has its line before the keeper takes it. The
/// keeper keeps the place of the register in the journal.
#[derive(Drop)]
pub struct Keeper<K: CommitAt, J: Journal + Drop, C: Clock> {
    pub(crate) keeper: K,
    pub(crate) journal: J,
    pub(crate) clock: C,
    pub(crate) alloc: Global,
    /// Where the journal has come to.
    pub(crate) at: Place,
    /// No line was written after the last sync.
    pub(crate) is_synced: bool,
    pub(crate) last: Last,
}

impl<K: CommitAt, J: Journal + Drop, C: Clock> Keeper<K, J, C> {
    /// A keeper with a journal that has come to this place, and whose deeds are all carried out,
    /// refused or withdrawn.
    pub(crate) fn new(alloc: Global, keeper: K, journal: J, clock: C, at: Place) -> Keeper<K, J, C>
        ensures keeper { result.keeper ≡ keeper }
        ensures journal { result.journal ≡ journal }
        ensures clock { result.clock ≡ clock }
        ensures at { result.at ≡ at }
        ensures synced { result.is_synced ≡ false }
        ensures last { result.last ≡ Last.Settled }
    {
        Keeper {
            keeper,
            journal,
            clock,
            alloc,
            at,
            is_synced: false,
            last: Last::Settled,
        }
    }

    /// Where the journal has come to, if its last deed was carried out, refused or withdrawn.
    pub fn at(&self) -> Option<&Place>
        ensures some { IfSome result (λ at. (at.now ≡ self.now.at)
            × (self.now.last ≡ Last.Settled)) }
        ensures none { self.now.last ≡ Last.Settled → IsSome result }
    {
        match self.last {
            Last::Settled => Some(&self.at),
            Last::Owed | Last::Doubtful => None,
        }
    }

    /// Hands back the keeper, and the journal as its last line left it.
    pub fn end(self) -> (K, J)
        ensures keeper { result.0 ≡ self.keeper }
        ensures journal { result.1 ≡ self.journal }
    {
        (self.keeper, self.journal)
    }
}
