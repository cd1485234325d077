//! Laws of keepers with a journal: the contract of each function is the law, and its body is empty.
ghost use Rattle.clr_level.specs.Crash.{FrontsCanBeOpened};
ghost use Rattle.clr_level.specs.Levelling.{BegunIsLevel, EitherIsLevel, LevelIsKept};
ghost use Rattle.clr_level.specs.Levelling.{SettledIsWhatItSays, SoundIsKept};
ghost use Rattle.clr_level.specs.Restarting.{DueIsSafe, RestartsKeepLevel, SafeIsKept};

use clr_chain::Clock;
use clr_desk::CommitAt;
use clr_journal::Journal;

/// Register, place and journal stay level over any number of commands, logins and faults, and what
/// the keeper holds of its journal stays true. Where nothing is owed or in doubt, the register is
/// what all lines of its journal say.
pub fn level_is_kept<K: CommitAt, J: Journal + Drop, C: Clock>()
    ensures kept { LevelIsKept K J C K.takes K.kept K.has_place C.shows J.text J.found
        J.may_leave J.is_usable }
    ensures sound { SoundIsKept K J C K.takes K.kept K.has_place C.shows J.text J.found
        J.may_leave J.is_usable }
    ensures settled { SettledIsWhatItSays K J C K.kept K.has_place J.text }
{}

/// Where the last deed is in doubt, the register is level whether it was carried out or not.
pub fn either_is_level()
    ensures { EitherIsLevel }
{}

/// A register that a keeper has at the first line of its journal, which has no other, is level with
/// it.
pub fn begun_is_level<K: CommitAt>(keeper: &K)
    ensures { BegunIsLevel K.has_place (K.kept keeper.now) }
{}

/// Whatever a crash leaves of journal and register, they are opened again level, or refused. A
/// crash leaves the lines up to the register's place, whatever the desk was given, and those with
/// the line of a deed that may have been carried out.
pub fn restarts_keep_level<K: CommitAt, J: Journal + Drop, C: Clock>()
    ensures safe { SafeIsKept K J C K.takes K.kept K.has_place C.shows J.text J.found J.may_leave
        J.is_usable }
    ensures due { DueIsSafe K J C K.kept K.has_place J.text J.may_leave }
    ensures opened { RestartsKeepLevel }
{}

/// What a crash leaves while an opening rolls a register forward, as `with_journal` says it, can be
/// opened again with the same journal. That opening goes on from there, and comes to the register
/// that the first would have come to.
pub fn fronts_can_be_opened<K: CommitAt>(was: &K, found: &K)
    ensures { FrontsCanBeOpened K.has_place (K.kept was.now) (K.kept found.now) }
{}
