//! An update or an archive of a register with a journal: its line is noted, and then it is carried
//! out, with the place at that line.
ghost use Rattle.std.specs.Prelude.{◌≡◌};
ghost use Rattle.clr_changes.specs.Deeds.{deed_of};
ghost use Rattle.clr_journal.specs.Answered.{deed_reply};
ghost use Rattle.clr_journal.specs.Line.{done};
ghost use Rattle.clr_level.specs.Renewing.{CarriesBelow, RenewalsKeepLevel, RenewalsKeepSafe};
ghost use Rattle.clr_level.specs.Renewing.{RenewsAt, last_after};

use crate::deed::carry_deed;
use crate::keeper::Keeper;
use crate::last::Last;
use clr_chain::Clock;
use clr_desk::{CommitAt, Desk, DeskFault};
use clr_journal::{Deed, Journal};
use std::alloc::Global;

/// Carries out an update or an archive at a desk with a journal. Its line is durable before
/// anything of it is done. The deed is one that the register carries out: changes that cannot be
/// made have no line.
///
/// `Journal` where the line is not written or not synced; register and place stay. Where what keeps
/// the tables fails after it, they stay too, and the journal is in doubt: the next opening decides.
/// `NoMemory` where memory runs out, before the line or after it.
pub fn renew<K: CommitAt, J: Journal + Drop, C: Clock>(
    alloc: Global,
    desk: Desk<Keeper<K, J, C>>,
    deed: Deed,
) -> (Result<(), DeskFault>, Desk<Keeper<K, J, C>>)
    requires { deed_reply desk.book.register (deed_of deed) ≡ done }
    ensures renewed { RenewsAt K.kept K.has_place K.fails C.shows J.text J.found J.may_leave
        J.is_usable desk result.1 (deed_of deed) result.0 }
    ensures level { RenewalsKeepLevel K.kept K.has_place J.text desk result.1 }
    ensures safe { RenewalsKeepSafe K.kept K.has_place J.text J.may_leave desk result.1 }
{
    let faults = desk.faults();
    let (book, keeper) = desk.parted();
    let mut keeper = keeper;
    let noted = keeper.note_deed(&deed);
    let desk = Desk::of(book, keeper, faults);
    match noted {
        Ok(()) => carry_noted(alloc, desk, deed),
        Err(fault) => (Err(fault), desk),
    }
}

/// Carries out a deed whose line is durable, at the desk below. On a fault of that the line is in
/// doubt.
fn carry_noted<K: CommitAt, J: Journal + Drop, C: Clock>(
    alloc: Global,
    desk: Desk<Keeper<K, J, C>>,
    deed: Deed,
) -> (Result<(), DeskFault>, Desk<Keeper<K, J, C>>)
    ensures { CarriesBelow K.kept K.takes K.has_place K.fails desk result.1 (deed_of deed)
        result.0 }
{
    let faults = desk.faults();
    let (book, keeper) = desk.parted();
    let Keeper {
        keeper: below,
        journal,
        clock,
        alloc: own,
        at,
        is_synced,
        last,
    } = keeper;
    let inner = Desk::of(book, below, faults);
    let (came, inner, at) = carry_deed(alloc, inner, deed, at);
    let last = last_after(&came, last);
    let faults = inner.faults();
    let (book, below) = inner.parted();
    let keeper = Keeper {
        keeper: below,
        journal,
        clock,
        alloc: own,
        at,
        is_synced,
        last,
    };
    let desk = Desk::of(book, keeper, faults);
    (came, desk)
}

/// What is known of the last line, once its deed was carried out, or a fault was met.
fn last_after(came: &Result<(), DeskFault>, last: Last) -> Last
    ensures { result ≡ last_after came.now last }
{
    match came {
        Ok(()) => last,
        Err(_) => Last::Doubtful,
    }
}
