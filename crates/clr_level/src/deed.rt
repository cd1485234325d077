//! A deed is carried out, and what it changes is kept with a place.
ghost use Rattle.std.specs.Prelude.{◌≡◌, ◌&&◌, true};
ghost use Rattle.clr_changes.specs.Shown.{as_update};
ghost use Rattle.clr_changes.specs.Deeds.{command as of_command, deed_of, update as of_changes};
ghost use Rattle.clr_update.specs.Changes.{Changes as SaidChanges};
ghost use Rattle.clr_update.specs.Delta.{all_there, have_no_fault, update_of};
ghost use Rattle.clr_update.specs.Shown.{as_changes};
ghost use Rattle.clr_level.specs.Carrying.{CarriesDeed};

use crate::placing::carry_at;
use clr_changes::{Report, Update, update_of};
use clr_desk::{CommitAt, Desk, DeskFault};
use clr_journal::{Changes, Deed};
use clr_rules::{Command, Place};
use std::alloc::Global;

/// Carries out a deed at a desk. What an accepted one changes is kept with this place.
pub(crate) fn carry_deed<K: CommitAt>(
    alloc: Global,
    desk: Desk<K>,
    deed: Deed,
    place: Place,
) -> (Result<(), DeskFault>, Desk<K>, Place)
    ensures carried { CarriesDeed K.kept K.takes K.has_place K.fails desk result.1
        (deed_of deed) place result.0 }
    ensures place { result.2 ≡ place }
{
    match deed {
        Deed::Command(command) => command_at(desk, command, place),
        Deed::Update(changes) => {
            let (came, desk) = change_at(alloc, desk, &changes, &place);
            (came, desk, place)
        }
        Deed::Archive(before) => {
            let (came, desk) = desk.archive_at(alloc, before, &place);
            (came, desk, place)
        }
    }
}

/// Carries out a command at a desk.
fn command_at<K: CommitAt>(
    desk: Desk<K>,
    command: Command,
    place: Place,
) -> (Result<(), DeskFault>, Desk<K>, Place)
    ensures carried { CarriesDeed K.kept K.takes K.has_place K.fails desk result.1
        (of_command command) place result.0 }
    ensures place { result.2 ≡ place }
{
    let (came, desk, place) = carry_at(desk, command, place);
    match came {
        Ok(_reply) => (Ok(()), desk, place),
        Err(fault) => (Err(fault), desk, place),
    }
}

/// Makes changes of network and staff, which can be made, at a desk. They are kept with this place.
///
/// Where they cannot be made the desk stays as it is: an opening does not come to such, since it
/// tries its lines before.
fn change_at<K: CommitAt>(
    alloc: Global,
    desk: Desk<K>,
    changes: &Changes,
    place: &Place,
) -> (Result<(), DeskFault>, Desk<K>)
    ensures { CarriesDeed K.kept K.takes K.has_place K.fails desk result.1
        (of_changes (as_changes changes.now)) place.now result.0 }
{
    match update_of(alloc, desk.book(), changes) {
        Ok(Some(update)) => make_at(alloc, desk, update, place),
        Ok(None) | Err(_) => (Err(DeskFault::NoMemory), desk),
    }
}

/// Makes an update at a desk, of changes that say it.
fn make_at<K: CommitAt>(
    alloc: Global,
    desk: Desk<K>,
    update: Update,
    place: &Place,
) -> (Result<(), DeskFault>, Desk<K>)
    ensures { (of : SaidChanges) → (all_there desk.book.register of
        && have_no_fault desk.book.register of) ≡ true
        → as_update update ≡ update_of desk.book.register of
        → CarriesDeed K.kept K.takes K.has_place K.fails desk result.1 (of_changes of)
        place.now result.0 }
{
    let (came, desk) = desk.update_at(alloc, update, place);
    match came {
        Ok(Report::Changes(_text)) => (Ok(()), desk),
        Ok(Report::InTheWay(_obstacle)) => (Err(DeskFault::NoMemory), desk),
        Err(fault) => (Err(fault), desk),
    }
}
