//! The journal of a register is opened: it is looked through first, and cut last.
ghost use Rattle.std.specs.Prelude.{◌≡◌, ◌⊎◌, ◌+◌, length, take, IfErr, IfOk, IsTrue, OnErr, OnOk};
ghost use Rattle.sqlite_disk.specs.Disk.{Cut, Follows, MoreFaults, Only};
ghost use Rattle.clr_journal.specs.Opening.{Unchanged};
ghost use Rattle.clr_chain.specs.Faults.{CountsRefused};
ghost use Rattle.clr_chain.specs.Finding.{found_in};
ghost use Rattle.clr_chain.specs.OnDisk.{WasRead};
ghost use Rattle.clr_chain.specs.Opening.{IsOpened, Refuses, WasNotCut};

use crate::fault::ChainFault;
use crate::finding::{Ahead, Found};
use crate::looking::{Looked, look};
use clr_journal::{Journal, OnDisk, cut_at};
use clr_rules::Place;
use sqlite_disk::Disk;
use std::alloc::Global;
use std::io;

/// A journal that was opened, and its lines that come after the register's.
#[derive(Drop)]
pub struct OpenedChain<D: Disk> {
    pub journal: OnDisk<D>,
    pub ahead: Ahead,
}

/// Opens the journal on a disk, at the place that a register has in it.
///
/// What the journal holds is synced first. What comes after the last line that holds its sum was
/// never synced, and is cut off; where there is any, the disk is synced again. So a crash leaves
/// the text of the journal and no byte more: what was cut off does not come back after a later
/// line. A journal that is refused is left as it is. `OpenFailed` where the disk fails; after a
/// sync that failed it may not be used.
pub fn open_chain<D: Disk + Drop>(
    alloc: Global,
    place: &Place,
    disk: D,
) -> Result<OpenedChain<D>, (ChainFault, D)>
    requires { IsTrue (D.Disk.is_usable disk) }
    ensures opened { IfOk result (λ opened. IsTrue (D.Disk.is_clean opened.journal.disk)
        → IsOpened place.now (D.Disk.seen disk) opened.ahead
        (⟦<OnDisk<D> as Journal>⟧.text opened.journal)) }
    ensures durable { IfOk result (λ opened. IsTrue (D.Disk.is_clean opened.journal.disk)
        → Only (⟦<OnDisk<D> as Journal>⟧.text opened.journal)
        (⟦<OnDisk<D> as Journal>⟧.may_leave opened.journal)) }
    ensures crash { IfOk result (λ opened.
        Follows (Cut (length (⟦<OnDisk<D> as Journal>⟧.text opened.journal)))
        (D.Disk.may_leave disk) (⟦<OnDisk<D> as Journal>⟧.may_leave opened.journal)) }
    ensures whole { IfOk result (λ opened. ⟦<OnDisk<D> as Journal>⟧.found opened.journal
        ≡ ⟦<OnDisk<D> as Journal>⟧.text opened.journal) }
    ensures usable { IfOk result (λ opened.
        IsTrue (⟦<OnDisk<D> as Journal>⟧.is_usable opened.journal)) }
    ensures refused { IfErr result (λ back. IsTrue (D.Disk.is_clean back.1)
        → Refuses back.0 (found_in place.now (D.Disk.seen disk))) }
    ensures left { IfErr result (λ back. IsTrue (D.Disk.is_clean back.1)
        → Unchanged D.Disk.seen D.Disk.may_leave disk back.1
        ⊎ WasNotCut D.Disk.seen D.Disk.may_leave D.Disk.faults place.now disk back.1) }
    ensures spared { IfErr result (λ back. (back.0 ≡ ChainFault.OpenFailed → ⊥)
        → Unchanged D.Disk.seen D.Disk.may_leave disk back.1) }
    ensures cause { IfErr result (λ back. back.0 ≡ ChainFault.OpenFailed
        → MoreFaults (D.Disk.faults disk) (D.Disk.faults back.1)) }
{
    let mut disk = disk;
    match ahead_on(alloc, place, &mut disk) {
        Ok((ahead, end)) => match cut_synced(disk, end, ahead.rest) {
            Ok(journal) => Ok(OpenedChain { journal, ahead }),
            Err(disk) => Err((ChainFault::OpenFailed, disk)),
        },
        Err(fault) => Err((fault, disk)),
    }
}

/// The lines that come after a register's in the journal on a disk, and where the last of them
/// ends. Nothing is written.
fn ahead_on<D: Disk>(
    alloc: Global,
    place: &Place,
    disk: &mut D,
) -> Result<(Ahead, usize), ChainFault>
    requires { IsTrue (D.Disk.is_usable disk.old) }
    ensures opened { IfOk result (λ found. IsTrue (D.Disk.is_clean disk.new)
        → IsOpened place.now (D.Disk.seen disk.old) found.0
        (take found.1 (D.Disk.seen disk.old))) }
    ensures all { IfOk result (λ found. IsTrue (D.Disk.is_clean disk.new)
        → found.1 + found.0.rest ≡ length (D.Disk.seen disk.old)) }
    ensures refused { IfErr result (λ fault. IsTrue (D.Disk.is_clean disk.new)
        → Refuses fault (found_in place.now (D.Disk.seen disk.old))) }
    ensures read { WasRead D.Disk.seen D.Disk.may_leave D.Disk.is_clean D.Disk.is_usable
        disk.old disk.new }
    ensures counts { CountsRefused result (D.Disk.faults disk.old) (D.Disk.faults disk.new) }
{
    let Looked { found, len } = look(alloc, place, disk)?;
    match found {
        Found::Ahead(ahead) => {
            let end = len - ahead.rest;
            Ok((ahead, end))
        }
        Found::OtherRules(number) => Err(ChainFault::OtherRules(number)),
        Found::OtherRegister => Err(ChainFault::OtherRegister),
        Found::TooShort => Err(ChainFault::TooShort),
        Found::Differs(number) => Err(ChainFault::Differs(number)),
        Found::BadLine(number) => Err(ChainFault::BadLine(number)),
    }
}

/// The journal of a disk up to this place, after which the disk has this many bytes: they are cut
/// off, and what is left is synced. Where the disk fails it is given back.
fn cut_synced<D: Disk + Drop>(disk: D, end: usize, rest: usize) -> Result<OnDisk<D>, D>
    requires { IsTrue (D.Disk.is_usable disk) }
    ensures text { IfOk result (λ journal. end + rest ≡ length (D.Disk.seen disk)
        → ⟦<OnDisk<D> as Journal>⟧.text journal ≡ take end (D.Disk.seen disk)) }
    ensures len { IfOk result (λ journal.
        length (⟦<OnDisk<D> as Journal>⟧.text journal) ≡ end) }
    ensures durable { IfOk result (λ journal. end + rest ≡ length (D.Disk.seen disk)
        → Only (take end (D.Disk.seen disk)) (⟦<OnDisk<D> as Journal>⟧.may_leave journal)) }
    ensures crash { IfOk result (λ journal. Follows (Cut end) (D.Disk.may_leave disk)
        (⟦<OnDisk<D> as Journal>⟧.may_leave journal)) }
    ensures whole { IfOk result (λ journal. ⟦<OnDisk<D> as Journal>⟧.found journal
        ≡ ⟦<OnDisk<D> as Journal>⟧.text journal) }
    ensures clean { IfOk result (λ journal.
        D.Disk.is_clean journal.disk ≡ D.Disk.is_clean disk) }
    ensures usable { IfOk result (λ journal.
        IsTrue (⟦<OnDisk<D> as Journal>⟧.is_usable journal)) }
    ensures seen { IfErr result (λ back. Cut end (D.Disk.seen disk) (D.Disk.seen back)) }
    ensures kept { IfErr result (λ back.
        Follows (Cut end) (D.Disk.may_leave disk) (D.Disk.may_leave back)) }
    ensures calm { IfErr result (λ back. D.Disk.is_clean back ≡ D.Disk.is_clean disk) }
    ensures cause { IfErr result (λ back.
        MoreFaults (D.Disk.faults disk) (D.Disk.faults back)) }
{
    let mut disk = disk;
    match cut_off(&mut disk, end, rest) {
        Ok(()) => cut_at(disk, end),
        Err(_) => Err(disk),
    }
}

/// Syncs what a disk holds. Where it has bytes after this place, this many, they are cut off then,
/// and the disk is synced again: a crash leaves none of them.
fn cut_off<D: Disk>(disk: &mut D, end: usize, rest: usize) -> io::Result<()>
    requires { IsTrue (D.Disk.is_usable disk.old) }
    ensures durable { OnOk result (end + rest ≡ length (D.Disk.seen disk.old)
        → Only (take end (D.Disk.seen disk.old)) (D.Disk.may_leave disk.new)) }
    ensures usable { OnOk result (IsTrue (D.Disk.is_usable disk.new)) }
    ensures count { OnOk result (D.Disk.faults disk.new ≡ D.Disk.faults disk.old) }
    ensures cause { OnErr result (MoreFaults (D.Disk.faults disk.old) (D.Disk.faults disk.new)) }
    ensures cut { Cut end (D.Disk.seen disk.old) (D.Disk.seen disk.new) }
    ensures crash { Follows (Cut end) (D.Disk.may_leave disk.old) (D.Disk.may_leave disk.new) }
    ensures clean { D.Disk.is_clean disk.new ≡ D.Disk.is_clean disk.old }
{
    disk.sync()?;
    if rest == 0 {
        return Ok(());
    }
    disk.set_len(end)?;
    disk.sync()
}
