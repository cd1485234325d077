//! A new journal: its first line.
ghost use Rattle.std.specs.Prelude.{◌≡◌, ◌≢◌, ◌<◌, ◌≤◌, [], length, IfErr, IfOk, IsErrOf, IsTrue};
ghost use Rattle.std.specs.Prelude.{OnOk};
ghost use Rattle.std.specs.Prelude.{OnErr, string_bytes};
ghost use Rattle.sqlite_disk.specs.Disk.{MoreFaults, Only};
ghost use Rattle.clr_journal.specs.Lines.{with_feed};
ghost use Rattle.clr_chain.specs.First.{CanBePrinted, first_text};
ghost use Rattle.clr_chain.specs.OnDisk.{WasRead};
ghost use Rattle.clr_chain.specs.Opening.{CanBegin, new_text};

use crate::fault::NewFault;
use crate::first::{FRONT, print_first};
use clr_journal::{Journal, OnDisk, cut_at};
use clr_rules::Place;
use sqlite_disk::Disk;
use std::alloc::{AllocError, Global};

/// A new journal on a disk that holds no bytes: its first line, synced.
///
/// `HasBytes` where the disk holds some, and `TooLong` where the line would have more than 4,096
/// bytes; nothing is written then, nor where memory runs out. `WriteFailed` where the disk fails: a
/// part of the line may have been written. A disk whose sync failed may not be used.
pub fn new_chain<D: Disk + Drop>(
    alloc: Global,
    first: &Place,
    disk: D,
) -> Result<OnDisk<D>, (NewFault, D)>
    requires { IsTrue (D.Disk.is_usable disk) }
    ensures new { IfOk result (λ journal. IsTrue (D.Disk.is_clean journal.disk)
        → D.Disk.seen disk ≡ []) }
    ensures text { IfOk result (λ journal. IsTrue (D.Disk.is_clean journal.disk)
        → ⟦<OnDisk<D> as Journal>⟧.text journal ≡ new_text first.now) }
    ensures short { IfOk result (λ _. length (new_text first.now) ≤ 4096) }
    ensures can { IfOk result (λ _. CanBegin first.now) }
    ensures whole { IfOk result (λ journal. ⟦<OnDisk<D> as Journal>⟧.found journal
        ≡ ⟦<OnDisk<D> as Journal>⟧.text journal) }
    ensures durable { IfOk result (λ journal. IsTrue (D.Disk.is_clean journal.disk)
        → Only (new_text first.now) (⟦<OnDisk<D> as Journal>⟧.may_leave journal)) }
    ensures usable { IfOk result (λ journal.
        IsTrue (⟦<OnDisk<D> as Journal>⟧.is_usable journal)) }
    ensures had { IfErr result (λ back. back.0 ≡ NewFault.HasBytes
        → IsTrue (D.Disk.is_clean back.1) → 0 < length (D.Disk.seen disk)) }
    ensures long { IfErr result (λ back. back.0 ≡ NewFault.TooLong
        → 4096 < length (new_text first.now)) }
    ensures spared { IfErr result (λ back. back.0 ≢ NewFault.WriteFailed
        → WasRead D.Disk.seen D.Disk.may_leave D.Disk.is_clean D.Disk.is_usable disk back.1) }
    ensures cause { IfErr result (λ back. back.0 ≡ NewFault.WriteFailed
        → MoreFaults (D.Disk.faults disk) (D.Disk.faults back.1)) }
{
    let mut disk = disk;
    match begin(alloc, first, &mut disk) {
        Ok(len) => match cut_at(disk, len) {
            Ok(journal) => Ok(journal),
            Err(disk) => Err((NewFault::WriteFailed, disk)),
        },
        Err(fault) => Err((fault, disk)),
    }
}

/// Writes the first line to a disk that holds no bytes, and syncs it; with its length.
fn begin<D: Disk>(alloc: Global, first: &Place, disk: &mut D) -> Result<usize, NewFault>
    requires { IsTrue (D.Disk.is_usable disk.old) }
    ensures new { OnOk result (IsTrue (D.Disk.is_clean disk.new) → D.Disk.seen disk.old ≡ []) }
    ensures text { OnOk result (IsTrue (D.Disk.is_clean disk.new)
        → D.Disk.seen disk.new ≡ new_text first.now) }
    ensures len { IfOk result (λ len. len ≡ length (new_text first.now)) }
    ensures short { OnOk result (length (new_text first.now) ≤ 4096) }
    ensures can { OnOk result (CanBegin first.now) }
    ensures durable { OnOk result (Only (D.Disk.seen disk.new) (D.Disk.may_leave disk.new)) }
    ensures usable { OnOk result (IsTrue (D.Disk.is_usable disk.new)) }
    ensures count { OnOk result (D.Disk.faults disk.new ≡ D.Disk.faults disk.old) }
    ensures had { IsErrOf result NewFault.HasBytes → IsTrue (D.Disk.is_clean disk.new)
        → 0 < length (D.Disk.seen disk.old) }
    ensures long { IsErrOf result NewFault.TooLong → 4096 < length (new_text first.now) }
    ensures spared { IfErr result (λ fault. fault ≢ NewFault.WriteFailed
        → WasRead D.Disk.seen D.Disk.may_leave D.Disk.is_clean D.Disk.is_usable
        disk.old disk.new) }
    ensures cause { IsErrOf result NewFault.WriteFailed
        → MoreFaults (D.Disk.faults disk.old) (D.Disk.faults disk.new) }
{
    let Ok(line) = first_line_text(alloc, first) else {
        return Err(NewFault::NoMemory);
    };
    if line.len() > FRONT {
        return Err(NewFault::TooLong);
    }
    let Ok(len) = disk.len() else {
        return Err(NewFault::WriteFailed);
    };
    if len > 0 {
        return Err(NewFault::HasBytes);
    }
    write_first(disk, line.as_bytes())?;
    Ok(line.len())
}

/// The text of a first line, with its line feed.
fn first_line_text(alloc: Global, first: &Place) -> Result<String, AllocError>
    ensures text { IfOk result (λ text. string_bytes text ≡ new_text first.now) }
    ensures can { IfOk result (λ _. CanBePrinted first.now) }
{
    let mut text = print_first(alloc, first)?;
    text.push_str("\n")?;
    Ok(text)
}

/// Writes these bytes to a disk that holds none, and syncs them.
fn write_first<D: Disk>(disk: &mut D, line: &[u8]) -> Result<(), NewFault>
    requires usable { IsTrue (D.Disk.is_usable disk.old) }
    requires some { 0 < length line.now }
    ensures text { OnOk result (D.Disk.seen disk.old ≡ [] → D.Disk.seen disk.new ≡ line.now) }
    ensures durable { OnOk result (Only (D.Disk.seen disk.new) (D.Disk.may_leave disk.new)) }
    ensures usable { OnOk result (IsTrue (D.Disk.is_usable disk.new)) }
    ensures clean { D.Disk.is_clean disk.new ≡ D.Disk.is_clean disk.old }
    ensures count { OnOk result (D.Disk.faults disk.new ≡ D.Disk.faults disk.old) }
    ensures failed { IfErr result (λ fault. fault ≡ NewFault.WriteFailed) }
    ensures cause { OnErr result (MoreFaults (D.Disk.faults disk.old) (D.Disk.faults disk.new)) }
{
    match disk.write_at(0, line) {
        Ok(()) => match disk.sync() {
            Ok(()) => Ok(()),
            Err(_) => Err(NewFault::WriteFailed),
        },
        Err(_) => Err(NewFault::WriteFailed),
    }
}
