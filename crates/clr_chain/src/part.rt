//! A part of what a disk holds.
ghost use Rattle.std.specs.Prelude.{◌≡◌, ◌+◌, ◌≤◌, drop, length, take, IfOk, IsTrue};
ghost use Rattle.clr_chain.specs.OnDisk.{CountsFailed, WasRead};

use clr_journal::OpenFault;
use sqlite_disk::Disk;
use std::alloc::Global;

/// Reads this many bytes of what a disk holds, from a place on.
pub(crate) fn part_of<D: Disk>(
    alloc: Global,
    disk: &mut D,
    at: usize,
    size: usize,
) -> Result<Vec<u8>, OpenFault>
    requires { IsTrue (D.Disk.is_usable disk.old) }
    ensures size { IfOk result (λ part. length part.items ≡ size) }
    ensures bytes { IfOk result (λ part. IsTrue (D.Disk.is_clean disk.new)
        → at + size ≤ length (D.Disk.seen disk.old)
        → part.items ≡ take size (drop at (D.Disk.seen disk.old))) }
    ensures read { WasRead D.Disk.seen D.Disk.may_leave D.Disk.is_clean D.Disk.is_usable
        disk.old disk.new }
    ensures counts { (IsTrue (D.Disk.is_clean disk.old)
        → at + size ≤ length (D.Disk.seen disk.old))
        → CountsFailed result (D.Disk.faults disk.old) (D.Disk.faults disk.new) }
{
    let mut part = vec![in alloc; 0; size]?;
    match disk.read_at(at, &mut part) {
        Ok(()) => Ok(part),
        Err(_) => Err(OpenFault::OpenFailed),
    }
}
