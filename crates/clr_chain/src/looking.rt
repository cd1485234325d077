//! What an opening finds in the journal on a disk: of what the disk holds only the first line and
//! the end are read.
ghost use Rattle.std.specs.Prelude.{◌≡◌, ◌≤◌, IfOk, IfSome, IsTrue, Some, bytes_eq, length, true};
ghost use Rattle.clr_chain.specs.Finding.{first_of, found_in, other_rules_of};
ghost use Rattle.clr_chain.specs.OnDisk.{CountsFailed, WasRead};
ghost use Rattle.clr_chain.specs.Reading.{IsFound, rest_of};

use crate::finding::{Found, found_in, found_unread};
use crate::first::{FRONT, first_of, other_rules_of};
use crate::near::found_near;
use crate::part::part_of;
use crate::values::is_same;
use clr_journal::OpenFault;
use clr_rules::Place;
use sqlite_disk::Disk;
use std::alloc::Global;

/// How many bytes are read of the end of a journal at first; where they are not enough, twice as
/// many are.
const PIECE: usize = 65536;

/// What an opening finds in the journal on a disk.
#[derive(Drop)]
pub struct Looked {
    pub found: Found,
    /// How many bytes the disk holds.
    pub len: usize,
}

/// What an opening finds in the journal on a disk, at the place that a register has.
///
/// The first line is read, and the end, from the last line back to one of the register's number or
/// a lower one; all where there is none. Nothing is written. `OpenFailed` where the disk fails.
pub fn look<D: Disk>(alloc: Global, place: &Place, disk: &mut D) -> Result<Looked, OpenFault>
    requires { IsTrue (D.Disk.is_usable disk.old) }
    ensures found { IfOk result (λ looked. IsTrue (D.Disk.is_clean disk.new)
        → IsFound (D.Disk.seen disk.old) looked.found
        (found_in place.now (D.Disk.seen disk.old))) }
    ensures len { IfOk result (λ looked. IsTrue (D.Disk.is_clean disk.new)
        → looked.len ≡ length (D.Disk.seen disk.old)) }
    ensures within { IfOk result (λ looked. rest_of looked.found ≤ looked.len) }
    ensures read { WasRead D.Disk.seen D.Disk.may_leave D.Disk.is_clean D.Disk.is_usable
        disk.old disk.new }
    ensures counts { CountsFailed result (D.Disk.faults disk.old) (D.Disk.faults disk.new) }
{
    let Ok(len) = disk.len() else {
        return Err(OpenFault::OpenFailed);
    };
    let found = found_on(alloc, place, disk, len)?;
    Ok(Looked { found, len })
}

/// What is found on a disk that holds this many bytes.
#[tactic(auto, unfolding(crate::specs::Finding::found_in))]
fn found_on<D: Disk>(
    alloc: Global,
    place: &Place,
    disk: &mut D,
    len: usize,
) -> Result<Found, OpenFault>
    requires { IsTrue (D.Disk.is_usable disk.old) }
    ensures found { IfOk result (λ found. IsTrue (D.Disk.is_clean disk.new)
        → len ≡ length (D.Disk.seen disk.old)
        → IsFound (D.Disk.seen disk.old) found (found_in place.now (D.Disk.seen disk.old))) }
    ensures within { IfOk result (λ found. rest_of found ≤ len) }
    ensures read { WasRead D.Disk.seen D.Disk.may_leave D.Disk.is_clean D.Disk.is_usable
        disk.old disk.new }
    ensures counts { (IsTrue (D.Disk.is_clean disk.old) → len ≡ length (D.Disk.seen disk.old))
        → CountsFailed result (D.Disk.faults disk.old) (D.Disk.faults disk.new) }
{
    let (first, other) = first_on(alloc, disk, len)?;
    let Some(first) = first else {
        return Ok(found_unread(other));
    };
    if is_same(first.id.as_str().as_bytes(), place.id.as_str().as_bytes()) {
        look_back(alloc, place, &first, disk, len)
    } else {
        Ok(Found::OtherRegister)
    }
}

/// The place that a journal on a disk begins with, and the number of the other rules that it names.
fn first_on<D: Disk>(
    alloc: Global,
    disk: &mut D,
    len: usize,
) -> Result<(Option<Place>, Option<u64>), OpenFault>
    requires { IsTrue (D.Disk.is_usable disk.old) }
    ensures first { IfOk result (λ found. IsTrue (D.Disk.is_clean disk.new)
        → len ≡ length (D.Disk.seen disk.old) → found.0 ≡ first_of (D.Disk.seen disk.old)) }
    ensures other { IfOk result (λ found. IsTrue (D.Disk.is_clean disk.new)
        → len ≡ length (D.Disk.seen disk.old)
        → found.1 ≡ other_rules_of (D.Disk.seen disk.old)) }
    ensures read { WasRead D.Disk.seen D.Disk.may_leave D.Disk.is_clean D.Disk.is_usable
        disk.old disk.new }
    ensures counts { (IsTrue (D.Disk.is_clean disk.old) → len ≡ length (D.Disk.seen disk.old))
        → CountsFailed result (D.Disk.faults disk.old) (D.Disk.faults disk.new) }
{
    let front = part_of(alloc, disk, 0, FRONT.min(len))?;
    let first = first_of(alloc, &front)?;
    let other = other_rules_of(alloc, &front)?;
    Ok((first, other))
}

/// What is found from the end of a journal back, as far as it is needed.
fn look_back<D: Disk>(
    alloc: Global,
    place: &Place,
    first: &Place,
    disk: &mut D,
    len: usize,
) -> Result<Found, OpenFault>
    requires { IsTrue (D.Disk.is_usable disk.old) }
    ensures found { IfOk result (λ found. IsTrue (D.Disk.is_clean disk.new)
        → len ≡ length (D.Disk.seen disk.old)
        → first_of (D.Disk.seen disk.old) ≡ Some first.now
        → bytes_eq first.now.id place.now.id ≡ true
        → IsFound (D.Disk.seen disk.old) found (found_in place.now (D.Disk.seen disk.old))) }
    ensures within { IfOk result (λ found. rest_of found ≤ len) }
    ensures read { WasRead D.Disk.seen D.Disk.may_leave D.Disk.is_clean D.Disk.is_usable
        disk.old disk.new }
    ensures counts { (IsTrue (D.Disk.is_clean disk.old) → len ≡ length (D.Disk.seen disk.old))
        → CountsFailed result (D.Disk.faults disk.old) (D.Disk.faults disk.new) }
{
    let mut size = PIECE;
    while size < len {
        if let Some(found) = look_at(alloc, place, first, disk, len, size)? {
            return Ok(found);
        }
        size = size.saturating_mul(2);
    }
    look_at_all(alloc, place, disk, len)
}

/// What is found by the last bytes of what a disk holds, if they have a line of the register's
/// number or a lower one.
fn look_at<D: Disk>(
    alloc: Global,
    place: &Place,
    first: &Place,
    disk: &mut D,
    len: usize,
    size: usize,
) -> Result<Option<Found>, OpenFault>
    requires usable { IsTrue (D.Disk.is_usable disk.old) }
    requires within { size ≤ len }
    ensures found { IfOk result (λ found. IfSome found (λ one. IsTrue (D.Disk.is_clean disk.new)
        → len ≡ length (D.Disk.seen disk.old)
        → first_of (D.Disk.seen disk.old) ≡ Some first.now
        → bytes_eq first.now.id place.now.id ≡ true
        → IsFound (D.Disk.seen disk.old) one (found_in place.now (D.Disk.seen disk.old)))) }
    ensures within { IfOk result (λ found. IfSome found (λ one. rest_of one ≤ len)) }
    ensures read { WasRead D.Disk.seen D.Disk.may_leave D.Disk.is_clean D.Disk.is_usable
        disk.old disk.new }
    ensures counts { (IsTrue (D.Disk.is_clean disk.old) → len ≡ length (D.Disk.seen disk.old))
        → CountsFailed result (D.Disk.faults disk.old) (D.Disk.faults disk.new) }
{
    let tail = part_of(alloc, disk, len - size, size)?;
    let found = found_near(alloc, place, first, &tail)?;
    Ok(found)
}

/// What is found by all that a disk holds.
fn look_at_all<D: Disk>(
    alloc: Global,
    place: &Place,
    disk: &mut D,
    len: usize,
) -> Result<Found, OpenFault>
    requires { IsTrue (D.Disk.is_usable disk.old) }
    ensures found { IfOk result (λ found. IsTrue (D.Disk.is_clean disk.new)
        → len ≡ length (D.Disk.seen disk.old)
        → IsFound (D.Disk.seen disk.old) found (found_in place.now (D.Disk.seen disk.old))) }
    ensures within { IfOk result (λ found. rest_of found ≤ len) }
    ensures read { WasRead D.Disk.seen D.Disk.may_leave D.Disk.is_clean D.Disk.is_usable
        disk.old disk.new }
    ensures counts { (IsTrue (D.Disk.is_clean disk.old) → len ≡ length (D.Disk.seen disk.old))
        → CountsFailed result (D.Disk.faults disk.old) (D.Disk.faults disk.new) }
{
    let whole = part_of(alloc, disk, 0, len)?;
    let found = found_in(alloc, place, &whole)?;
    Ok(found)
}
