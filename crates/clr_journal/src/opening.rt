//! A journal is opened: what comes after its text is cut off.
ghost use Rattle.std.specs.Prelude.{◌≡◌, ◌≤◌, length, take};
ghost use Rattle.std.specs.Prelude.{IfErr, IfOk, IsTrue};
ghost use Rattle.sqlite_disk.specs.Disk.{Cut, Follows, MoreFaults};

use crate::journal::Journal;
use crate::on_disk::OnDisk;
use sqlite_disk::Disk;

/// The journal of a disk up to this place. What comes after it is cut off. Where the disk fails it
/// is given back, and no more than that was cut off it.
pub fn cut_at<D: Disk + Drop>(disk: D, end: usize) -> Result<OnDisk<D>, D>
    requires { IsTrue (D.Disk.is_usable disk) }
    ensures text { IfOk result (λ journal. end ≤ length (D.Disk.seen disk)
        → ⟦<OnDisk<D> as Journal>⟧.text journal ≡ take end (D.Disk.seen disk)) }
    ensures len { IfOk result (λ journal.
        length (⟦<OnDisk<D> as Journal>⟧.text journal) ≡ end) }
    ensures crash { IfOk result (λ journal. Follows (Cut end) (D.Disk.may_leave disk)
        (⟦<OnDisk<D> as Journal>⟧.may_leave journal)) }
    ensures whole { IfOk result (λ journal. ⟦<OnDisk<D> as Journal>⟧.found journal
        ≡ ⟦<OnDisk<D> as Journal>⟧.text journal) }
    ensures clean { IfOk result (λ journal.
        D.Disk.is_clean journal.disk ≡ D.Disk.is_clean disk) }
    ensures usable { IfOk result (λ journal.
        IsTrue (⟦<OnDisk<D> as Journal>⟧.is_usable journal)) }
    ensures seen { IfErr result (λ back. Cut end (D.Disk.seen disk) (D.Disk.seen back)) }
    ensures kept { IfErr result (λ back.
        Follows (Cut end) (D.Disk.may_leave disk) (D.Disk.may_leave back)) }
    ensures calm { IfErr result (λ back. D.Disk.is_clean back ≡ D.Disk.is_clean disk) }
    ensures cause { IfErr result (λ back.
        MoreFaults (D.Disk.faults disk) (D.Disk.faults back)) }
    ensures back { IfErr result (λ back. IsTrue (D.Disk.is_usable back)) }
{
    let mut disk = disk;
    match disk.set_len(end) {
        Ok(()) => Ok(OnDisk::new(disk, end)),
        Err(_) => Err(disk),
    }
}
