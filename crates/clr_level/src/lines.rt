//! Lines are written.
ghost use Rattle.std.specs.Prelude.{◌≡◌, IfErr, IsTrue, OnErr, OnOk, string_bytes};
ghost use Rattle.clr_journal.specs.Journal.{with_line};
ghost use Rattle.sqlite_disk.specs.Disk.{Only};
ghost use Rattle.clr_level.specs.Journaling.{HasText, IsKept, IsOfJournal, StaySafe};

use clr_desk::DeskFault;
use clr_journal::{Journal, WriteFault};

/// Appends a line to a journal.
pub(crate) fn append<J: Journal>(journal: &mut J, line: String) -> Result<(), DeskFault>
    ensures text { OnOk result
        (J.text journal.new ≡ with_line (J.text journal.old) (string_bytes line)) }
    ensures whole { OnOk result (J.found journal.new ≡ J.text journal.new) }
    ensures usable { OnOk result (IsTrue (J.is_usable journal.new)) }
    ensures failed { OnErr result (J.text journal.new ≡ J.text journal.old) }
    ensures begins { HasText J.text J.found journal.old → HasText J.text J.found journal.new }
    ensures before { HasText J.text J.found journal.old
        → Only (J.found journal.old) (J.may_leave journal.old)
        → IsKept J.may_leave (J.text journal.old) journal.new }
    ensures safe { StaySafe J.text J.may_leave journal.old journal.new }
    ensures fault { IfErr result IsOfJournal }
{
    if !journal.may_be_used() {
        return Err(DeskFault::Journal);
    }
    match journal.append(line) {
        Ok(()) => Ok(()),
        Err(WriteFault::WriteFailed) => Err(DeskFault::Journal),
        Err(WriteFault::NoMemory) => Err(DeskFault::NoMemory),
    }
}
