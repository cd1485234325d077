//! Where the lines of a journal are kept.
ghost use Rattle.std.specs.Prelude.{◌≡◌, ◌+◌, ◌^◌, ◌<◌, ℕ, Bool, List, length, string_bytes};
ghost use Rattle.std.specs.Prelude.{is_ok, IsErrOf, IsTrue, OnErr, OnOk};
ghost use Rattle.sqlite_disk.specs.Disk.{Follows, MoreFaults, Only};
ghost use Rattle.clr_journal.specs.Journal.{BeginsWith, Grown, with_line};

use crate::fault::WriteFault;

/// Where the lines of a journal are kept.
pub trait Journal {
    /// What was appended: each line, with a line feed after it.
    ghost text: { Self → List ℕ };

    /// The bytes that there are: those of the text, and what a failed append may have left.
    ghost found: { Self → List ℕ };

    /// The bytes that there may be after a crash at this moment.
    ghost may_leave: { Self → List ℕ → Type 0 };

    /// No sync has failed. After one has, what was appended may be lost with no further error.
    ghost is_usable: { Self → Bool };

    /// How many calls of the disk have failed.
    ghost faults: { Self → ℕ };

    /// Whether it may be used: no sync has failed.
    fn may_be_used(&self) -> bool
        ensures { result ≡ is_usable self.now };

    /// Appends a line, and a line feed. Until it is synced a crash may lose it. Where this fails,
    /// the text is as it was; of the line a part may have been written, also the whole, and it is
    /// taken off before the next.
    fn append(&mut self, line: String) -> Result<(), WriteFault>
        requires { IsTrue (is_usable self.old) }
        ensures text { OnOk result (text self.new ≡ with_line (text self.old) (string_bytes line)) }
        ensures failed { OnErr result (text self.new ≡ text self.old) }
        ensures whole { OnOk result (found self.new ≡ text self.new) }
        ensures unwritten { IsErrOf result WriteFault.NoMemory → found self.new ≡ found self.old }
        ensures found { BeginsWith (text self.old) (found self.new) }
        ensures crash { Follows (Grown (length (text self.old)) (length (string_bytes line) + 1))
            (may_leave self.old) (may_leave self.new) }
        ensures cause { length (text self.old) + (length (string_bytes line) + 1) < 2 ^ 64
            → IsErrOf result WriteFault.WriteFailed
            → MoreFaults (faults self.old) (faults self.new) }
        ensures usable { IsTrue (is_usable self.new) };

    /// Makes what was appended durable: a crash leaves the bytes that there are. Where this fails,
    /// nothing is known of what is on the disk.
    fn sync(&mut self) -> Result<(), WriteFault>
        requires { IsTrue (is_usable self.old) }
        ensures durable { OnOk result (Only (found self.old) (may_leave self.new)) }
        ensures text { text self.new ≡ text self.old }
        ensures found { found self.new ≡ found self.old }
        ensures crash { (c : List ℕ) → may_leave self.new c → may_leave self.old c }
        ensures cause { OnErr result (MoreFaults (faults self.old) (faults self.new)) }
        ensures usable { is_usable self.new ≡ is_ok result };
}
