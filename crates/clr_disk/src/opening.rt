//! The progress of an opening, shown while it lasts.
ghost use Rattle.std.specs.Prelude.{◌≡◌, ◌+◌, ◌<◌, ◌≤◌, ◌/◌, ◌^◌, IfSome, None};
ghost use Rattle.std.specs.Prelude.{false, true, IsSome};
ghost use Rattle.clr_disk.specs.Line.{no_line, opening_line};
ghost use Rattle.clr_disk.specs.Puts.{Puts};

use crate::line::opening_line;
use clr_stream::{CountedWrite, write_whole};

/// How many milliseconds an opening takes before it is shown.
const QUIET_MILLIS: u64 = 1000;

/// How many milliseconds pass between a line and the next.
const LINE_MILLIS: u64 = 250;

/// The bytes of a MiB.
const MIB: u64 = 1_048_576;

/// An opening: the bytes of its file, those that were read, and from which of its milliseconds on
/// the next line is due. It reads each byte of the file several times.
#[derive(Clone, Copy)]
pub(crate) struct Opening {
    size: u64,
    read: u64,
    due: u64,
    is_told: bool,
}

impl Opening {
    /// An opening that begins, of a file of `size` bytes. Where there is no terminal there is none
    /// to show.
    pub(crate) fn begun(is_terminal: bool, size: u64) -> Option<Opening>
        ensures silent { is_terminal ≡ false → result ≡ None }
        ensures watched { is_terminal ≡ true → IsSome result }
        ensures fresh { IfSome result (λ opening. (opening.size ≡ size) × (opening.read ≡ 0)
            × (opening.due ≡ 1000) × (opening.is_told ≡ false)) }
    {
        if !is_terminal {
            return None;
        }
        Some(Opening {
            size,
            read: 0,
            due: QUIET_MILLIS,
            is_told: false,
        })
    }

    /// The same after `bytes` more were read, in this millisecond of it. If its line is due,
    /// it is written over the one before.
    pub(crate) fn read_on<W: CountedWrite>(
        self,
        bytes: usize,
        millis: u64,
        errors: &mut W,
    ) -> Opening
        ensures size { result.size ≡ self.size }
        ensures read { self.read + bytes < 2 ^ 64 → result.read ≡ self.read + bytes }
        ensures quiet { millis < self.due → (W.stream errors.new ≡ W.stream errors.old)
            × (result.due ≡ self.due) × (result.is_told ≡ self.is_told) }
        ensures told { self.due ≤ millis → Puts (opening_line (result.size / 1048576)
            (result.read / 1048576) (millis / 1000)) (W.stream errors.old) (W.stream errors.new)
            × (result.is_told ≡ true) }
        ensures next { self.due ≤ millis → millis + 250 < 2 ^ 64 → result.due ≡ millis + 250 }
    {
        let read = self.read.saturating_add(bytes as u64);
        if millis < self.due {
            return Opening { read, ..self };
        }
        let line = opening_line(self.size / MIB, read / MIB, millis / 1000);
        put(line.as_str(), errors);
        Opening {
            size: self.size,
            read,
            due: millis.saturating_add(LINE_MILLIS),
            is_told: true,
        }
    }

    /// Takes the line away when the opening has ended, if one was shown.
    pub(crate) fn end<W: CountedWrite>(self, errors: &mut W)
        ensures untold { self.is_told ≡ false → W.stream errors.new ≡ W.stream errors.old }
        ensures told { self.is_told ≡ true
            → Puts no_line (W.stream errors.old) (W.stream errors.new) }
    {
        if self.is_told {
            put("\r\u{1b}[K", errors);
        }
    }
}

/// Writes a text. What cannot be written is lost.
fn put<W: CountedWrite>(text: &str, errors: &mut W)
    ensures { Puts text.now (W.stream errors.old) (W.stream errors.new) }
{
    let _ = write_whole(errors, text.as_bytes());
}
