//! The line of an opening. It is made in place, and takes no memory.
ghost use Rattle.std.specs.Prelude.{◌≡◌, ◌+◌, ◌++◌, ◌≤◌, decimal, length};
ghost use Rattle.arrayvec.specs.ArrayString.{array_string_len};
ghost use Rattle.clr_disk.specs.Line.{opening_line};

use arrayvec::ArrayString;
use itoa::Buffer;

/// Room for the longest line, which has three numbers of 20 digits.
const LINE_BYTES: usize = 104;

/// A line, in place.
pub(crate) type Line = ArrayString<LINE_BYTES>;

/// The line of an opening: the MiB of the file, those that were read, and the seconds that it took.
pub(crate) fn opening_line(size: u64, read: u64, seconds: u64) -> Line
    ensures { result.bytes ≡ opening_line size read seconds }
{
    let mut line = Line::new();
    push_number(&mut line, "\ropening ", size);
    push_number(&mut line, " MiB: ", read);
    push_number(&mut line, " MiB read in ", seconds);
    line.push_str(" s");
    line
}

/// Adds words and a number.
fn push_number(line: &mut Line, words: &str, number: u64)
    requires room { array_string_len line.old + length words.now + 20 ≤ 104 }
    ensures text { line.new.bytes ≡ line.old.bytes ++ (words.now ++ decimal number) }
    ensures short { array_string_len line.new
        ≤ array_string_len line.old + length words.now + 20 }
{
    let mut digits = Buffer::new();
    line.push_str(words);
    line.push_str(digits.format(number));
}
