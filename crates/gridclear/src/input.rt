//! Standard input, as it is when the program starts.
ghost use Rattle.std.specs.Prelude.{◌≡◌, false, is_ok, true, IsErr};
ghost use Rattle.std.specs.Io.{ReadsAtMost};
ghost use Rattle.std.specs.Io.KnownBytes.{ReadConsumes};

use clr_stream::ReadStep;
use std::io;
use std::io::Read;

/// Standard input. Where it was closed when the program started, a file that the program opens gets
/// its number; it is not read then.
#[derive(Drop)]
pub struct StandardInput<T> {
    stdin: T,
    is_open: bool,
}

impl<T> StandardInput<T> {
    /// Standard input, which is open if a second descriptor of it could be made.
    pub fn new<D>(stdin: T, second: &io::Result<D>) -> StandardInput<T>
        ensures stdin { result.stdin ≡ stdin }
        ensures open { result.is_open ≡ is_ok second.now }
    {
        StandardInput {
            stdin,
            is_open: second.is_ok(),
        }
    }
}

impl<T: ReadStep> Read for StandardInput<T> {
    ghost remaining = { λ input. T.remaining input.stdin };

    fn read(&mut self, buf: &mut [u8]) -> io::Result<usize>
        ensures bound { ReadsAtMost result buf.new }
        ensures bytes { ReadConsumes (T.remaining self.old.stdin) (T.remaining self.new.stdin)
            result buf.new }

        // So one that was closed is never taken for an empty one, and any other is read as it is.
        ensures closed { self.old.is_open ≡ false → IsErr result }
        ensures open { self.old.is_open ≡ true
            → T.reads self.old.stdin buf.old result buf.new self.new.stdin }
    {
        if !self.is_open {
            return Err(io::ErrorKind::NotFound.into());
        }
        self.stdin.read_step(buf)
    }
}
