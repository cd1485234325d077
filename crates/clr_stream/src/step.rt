//! Calls of readers and writers, named, so that a clause can say which one was made.
ghost use Rattle.std.specs.Prelude.{ℕ, List, Result, ⊤};
ghost use Rattle.std.specs.Io.{ReadsAtMost, WritesAtMost};
ghost use Rattle.std.specs.Io.KnownBytes.{Keeps, ReadConsumes, WriteAppends};
ghost use Rattle.std.specs.declared.io.Error.{Error as IoError};

use std::io;
use std::io::{Read, Write};

/// A reader whose reads are steps from one state of it to the next, so that what is put round it
/// can say that it passes each read on. Every reader is one; what its steps are is its own matter.
pub trait ReadStep: Read {
    /// That one read into a buffer led to this answer, this buffer and this reader. Only
    /// `read_step` says so.
    ghost reads: { Self → List ℕ → Result ℕ IoError → List ℕ → Self → Type 0 };

    /// What `read` does.
    fn read_step(&mut self, buf: &mut [u8]) -> io::Result<usize>
        ensures bound { ReadsAtMost result buf.new }
        ensures bytes { ReadConsumes (Self.remaining self.old) (Self.remaining self.new)
            result buf.new }
        ensures step { reads self.old buf.old result buf.new self.new };
}

impl<T: Read> ReadStep for T {
    ghost reads = { λ _ _ _ _ _. ⊤ };

    fn read_step(&mut self, buf: &mut [u8]) -> io::Result<usize>
        ensures bound { ReadsAtMost result buf.new }
        ensures bytes { ReadConsumes (T.remaining self.old) (T.remaining self.new)
            result buf.new }
        ensures step { ⊤ }
    {
        self.read(buf)
    }
}

/// A writer whose writes and flushes are steps from one state of it to the next, so that what is
/// put round it can say that it passes each one on. Every writer is one; what its steps are is its
/// own matter.
pub trait WriteStep: Write {
    /// That one write of bytes led to this answer and this writer. Only `write_step` says so.
    ghost writes: { Self → List ℕ → Result ℕ IoError → Self → Type 0 };

    /// That one flush led to this answer and this writer. Only `flush_step` says so.
    ghost flushes: { Self → Result (Unit {0}) IoError → Self → Type 0 };

    /// What `write` does.
    fn write_step(&mut self, buf: &[u8]) -> io::Result<usize>
        ensures bound { WritesAtMost result buf.now }
        ensures bytes { WriteAppends (Self.contents self.old) (Self.contents self.new)
            result buf.now }
        ensures step { writes self.old buf.now result self.new };

    /// What `flush` does.
    fn flush_step(&mut self) -> io::Result<()>
        ensures bytes { Keeps (Self.contents self.old) (Self.contents self.new) }
        ensures step { flushes self.old result self.new };
}

impl<T: Write> WriteStep for T {
    ghost writes = { λ _ _ _ _. ⊤ };

    ghost flushes = { λ _ _ _. ⊤ };

    fn write_step(&mut self, buf: &[u8]) -> io::Result<usize>
        ensures bound { WritesAtMost result buf.now }
        ensures bytes { WriteAppends (T.contents self.old) (T.contents self.new)
            result buf.now }
        ensures step { ⊤ }
    {
        self.write(buf)
    }

    fn flush_step(&mut self) -> io::Result<()>
        ensures bytes { Keeps (T.contents self.old) (T.contents self.new) }
        ensures step { ⊤ }
    {
        self.flush()
    }
}
