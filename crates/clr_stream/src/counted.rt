//! Readers and writers that count their failures.
ghost use Rattle.std.specs.Prelude.{◌≡◌, ℕ, refl};
ghost use Rattle.std.specs.Io.{ReadsAtMost, WritesAtMost};
ghost use Rattle.std.specs.Io.KnownBytes.{Keeps, ReadConsumes, WriteAppends};
ghost use Rattle.clr_stream.specs.Failures.{count_after};
ghost use Rattle.clr_stream.specs.Streams.{IsFlush, IsWrite, Stream};

use crate::step::{ReadStep, WriteStep};
use std::io;
use std::io::{Read, Write};

/// A reader that counts its failures, so that a caller knows a failure of the device from any
/// other error.
pub trait CountedRead: Read {
    /// How many reads have failed. The count stays at 2^64 - 1.
    ghost failure_count: { Self → ℕ };

    /// How many reads have failed, by either way to read; it stays at 2^64 - 1.
    fn failures(&self) -> u64
        ensures { result ≡ failure_count self.now };

    /// What `read` does. A failure adds one to `failures`.
    fn read_counted(&mut self, buf: &mut [u8]) -> io::Result<usize>
        ensures bound { ReadsAtMost result buf.new }
        ensures bytes { ReadConsumes (Self.remaining self.old) (Self.remaining self.new)
            result buf.new }
        ensures count { failure_count self.new ≡ count_after result (failure_count self.old) };
}

/// A writer that counts its failures, so that a caller knows a failure of the device from any
/// other error.
pub trait CountedWrite: Write {
    /// What is known of the writer, with how many of its calls have failed and how many of its
    /// writes took no byte. Both counts stay at 2^64 - 1.
    ghost stream: { Self → Stream };

    /// How many writes and flushes have failed, by either way to write; it stays at 2^64 - 1.
    fn failures(&self) -> u64
        ensures { result ≡ Stream.failures (stream self.now) };

    /// What `write` does. A failure adds one to `failures`.
    fn write_counted(&mut self, buf: &[u8]) -> io::Result<usize>
        ensures bound { WritesAtMost result buf.now }
        ensures write { IsWrite result buf.now (stream self.old) (stream self.new) };

    /// The bytes of the stream are those of the writer.
    ghost holds: { (writer : Self) → Stream.contents (stream writer) ≡ Self.contents writer };
}

/// A counted writer that is flushed.
pub trait CountedFlush: CountedWrite {
    /// What `flush` does. A failure adds one to `failures`.
    fn flush_counted(&mut self) -> io::Result<()>
        ensures { IsFlush result (Self.stream self.old) (Self.stream self.new) };
}

/// A reader or a writer with a count of its failures beside it.
#[derive(Drop)]
pub struct Counted<T> {
    inner: T,
    failures: u64,
    stalls: u64,
    flushed: bool,
}

impl<T> Counted<T> {
    ghost use Rattle.clr_stream.specs.Counted.{counted_inner, counted_failures, counted_stalls};

    /// Begins to count, at 0.
    pub fn new(inner: T) -> Counted<T>
        ensures inner { counted_inner result ≡ inner }
        ensures failures { counted_failures result ≡ 0 }
        ensures stalls { counted_stalls result ≡ 0 }
    {
        Counted {
            inner,
            failures: 0,
            stalls: 0,
            flushed: false,
        }
    }

    /// What was counted round.
    pub fn into_inner(self) -> T
        ensures { result ≡ counted_inner self }
    {
        let Counted { inner, .. } = self;
        inner
    }

    /// Adds a failure to the count, if this was one.
    fn count<V>(&mut self, answer: &io::Result<V>)
        ensures { self.new
            ≡ record self.old { failures = count_after answer.now (counted_failures self.old) } }
    {
        if answer.is_err() {
            self.failures = self.failures.saturating_add(1);
        }
    }
}

impl<T: ReadStep> Read for Counted<T> {
    ghost use Rattle.clr_stream.specs.Counted.{counted_inner, counted_failures};

    ghost remaining = { λ s. T.remaining (counted_inner s) };

    fn read(&mut self, buf: &mut [u8]) -> io::Result<usize>
        ensures bound { ReadsAtMost result buf.new }
        ensures bytes { ReadConsumes (T.remaining (counted_inner self.old))
            (T.remaining (counted_inner self.new)) result buf.new }
        ensures count { counted_failures self.new ≡ count_after result (counted_failures self.old) }

        // The read of what was counted round: one, into this buffer, with this answer.
        ensures step { T.reads (counted_inner self.old) buf.old result buf.new
            (counted_inner self.new) }
    {
        let answer = self.inner.read_step(buf);
        self.count(&answer);
        answer
    }
}

impl<T: ReadStep> CountedRead for Counted<T> {
    ghost use Rattle.clr_stream.specs.Counted.{counted_inner, counted_failures};

    ghost failure_count = { λ s. counted_failures s };

    fn failures(&self) -> u64 {
        self.failures
    }

    fn read_counted(&mut self, buf: &mut [u8]) -> io::Result<usize>
        ensures bound { ReadsAtMost result buf.new }
        ensures bytes { ReadConsumes (T.remaining (counted_inner self.old))
            (T.remaining (counted_inner self.new)) result buf.new }
        ensures count { counted_failures self.new ≡ count_after result (counted_failures self.old) }
        ensures step { T.reads (counted_inner self.old) buf.old result buf.new
            (counted_inner self.new) }
    {
        self.read(buf)
    }
}

impl<T: WriteStep> Write for Counted<T> {
    ghost use Rattle.clr_stream.specs.Counted.{counted_inner, counted_stream};

    ghost contents = { λ s. T.contents (counted_inner s) };

    fn write(&mut self, buf: &[u8]) -> io::Result<usize>
        ensures bound { WritesAtMost result buf.now }
        ensures bytes { WriteAppends (T.contents (counted_inner self.old))
            (T.contents (counted_inner self.new)) result buf.now }
        ensures write { IsWrite result buf.now (counted_stream T.contents self.old)
            (counted_stream T.contents self.new) }

        // The write of what was counted round: one, of these bytes, with this answer.
        ensures step { T.writes (counted_inner self.old) buf.now result (counted_inner self.new) }
    {
        let answer = self.inner.write_step(buf);
        self.count(&answer);
        if !buf.is_empty() && matches!(answer, Ok(0)) {
            self.stalls = self.stalls.saturating_add(1);
        }
        self.flushed = false;
        answer
    }

    fn flush(&mut self) -> io::Result<()>
        ensures bytes { Keeps (T.contents (counted_inner self.old))
            (T.contents (counted_inner self.new)) }
        ensures flush { IsFlush result (counted_stream T.contents self.old)
            (counted_stream T.contents self.new) }

        // The flush of what was counted round: one, with this answer.
        ensures step { T.flushes (counted_inner self.old) result (counted_inner self.new) }
    {
        let answer = self.inner.flush_step();
        self.count(&answer);
        self.flushed = answer.is_ok();
        answer
    }
}

impl<T: WriteStep> CountedWrite for Counted<T> {
    ghost use Rattle.clr_stream.specs.Counted.{counted_inner, counted_stream};

    ghost stream = { λ s. counted_stream T.contents s };

    ghost holds = { λ _. refl };

    fn failures(&self) -> u64 {
        self.failures
    }

    fn write_counted(&mut self, buf: &[u8]) -> io::Result<usize>
        ensures bound { WritesAtMost result buf.now }
        ensures write { IsWrite result buf.now (counted_stream T.contents self.old)
            (counted_stream T.contents self.new) }
        ensures step { T.writes (counted_inner self.old) buf.now result (counted_inner self.new) }
    {
        self.write(buf)
    }
}

impl<T: WriteStep> CountedFlush for Counted<T> {
    ghost use Rattle.clr_stream.specs.Counted.{counted_inner, counted_stream};

    fn flush_counted(&mut self) -> io::Result<()>
        ensures flush { IsFlush result (counted_stream T.contents self.old)
            (counted_stream T.contents self.new) }
        ensures step { T.flushes (counted_inner self.old) result (counted_inner self.new) }
    {
        self.flush()
    }
}
