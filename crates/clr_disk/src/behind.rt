//! What is read or written after an opening.
ghost use Rattle.std.specs.Prelude.{◌≡◌};

use crate::watch::{Event, Watch};
use clr_stream::{CountedFlush, CountedRead, CountedWrite};
use std::io;
use std::io::{Read, Write};
use std::rt::Clock;

/// A reader or a writer that is used after an opening: its first use ends what is shown of it. Each
/// call is handed on, a flush too.
#[derive(Drop)]
pub struct Behind<'a, T, K> {
    inner: T,
    watch: &'a Watch<K>,
}

impl<'a, T, K> Behind<'a, T, K> {
    /// A reader or a writer, and the watch that it ends.
    pub fn new(inner: T, watch: &'a Watch<K>) -> Behind<'a, T, K>
        ensures { result.inner ≡ inner }
    {
        Behind { inner, watch }
    }
}

impl<'a, T: CountedRead, K: Clock> Read for Behind<'a, T, K> {
    ghost remaining = { λ behind. T.remaining behind.inner };

    fn read(&mut self, buf: &mut [u8]) -> io::Result<usize> {
        self.watch.see(Event::Ends);
        self.inner.read(buf)
    }
}

impl<'a, T: CountedRead, K: Clock> CountedRead for Behind<'a, T, K> {
    ghost failure_count = { λ behind. T.failure_count behind.inner };

    fn failures(&self) -> u64 {
        self.inner.failures()
    }

    fn read_counted(&mut self, buf: &mut [u8]) -> io::Result<usize> {
        self.watch.see(Event::Ends);
        self.inner.read_counted(buf)
    }
}

impl<'a, T: CountedFlush, K: Clock> Write for Behind<'a, T, K> {
    ghost contents = { λ behind. T.contents behind.inner };

    fn write(&mut self, buf: &[u8]) -> io::Result<usize> {
        self.watch.see(Event::Ends);
        self.inner.write(buf)
    }

    fn flush(&mut self) -> io::Result<()> {
        self.inner.flush()
    }
}

impl<'a, T: CountedFlush, K: Clock> CountedWrite for Behind<'a, T, K> {
    ghost stream = { λ behind. T.stream behind.inner };

    ghost holds = { λ behind. T.CountedWrite.holds behind.inner };

    fn failures(&self) -> u64 {
        self.inner.failures()
    }

    fn write_counted(&mut self, buf: &[u8]) -> io::Result<usize> {
        self.watch.see(Event::Ends);
        self.inner.write_counted(buf)
    }
}

impl<'a, T: CountedFlush, K: Clock> CountedFlush for Behind<'a, T, K> {
    fn flush_counted(&mut self) -> io::Result<()> {
        self.inner.flush_counted()
    }
}
