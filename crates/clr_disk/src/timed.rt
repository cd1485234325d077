//! A stream that ends at a time.
ghost use Rattle.std.specs.Prelude.{◌≡◌, ◌+◌, ◌-◌, ◌≤◌, ◌↔◌, IfOk, IfSome, IsErr, IsOk};
ghost use Rattle.std.specs.Prelude.{IsSomeAnd, OnErr, OnOk, ⊤};
ghost use Rattle.std.specs.Duration.{as_nanos};
ghost use Rattle.std.specs.Time.{FitsClock, instant_nanos};
ghost use Rattle.clr_disk.specs.Timed.{EndsAfter, IsPassedOn};
ghost use Rattle.clr_disk.specs.declared.timed.Call.{Call as AnyCall};
ghost use Rattle.clr_disk.specs.declared.timed.Limit.{Limit as AnyLimit};

use clr_stream::{ReadStep, WriteStep};
use std::io;
use std::io::{Read, Write};
use std::net::TcpStream;
use std::rt::Clock;
use std::time::{Duration, Instant};

/// A call of a stream. A flush waits as a write does.
#[derive(Clone, Copy)]
pub enum Call {
    Read,
    Write,
}

/// A stream of which a read or a write may be let wait up to a limit, and no longer. One that would
/// wait longer fails.
pub trait Waits<K> {
    /// That a call of this stream waits up to this limit, and no longer. Only `let_wait` says so.
    ghost waits: { Self → AnyCall → AnyLimit K → Type 0 };

    /// That this stream could not be let wait: nothing is left of the time, or it failed. Only
    /// `let_wait` says so.
    ghost is_over: { Self → AnyCall → AnyLimit K → Type 0 };

    /// Lets each call of that kind that follows wait for at most what is left of the time now.
    /// Fails where nothing is.
    fn let_wait(&self, call: Call, limit: &Limit<K>) -> io::Result<()>
        ensures waits { OnOk result (waits self.now call limit.now) }
        ensures is_over { OnErr result (is_over self.now call limit.now) };
}

/// Of how long a call of a socket waits no clause can speak.
impl<K: Clock> Waits<K> for TcpStream {
    ghost waits = { λ _ _ _. ⊤ };

    ghost is_over = { λ _ _ _. ⊤ };

    fn let_wait(&self, call: Call, limit: &Limit<K>) -> io::Result<()>
        ensures waits { OnOk result ⊤ }
        ensures is_over { OnErr result ⊤ }
    {
        let left = limit.left(Instant::now(&limit.clock)?)?;
        match call {
            Call::Read => self.set_read_timeout(Some(left)),
            Call::Write => self.set_write_timeout(Some(left)),
        }
    }
}

/// The time at which a stream ends, by a clock that does not go back.
#[derive(Clone, Copy)]
pub struct Limit<K> {
    clock: K,
    end: Instant,
}

impl<K: Drop> Limit<K> {
    /// The end of a time that begins at a moment of a clock. There is none after the last moment
    /// that the clock can show.
    pub fn after(clock: K, now: Instant, time: Duration) -> io::Result<Limit<K>>
        ensures ends { IfOk result (EndsAfter clock now (as_nanos time)) }
        ensures is_ok { IsOk result ↔ FitsClock (instant_nanos now + as_nanos time) }
    {
        match now.checked_add(time) {
            Some(end) => Ok(Limit { clock, end }),
            None => Err(io::Error::from(io::ErrorKind::TimedOut)),
        }
    }
}

impl<K> Limit<K> {
    /// What is left of the time at a moment. Where nothing is, the stream has timed out.
    fn left(&self, now: Instant) -> io::Result<Duration>
        ensures left { IfOk result (λ left.
            as_nanos left ≡ instant_nanos self.now.end - instant_nanos now) }
        ensures over { IsErr result ↔ (instant_nanos self.now.end ≤ instant_nanos now) }
    {
        let left = self.end.saturating_duration_since(now);
        if left.is_zero() {
            return Err(io::Error::from(io::ErrorKind::TimedOut));
        }
        Ok(left)
    }
}

/// A stream that has a limit, or none. With one, a read or a write waits for at most what is left
/// of the time, and fails where nothing is: a peer that sends a byte now and then gains no time by
/// it. Without one each call is the stream's own.
#[derive(Drop)]
pub struct Timed<T, K> {
    pub(crate) stream: T,
    pub(crate) limit: Option<Limit<K>>,
}

impl<T, K> Timed<T, K> {
    /// A stream that ends at a limit, if there is one.
    pub fn new(stream: T, limit: Option<Limit<K>>) -> Timed<T, K>
        ensures stream { result.stream ≡ stream }
        ensures limit { result.limit ≡ limit }
    {
        Timed { stream, limit }
    }
}

impl<T: Waits<K>, K> Timed<T, K> {
    /// Lets the next call wait up to the limit, if there is one.
    fn let_wait(&self, call: Call) -> io::Result<()>
        ensures waits { OnOk result (IfSome self.now.limit (T.waits self.now.stream call)) }
        ensures is_over { OnErr result
            (IsSomeAnd self.now.limit (T.is_over self.now.stream call)) }
    {
        match &self.limit {
            Some(limit) => self.stream.let_wait(call, limit),
            None => Ok(()),
        }
    }
}

impl<T: ReadStep + Waits<K>, K> Read for Timed<T, K> {
    ghost use Rattle.std.specs.Io.{ReadsAtMost};
    ghost use Rattle.std.specs.Io.KnownBytes.{ReadConsumes};

    ghost remaining = { λ timed. T.remaining timed.stream };

    fn read(&mut self, buf: &mut [u8]) -> io::Result<usize>
        ensures bound { ReadsAtMost result buf.new }
        ensures bytes { ReadConsumes (T.remaining self.old.stream) (T.remaining self.new.stream)
            result buf.new }

        // The read of the stream: one, into this buffer, with this answer; or none, at its end.
        ensures step { IsPassedOn T.waits T.is_over Call.Read self.old self.new result
            (T.reads self.old.stream buf.old result buf.new self.new.stream) }
    {
        self.let_wait(Call::Read)?;
        self.stream.read_step(buf)
    }
}

impl<T: WriteStep + Waits<K>, K> Write for Timed<T, K> {
    ghost use Rattle.std.specs.Io.{WritesAtMost};
    ghost use Rattle.std.specs.Io.KnownBytes.{Keeps, WriteAppends};

    ghost contents = { λ timed. T.contents timed.stream };

    fn write(&mut self, buf: &[u8]) -> io::Result<usize>
        ensures bound { WritesAtMost result buf.now }
        ensures bytes { WriteAppends (T.contents self.old.stream) (T.contents self.new.stream)
            result buf.now }

        // The write of the stream: one, of these bytes, with this answer; or none, at its end.
        ensures step { IsPassedOn T.waits T.is_over Call.Write self.old self.new result
            (T.writes self.old.stream buf.now result self.new.stream) }
    {
        self.let_wait(Call::Write)?;
        self.stream.write_step(buf)
    }

    fn flush(&mut self) -> io::Result<()>
        ensures bytes { Keeps (T.contents self.old.stream) (T.contents self.new.stream) }

        // The flush of the stream: one, with this answer; or none, at its end.
        ensures step { IsPassedOn T.waits T.is_over Call.Write self.old self.new result
            (T.flushes self.old.stream result self.new.stream) }
    {
        self.let_wait(Call::Write)?;
        self.stream.flush_step()
    }
}
