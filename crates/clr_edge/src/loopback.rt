//! What takes connections on the machine itself.
ghost use Rattle.std.specs.Prelude.{◌≡◌, ℕ, Bool, IfErr, IfOk, Option};
ghost use Rattle.std.specs.IoError.{error_kind};
ghost use Rattle.std.specs.declared.io.ErrorKind.{ErrorKind};
ghost use Rattle.std.specs.declared.net.socket_addr.SocketAddr.{SocketAddr as AnySocketAddr};
ghost use Rattle.clr_edge.specs.Loopback.{IsLocal, KeepDeadline, RefusesOn, StandsOn, listen_fault};
ghost use Rattle.clr_stream.specs.Counted.{counted_inner};
ghost use Rattle.clr_edge.specs.declared.loopback.Connection.{Connection as AnyConnection};

use crate::fault::Fault;
use crate::machine::Machine;
use clr_disk::{Event, Limit, System, Timed};
use clr_stream::{Counted, CountedFlush, CountedRead};
use std::net::{IpAddr, Ipv4Addr, SocketAddr, TcpListener, TcpStream};
use std::rt::Clock;
use std::time::Duration;
use std::{io, thread};

/// What takes connections. Each step leads from one state of it to the next, and each connection
/// that came is let go by `hang_up`.
pub trait Loopback {
    /// What listens on a port and takes its connections.
    type Listener: Drop;

    /// What the request of a connection is read from. Nothing can be written to it.
    type Reader: CountedRead + Drop;

    /// What the response is written to.
    type Writer: CountedFlush + Drop;

    /// That an address could not be bound, for this reason. Only `bind` says so.
    ghost refuses: { Self → AnySocketAddr → ErrorKind → Self → Type 0 };

    /// That a listener was bound to an address. Only `bind` says so.
    ghost stands: { Self → AnySocketAddr → Self.Listener → Self → Type 0 };

    /// That a connection came to a listener, and has this number of seconds, if one is given. Only
    /// `accept` says so.
    ghost comes: { Self → Self.Listener → Option ℕ → AnyConnection Self.Reader Self.Writer
        → Self → Type 0 };

    /// That a connection could not be taken by this number of tries in a row, for this reason. Only
    /// `accept` says so.
    ghost misses: { Self → Self.Listener → ℕ → ErrorKind → Self → Type 0 };

    /// That a connection was let go as it was then, and whether more of its request was expected.
    /// Only `hang_up` says so.
    ghost hangs_up: { Self → AnyConnection Self.Reader Self.Writer → Bool → Self → Type 0 };

    /// Listens on an address.
    fn bind(&mut self, address: SocketAddr) -> io::Result<Self::Listener>
        ensures stands { IfOk result (λ listener. stands self.old address listener self.new) }
        ensures refuses { IfErr result (λ error.
            refuses self.old address (error_kind error) self.new) };

    /// Waits for the next connection to a listener. Where a deadline is given, each read of it
    /// fails once a quarter of that number of seconds has passed since it came, and each write once
    /// all have. So a client that sends nothing holds up the next ones for a quarter alone.
    ///
    /// One that could not be taken is asked for again, up to this number of tries in a row. One
    /// that has a single handle is kept, and the other is asked for by the tries that are left.
    fn accept(
        &mut self,
        listener: &Self::Listener,
        deadline: Option<u16>,
        tries: u8,
    ) -> io::Result<Connection<Self::Reader, Self::Writer>>
        ensures comes { IfOk result (λ connection.
            comes self.old listener.now deadline connection self.new) }
        ensures misses { IfErr result (λ error.
            misses self.old listener.now tries (error_kind error) self.new) };

    /// Lets a connection go, which closes it. What still comes of its request is read first, up to
    /// a bound, and is waited for where more is expected and the connection has a deadline.
    fn hang_up(&mut self, connection: Connection<Self::Reader, Self::Writer>, is_expected: bool)
        ensures { hangs_up self.old connection is_expected self.new };
}

/// A connection, which is closed once both handles are let go.
#[derive(Drop)]
pub struct Connection<R, W> {
    /// What the request is read from.
    pub reader: R,
    /// What the response is written to.
    pub writer: W,
}

/// One of the two handles of a connection to the machine.
type Handle<K> = Counted<Timed<TcpStream, K>>;

/// The limits of the two handles of a connection, if it has them.
#[derive(Clone, Copy)]
struct Limits<K> {
    reader: Option<Limit<K>>,
    writer: Option<Limit<K>>,
}

/// The limits of a connection that comes now. Its request has a quarter of the deadline, if there
/// is one, and all is over at the deadline.
fn limits_now<Y: System>(system: &Y, deadline: Option<u16>) -> io::Result<Limits<Y::Clock>>
    ensures { IfOk result (λ limits.
        KeepDeadline (Y.has_clock system.now) (Y.is_now system.now) deadline
        limits.reader limits.writer) }
{
    let Some(seconds) = deadline else {
        return Ok(Limits {
            reader: None,
            writer: None,
        });
    };
    let clock = system.clock();
    let now = system.now()?;
    let quarter = Duration::from_millis(u64::from(seconds) * 250);
    let whole = Duration::from_secs(u64::from(seconds));
    Ok(Limits {
        reader: Some(Limit::after(clock, now, quarter)?),
        writer: Some(Limit::after(clock, now, whole)?),
    })
}

/// How long it takes until a connection, or the second handle of one, is asked for again.
const PAUSE_MILLIS: u64 = 125;

/// A connection that came, of which one handle is there.
#[derive(Drop)]
struct Half<K> {
    reader: TcpStream,
    limits: Limits<K>,
}

/// The next connection to a listener, with the limits that it has from now on.
fn next_half<Y: System>(
    system: &Y,
    listener: &TcpListener,
    deadline: Option<u16>,
) -> io::Result<Half<Y::Clock>>
    ensures { IfOk result (λ half.
        KeepDeadline (Y.has_clock system.now) (Y.is_now system.now) deadline
        half.limits.reader half.limits.writer) }
{
    let (reader, _) = listener.accept()?;
    let limits = limits_now(system, deadline)?;
    Ok(Half { reader, limits })
}

/// A connection that came, with both of its handles. It is kept while the second is asked for
/// again, up to this number of times.
fn with_both<Y: System>(
    system: &Y,
    half: Half<Y::Clock>,
    more: u8,
) -> io::Result<Connection<Handle<Y::Clock>, Handle<Y::Clock>>>
    ensures reader { IfOk result (λ connection.
        (counted_inner connection.reader).limit ≡ half.limits.reader) }
    ensures writer { IfOk result (λ connection.
        (counted_inner connection.writer).limit ≡ half.limits.writer) }
{
    for _ in 0..more {
        if let Ok(writer) = half.reader.try_clone() {
            return Ok(connection_of(half, writer));
        }
        thread::sleep(&system.clock(), Duration::from_millis(PAUSE_MILLIS));
    }
    let writer = half.reader.try_clone()?;
    Ok(connection_of(half, writer))
}

/// A connection by its two handles.
fn connection_of<K: Clock>(half: Half<K>, writer: TcpStream) -> Connection<Handle<K>, Handle<K>>
    ensures read { (counted_inner result.reader).stream ≡ half.reader }
    ensures reader { (counted_inner result.reader).limit ≡ half.limits.reader }
    ensures written { (counted_inner result.writer).stream ≡ writer }
    ensures writer { (counted_inner result.writer).limit ≡ half.limits.writer }
{
    let Half { reader, limits } = half;
    Connection {
        reader: Counted::new(Timed::new(reader, limits.reader)),
        writer: Counted::new(Timed::new(writer, limits.writer)),
    }
}

impl<Y: System> Loopback for Machine<Y> {
    type Listener = TcpListener;

    type Reader = Handle<Y::Clock>;

    type Writer = Handle<Y::Clock>;

    ghost refuses = { λ old address kind new.
        Y.refuses old.system address kind new.system };

    ghost stands = { λ old address listener new.
        Y.listens old.system address listener new.system };

    ghost comes = { λ old _ deadline connection new. (new ≡ old)
        × KeepDeadline (Y.has_clock old.system) (Y.is_now old.system) deadline
        (counted_inner connection.reader).limit (counted_inner connection.writer).limit };

    ghost misses = { λ old _ _ _ new. new ≡ old };

    ghost hangs_up = { λ old _ _ new. new ≡ old };

    fn bind(&mut self, address: SocketAddr) -> io::Result<TcpListener>
        ensures stands { IfOk result (λ listener.
            Y.listens self.old.system address listener self.new.system) }
        ensures refuses { IfErr result (λ error.
            Y.refuses self.old.system address (error_kind error) self.new.system) }
    {
        self.system.show(Event::Ends);
        self.system.listener(address)
    }

    fn accept(
        &mut self,
        listener: &TcpListener,
        deadline: Option<u16>,
        tries: u8,
    ) -> io::Result<Connection<Handle<Y::Clock>, Handle<Y::Clock>>>
        ensures comes { IfOk result (λ connection. (self.new ≡ self.old)
            × KeepDeadline (Y.has_clock self.old.system) (Y.is_now self.old.system) deadline
            (counted_inner connection.reader).limit (counted_inner connection.writer).limit) }
        ensures misses { IfErr result (λ _. self.new ≡ self.old) }
    {
        for tried in 1..tries {
            if let Ok(half) = next_half(&self.system, listener, deadline) {
                return with_both(&self.system, half, tries - tried);
            }
            thread::sleep(&self.system.clock(), Duration::from_millis(PAUSE_MILLIS));
        }
        let half = next_half(&self.system, listener, deadline)?;
        with_both(&self.system, half, 0)
    }

    fn hang_up(
        &mut self,
        connection: Connection<Handle<Y::Clock>, Handle<Y::Clock>>,
        is_expected: bool,
    )
        ensures { self.new ≡ self.old }
    {
        let Connection { reader, writer } = connection;
        drop(writer);
        reader.into_inner().end(is_expected);
    }
}

/// Listens on a port of 127.0.0.1, and on no other address. `Listen` where another does, or where
/// the system allows none; `Memory` where memory ran out.
pub fn listen<L: Loopback>(net: &mut L, port: u16) -> Result<L::Listener, Fault>
    ensures stands { IfOk result (λ listener. StandsOn L.stands net.old port listener net.new) }
    ensures fault { IfErr result (λ fault. RefusesOn L.refuses net.old port fault net.new) }
{
    match net.bind(local_address(port)) {
        Ok(listener) => Ok(listener),
        Err(error) => Err(listen_fault(&error)),
    }
}

/// The fault of a port that could not be bound.
fn listen_fault(error: &io::Error) -> Fault
    ensures { result ≡ listen_fault (error_kind error.now) }
{
    match error.kind() {
        io::ErrorKind::OutOfMemory => Fault::Memory,
        _ => Fault::Listen,
    }
}

/// A port of 127.0.0.1.
pub fn local_address(port: u16) -> SocketAddr
    ensures { IsLocal result port }
{
    SocketAddr::new(IpAddr::V4(Ipv4Addr::new(127, 0, 0, 1)), port)
}
