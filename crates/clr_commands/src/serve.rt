//! The subcommand `serve`: the register of a database, answered over HTTP.
ghost use Rattle.std.specs.Prelude.{◌≡◌, Err, IfErr, OnErr, OnOk, false, true};
ghost use Rattle.std.specs.IoError.{error_kind};
ghost use Rattle.clr_keeping.specs.Keeping.{IsDoneOver, StaysLevelOver};
ghost use Rattle.clr_keeping.specs.TakenUp.{logs};
ghost use Rattle.clr_rules.specs.Good.{IsGood};
ghost use Rattle.clr_http.specs.Served.{may_be_unread};
ghost use Rattle.clr_commands.specs.Connections.{MissesLast, ReportsConnection, Serves};
ghost use Rattle.clr_commands.specs.Connections.{TakesFirst, TakesNext};
ghost use Rattle.clr_commands.specs.Connections.{accept_fault, seen, tries_of};
ghost use Rattle.clr_commands.specs.ConnectionLaws.{ConnectionsHaveRun, EndsEarly, is_early};
ghost use Rattle.clr_commands.specs.Logins.{AreLoginsAt, NamesLogins, terms_of, terms_with};
ghost use Rattle.clr_edge.specs.Paths.{at_paths};
ghost use Rattle.clr_commands.specs.Serve.{ServesAt, ServesDesk, ServesKeeper, ServesKept};
ghost use Rattle.clr_commands.specs.Serve.{ServesOn};

use crate::serve_line::{connection_line, serving_line};
use clr_args::asked::ServeArgs;
use clr_chain::Clock;
use clr_desk::{Commit, CommitAt, Desk};
use clr_edge::database::{Databases, first_fault};
use clr_edge::fault::{Fault, JournalFault};
use clr_edge::files::logins_from;
use clr_edge::journals::Journals;
use clr_edge::logins::known_logins;
use clr_edge::loopback::{Connection, Loopback, listen};
use clr_edge::output::write_out;
use clr_edge::paths::Opens;
use clr_http::{HttpFault, Registrar, Served, Service, may_be_unread, serve_request};
use clr_journal::Journal;
use clr_keeping::taking_up::{Opened, let_go, take_up};
use clr_level::Keeper;
use clr_level::laws::{level_is_kept, restarts_keep_level};
use clr_rules::laws::run_headline::headline_holds_of_runs;
use clr_staff::{Logins, Staff};
use clr_stream::{CountedFlush, CountedRead};
use std::alloc::Global;
use std::io;

/// The terms of a server.
#[derive(Drop)]
pub struct Terms {
    /// The port of 127.0.0.1.
    pub port: u16,
    /// How many connections are served.
    pub count: usize,
    /// After how many seconds a connection is ended that is not over.
    pub deadline: Option<u16>,
    /// What answers the requests.
    pub service: Service,
}

/// Opens the register of a database, listens on a port of 127.0.0.1, says so, serves that number of
/// connections, one after the other, and closes the database.
///
/// A file of logins that is named is read first: where it has a fault, no database is opened. The
/// faults of the database are those of `run`. `UnknownEmployee` where the register has no such
/// employee, `Listen` where the port cannot be bound, `Output` where the line cannot be written. A
/// connection that fails is reported, and ends nothing; but a desk's that cannot be taken, though
/// it is asked for eight times in a row, ends the server with `Accept`. With a journal, one after
/// which it is not known if a change was kept ends it with `Journal(InDoubt)`, once its response is
/// sent: the next opening decides.
pub fn serve<
    'a,
    R: Databases + Journals + Loopback,
    O: Opens<'a>,
    W: CountedFlush,
    E: CountedFlush,
>(
    alloc: Global,
    rt: &mut R,
    paths: &O,
    args: &ServeArgs<'a>,
    output: &mut W,
    errors: &mut E,
) -> Result<(), Fault>
    ensures visit { ServesAt (logs R.Journals R.Log.Journal R.Time.shows) R.Loopback
        (seen R.Reader.remaining R.Reader.failure_count R.Writer.stream)
        (at_paths O.File.remaining O.File.failure_count (O.bytes_at paths.now)) args.now
        (W.stream output.old) (W.stream output.new) (E.stream errors.old) (E.stream errors.new)
        R.Tables.Store R.opens R.shuts R.ends result rt.old rt.new }
{
    let logins = logins_at(alloc, paths, args.logins)?;
    serve_kept(alloc, rt, args, logins, output, errors)
}

/// Serves the register of the database at a path, with a journal or without one.
fn serve_kept<R: Databases + Journals + Loopback, W: CountedFlush, E: CountedFlush>(
    alloc: Global,
    rt: &mut R,
    args: &ServeArgs<'_>,
    logins: Option<Logins>,
    output: &mut W,
    errors: &mut E,
) -> Result<(), Fault>
    ensures visit { ServesKept R.Loopback
        (seen R.Reader.remaining R.Reader.failure_count R.Writer.stream) args.now logins
        (W.stream output.old) (W.stream output.new) (E.stream errors.old) (E.stream errors.new)
        (logs R.Journals R.Log.Journal R.Time.shows) R.Tables.Store R.opens R.shuts R.ends
        args.now.journal args.now.database.now result rt.old rt.new }
{
    let mut opened = take_up(alloc, rt, args.database, args.journal)?;
    let served = serve_opened(alloc, rt, &mut opened, args, logins, output, errors);
    let closed = let_go(rt, opened);
    first_fault(served, closed)
}

/// Serves a register that was taken up, on the terms that its staff allows.
fn serve_opened<K, J, C, L, W, E>(
    alloc: Global,
    net: &mut L,
    opened: &mut Opened<K, J, C>,
    args: &ServeArgs<'_>,
    logins: Option<Logins>,
    output: &mut W,
    errors: &mut E,
) -> Result<(), Fault>
where
    K: CommitAt,
    J: Journal + Drop,
    C: Clock,
    L: Loopback,
    W: CountedFlush,
    E: CountedFlush,
    ensures served { IsDoneOver
        (ServesDesk L.Loopback (seen L.Reader.remaining L.Reader.failure_count L.Writer.stream)
        args.now logins (W.stream output.old) (W.stream output.new)
        (E.stream errors.old) (E.stream errors.new) K.Commit result net.old net.new)
        (ServesDesk L.Loopback (seen L.Reader.remaining L.Reader.failure_count L.Writer.stream)
        args.now logins (W.stream output.old) (W.stream output.new)
        (E.stream errors.old) (E.stream errors.new) ⟦<Keeper<K, J, C> as Commit>⟧
        result net.old net.new)
        opened.old opened.new }
    ensures level { StaysLevelOver K.kept K.has_place J.Journal opened.old opened.new }
{
    level_is_kept::<K, J, C>();
    restarts_keep_level::<K, J, C>();
    match opened {
        Opened::Plain(desk) => serve_asked(alloc, net, desk, args, logins, output, errors),
        Opened::Logged(desk) => serve_asked(alloc, net, desk, args, logins, output, errors),
    }
}

/// The same over a desk.
fn serve_asked<K: Commit, L: Loopback, W: CountedFlush, E: CountedFlush>(
    alloc: Global,
    net: &mut L,
    desk: &mut Desk<K>,
    args: &ServeArgs<'_>,
    logins: Option<Logins>,
    output: &mut W,
    errors: &mut E,
) -> Result<(), Fault>
    ensures { ServesDesk L.Loopback
        (seen L.Reader.remaining L.Reader.failure_count L.Writer.stream) args.now logins
        (W.stream output.old) (W.stream output.new) (E.stream errors.old) (E.stream errors.new)
        K.Commit result net.old net.new desk.old desk.new }
{
    let terms = terms_of(args, desk.book().staff(), logins);
    serve_on(alloc, net, desk, terms, output, errors)
}

/// The logins of the file at a path, if one is named.
fn logins_at<'a, O: Opens<'a>>(
    alloc: Global,
    paths: &O,
    path: Option<&'a str>,
) -> Result<Option<Logins>, Fault>
    ensures { NamesLogins
        (at_paths O.File.remaining O.File.failure_count (O.bytes_at paths.now)) path.entry result }
{
    match path {
        Some(path) => {
            let logins = logins_of(alloc, paths, path)?;
            Ok(Some(logins))
        }
        None => Ok(None),
    }
}

/// The logins of the file at a path.
fn logins_of<'a, O: Opens<'a>>(alloc: Global, paths: &O, path: &'a str) -> Result<Logins, Fault>
    ensures { AreLoginsAt
        (at_paths O.File.remaining O.File.failure_count (O.bytes_at paths.now))
        path.entry.now result }
{
    let mut source = paths.at(path);
    let rows = logins_from(alloc, &mut source)?;
    Ok(Logins::new(rows))
}

/// The terms of a server that is asked for, whose logins speak for employees of this staff.
fn terms_of(args: &ServeArgs<'_>, staff: &Staff, logins: Option<Logins>) -> Result<Terms, Fault>
    ensures { result ≡ terms_of args.now staff.now logins }
{
    match logins {
        Some(logins) => {
            let known = known_logins(staff, logins)?;
            Ok(terms_with(args, Some(known)))
        }
        None => Ok(terms_with(args, None)),
    }
}

/// The terms of a server that is asked for, with these logins.
fn terms_with(args: &ServeArgs<'_>, logins: Option<Logins>) -> Terms
    ensures { result ≡ terms_with args.now logins }
{
    Terms {
        port: args.port,
        count: args.count,
        deadline: args.deadline,
        service: Service {
            desk: args.desk,
            logins,
        },
    }
}

/// Serves a register on terms, if there are any.
fn serve_on<D: Registrar, L: Loopback, W: CountedFlush, E: CountedFlush>(
    alloc: Global,
    net: &mut L,
    desk: &mut D,
    terms: Result<Terms, Fault>,
    output: &mut W,
    errors: &mut E,
) -> Result<(), Fault>
    ensures served { ServesOn D.Registrar L.Loopback
        (seen L.Reader.remaining L.Reader.failure_count L.Writer.stream)
        (W.stream output.old) (W.stream output.new) (E.stream errors.old) (E.stream errors.new)
        terms desk.old desk.new result net.old net.new }
    ensures unserved { IfErr result (λ fault. is_early fault ≡ false → desk.new ≡ desk.old) }
    ensures led { D.leads_to desk.old desk.new }
{
    match terms {
        Ok(terms) => serve_desk(alloc, net, desk, &terms, output, errors),
        Err(fault) => Err(fault),
    }
}

/// Listens on a port of 127.0.0.1, says so, and serves that number of connections, one after the
/// other.
pub fn serve_desk<D: Registrar, L: Loopback, W: CountedFlush, E: CountedFlush>(
    alloc: Global,
    net: &mut L,
    desk: &mut D,
    terms: &Terms,
    output: &mut W,
    errors: &mut E,
) -> Result<(), Fault>
    ensures served { ServesKeeper D.Registrar L.Loopback
        (seen L.Reader.remaining L.Reader.failure_count L.Writer.stream)
        (W.stream output.old) (W.stream output.new) (E.stream errors.old) (E.stream errors.new)
        terms.now desk.old desk.new result net.old net.new }
    ensures unserved { IfErr result (λ fault. is_early fault ≡ false → desk.new ≡ desk.old) }
    ensures led { D.leads_to desk.old desk.new }
{
    let listener = listen(net, terms.port)?;
    let line = serving_line(terms.port);
    write_out(line.as_str(), output)?;
    serve_connections(alloc, net, &listener, desk, terms, errors)
}

/// Serves as many connections as the terms say, one after the other. One that fails is reported,
/// and the next is served. The commands that they carry out from a good register are a run.
/// `Accept` where a desk's next connection could not be taken, `Journal(InDoubt)` after a response
/// where it is not known if a change was kept.
pub fn serve_connections<D: Registrar, L: Loopback, E: CountedFlush>(
    alloc: Global,
    net: &mut L,
    listener: &L::Listener,
    desk: &mut D,
    terms: &Terms,
    errors: &mut E,
) -> Result<(), Fault>
    ensures taken { OnOk result (TakesFirst D.Registrar L.Loopback
        (seen L.Reader.remaining L.Reader.failure_count L.Writer.stream) terms.now listener.now
        terms.now.count desk.old desk.new (E.stream errors.old) (E.stream errors.new)
        net.old net.new) }
    ensures run { OnOk result (IsGood (D.keeper desk.old).register
        → ConnectionsHaveRun D.Registrar L.Loopback
        (seen L.Reader.remaining L.Reader.failure_count L.Writer.stream) terms.now listener.now
        terms.now.count desk.old desk.new (E.stream errors.old) (E.stream errors.new)
        net.old net.new) }
    ensures ended { IfErr result (λ fault. EndsEarly D.Registrar L.Loopback
        (seen L.Reader.remaining L.Reader.failure_count L.Writer.stream) terms.now listener.now
        fault desk.old desk.new (E.stream errors.old) (E.stream errors.new) net.old net.new) }
    ensures fault { IfErr result (λ fault. is_early fault ≡ true) }
    ensures led { D.leads_to desk.old desk.new }
{
    headline_holds_of_runs();
    for done in 0..terms.count {
        serve_next(alloc, net, listener, desk, terms, done + 1, errors)?;
        if desk.is_in_doubt() {
            return Err(Fault::Journal(JournalFault::InDoubt));
        }
    }
    Ok(())
}

/// Serves the next connection, of this number counted from 1. One that cannot be accepted is
/// reported as one whose request could not be read, or as out of memory; a desk's is `Accept`.
fn serve_next<D: Registrar, L: Loopback, E: CountedFlush>(
    alloc: Global,
    net: &mut L,
    listener: &L::Listener,
    desk: &mut D,
    terms: &Terms,
    number: usize,
    errors: &mut E,
) -> Result<(), Fault>
    ensures taken { OnOk result (TakesNext D.Registrar L.Loopback
        (seen L.Reader.remaining L.Reader.failure_count L.Writer.stream) terms.now listener.now
        number desk.old desk.new (E.stream errors.old) (E.stream errors.new) net.old net.new) }
    ensures missed { OnErr result (MissesLast L.misses terms.now.service.desk listener.now
        desk.old desk.new errors.old errors.new net.old net.new) }
    ensures fault { IfErr result (λ fault. fault ≡ Fault.Accept) }
    ensures led { D.leads_to desk.old desk.new }
{
    let is_desk = terms.service.desk;
    match net.accept(listener, terms.deadline, tries_of(is_desk)) {
        Ok(connection) => {
            let service = &terms.service;
            let (connection, more) = answered(alloc, service, desk, connection, number, errors);
            net.hang_up(connection, more);
            Ok(())
        }
        Err(error) => missed(is_desk, number, &error, errors),
    }
}

/// How many times in a row a connection is asked for.
fn tries_of(is_desk: bool) -> u8
    ensures { result ≡ tries_of is_desk }
{
    match is_desk {
        true => 8,
        false => 1,
    }
}

/// What comes of a connection that could not be taken: it is reported; a desk's ends the server.
fn missed<E: CountedFlush>(
    is_desk: bool,
    number: usize,
    error: &io::Error,
    errors: &mut E,
) -> Result<(), Fault>
    ensures reported { OnOk result (ReportsConnection number
        (Err (accept_fault (error_kind error.now))) (E.stream errors.old) (E.stream errors.new)) }
    ensures plain { OnOk result (is_desk ≡ false) }
    ensures ended { OnErr result ((is_desk ≡ true) × (errors.new ≡ errors.old)) }
    ensures fault { IfErr result (λ fault. fault ≡ Fault.Accept) }
{
    if is_desk {
        return Err(Fault::Accept);
    }
    let missed = Err(accept_fault(error));
    report_connection(number, &missed, errors);
    Ok(())
}

/// A connection of this number, once it was answered by a service, and whether more of its request
/// may come. If it fails its line goes to `errors`.
fn answered<D: Registrar, R: CountedRead + Drop, W: CountedFlush + Drop, E: CountedFlush>(
    alloc: Global,
    service: &Service,
    desk: &mut D,
    connection: Connection<R, W>,
    number: usize,
    errors: &mut E,
) -> (Connection<R, W>, bool)
    ensures served { (it : Serves D.Registrar (seen R.remaining R.failure_count W.stream)
        service.now number desk.old desk.new connection result.0
        (E.stream errors.old) (E.stream errors.new)) × (result.1 ≡ may_be_unread it.0) }
    ensures led { D.leads_to desk.old desk.new }
{
    let Connection {
        mut reader,
        mut writer,
    } = connection;
    let served = serve_request(alloc, service, desk, &mut reader, &mut writer);
    report_connection(number, &served, errors);
    (Connection { reader, writer }, may_be_unread(served))
}

/// Why a connection was not accepted.
fn accept_fault(error: &io::Error) -> HttpFault
    ensures { result ≡ accept_fault (error_kind error.now) }
{
    match error.kind() {
        io::ErrorKind::OutOfMemory => HttpFault::NoMemory,
        _ => HttpFault::ReadFailed,
    }
}

/// Reports a connection that failed. What cannot be written is lost.
fn report_connection<E: CountedFlush>(
    number: usize,
    served: &Result<Served, HttpFault>,
    errors: &mut E,
)
    ensures { ReportsConnection number served.now (E.stream errors.old) (E.stream errors.new) }
{
    if let Err(fault) = served {
        let line = connection_line(number, *fault);
        let _ = write_out(line.as_str(), errors);
    }
}
