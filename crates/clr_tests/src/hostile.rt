//! One connection whose client is hostile or whose device fails: requests that are cut short, the
//! longest heads, readers and writers that fail at each call in turn, and a keeper that answers no
//! command.
ghost use Rattle.std.specs.Prelude.{false};

use crate::at_desk::{AtDesk, at_new_desk};
use crate::fakes::{FailsAt, Narrow};
use crate::worked::{REQUEST, RESPONSE};
use clr_desk::Desk;
use clr_http::{HttpFault, Registrar, Served, serve_one};
use clr_load::Rows;
use clr_rules::{ClearanceId, Command, Reply, Text};
use clr_store::Store;
use clr_stream::{Counted, CountedRead, CountedWrite};
use clr_wayback::WayBack;
use clr_worked::{are_same, network};
use sqlite::Alter;
use std::alloc::{AllocError, Global};
use std::io;
use std::process::Abort;
use std::test::Fail;

/// How many bytes the head of the request has.
const HEAD_BYTES: usize = 137;

/// The longest head, and the most fields of one.
const MAX_HEAD_BYTES: usize = 8192;

const MAX_FIELDS: usize = 64;

const EMPTY_BOARD: &str = "BOARD 0\n";

/// A response that reports a fault: its status, its length and its word.
macro_rules! fault_response {
    ($status:literal, $length:literal, $fault:literal) => {
        concat!(
            "HTTP/1.1 ",
            $status,
            "\r\nContent-Type: application/json\r\nContent-Length: ",
            $length,
            "\r\nConnection: close\r\n\r\n{\"fault\":\"",
            $fault,
            "\"}"
        )
    };
}

const HEAD_CUT: &str = fault_response!("400 Bad Request", 19, "HeadCut");

const BODY_CUT: &str = fault_response!("400 Bad Request", 19, "BodyCut");

const HEAD_TOO_LARGE: &str = fault_response!("400 Bad Request", 24, "HeadTooLarge");

pub const UNAVAILABLE: &str = fault_response!("503 Service Unavailable", 23, "Unavailable");

const BOARD: &str = "HTTP/1.1 200 OK\r\nContent-Type: text/plain\r\nContent-Length: 8\r\n\
    Connection: close\r\n\r\nBOARD 0\n";

/// A writer with room for n bytes.
fn writer(
    alloc: Global,
    bytes_per_call: usize,
    room: usize,
    failure: Option<io::ErrorKind>,
) -> Result<Counted<Narrow>, AllocError> {
    Ok(Counted::new(Narrow {
        taken: Vec::with_capacity(alloc, RESPONSE.len())?,
        bytes_per_call,
        room,
        failure,
    }))
}

/// What a connection to a desk came to. Out of memory ends the test.
fn serve<D: Registrar, R: CountedRead, W: CountedWrite>(
    alloc: Global,
    desk: &mut D,
    reader: &mut R,
    writer: &mut W,
) -> Result<Result<Served, HttpFault>, Fail> {
    let faults = desk.faults();
    let served = serve_one(alloc, desk, reader, writer);
    if served == Err(HttpFault::NoMemory) || desk.faults() != faults {
        expect_again(alloc, desk)?;
        return Err(Fail::new("out of memory"));
    }
    Ok(served)
}

/// A desk that was out of memory answers the request when it comes again: a 503, and a fault with
/// no response, have left it whole.
fn expect_again<D: Registrar>(alloc: Global, desk: &mut D) -> Result<(), Fail> {
    let response = response(alloc, desk, REQUEST.as_bytes())?;
    if response.starts_with(b"HTTP/1.1 200 OK\r\n") {
        Ok(())
    } else {
        Err("no answer to the same request".into())
    }
}

/// What goes out to these bytes.
pub fn response<D: Registrar>(
    alloc: Global,
    desk: &mut D,
    request: &[u8],
) -> Result<Vec<u8>, HttpFault> {
    let mut reader = Counted::new(request);
    let mut writer = writer(alloc, usize::MAX, usize::MAX, None)?;
    serve_one(alloc, desk, &mut reader, &mut writer)?;
    Ok(writer.into_inner().taken)
}

/// To these bytes this response goes out. Out of memory ends the test.
fn expect_response<A: Abort, D: Registrar>(
    rt: &A,
    alloc: Global,
    desk: &mut D,
    request: &[u8],
    expected: &str,
) -> Result<(), Fail> {
    let mut reader = Counted::new(request);
    let mut writer = writer(alloc, usize::MAX, usize::MAX, None)?;
    serve(alloc, desk, &mut reader, &mut writer)??;
    let response = writer.into_inner().taken;
    assert_eq!(rt; response.as_slice(), expected.as_bytes());
    Ok(())
}

/// The rows of a desk's tables, and the desk opened again over them.
fn rows_of<S: Alter + Drop>(desk: Desk<Store<S>>) -> Result<(Rows, Desk<Store<S>>), Fail> {
    let mut store = desk.end();
    let rows = store.load()?;
    match Desk::open(store) {
        Ok(desk) => Ok((rows, desk)),
        Err((fault, _store)) => Err(fault.into()),
    }
}

/// To these bytes this response goes out, and the tables keep their rows.
fn expect_no_change<A: Abort, S: Alter + Drop>(
    rt: &A,
    alloc: Global,
    mut desk: Desk<Store<S>>,
    rows: &Rows,
    request: &[u8],
    expected: &str,
) -> Result<Desk<Store<S>>, Fail> {
    expect_response(rt, alloc, &mut desk, request, expected)?;
    let (found, desk) = rows_of(desk)?;
    assert!(rt; are_same(&found, rows));
    Ok(desk)
}

/// Each front of a request is refused and changes no row; then the whole is answered.
struct Fronts;

impl AtDesk for Fronts {
    fn go<R: Abort, S: Alter + Drop>(
        &self,
        rt: &R,
        alloc: Global,
        desk: Desk<Store<S>>,
    ) -> Result<(), Fail> {
        let (rows, mut desk) = rows_of(desk)?;
        for count in 0..REQUEST.len() {
            let expected = match count {
                0 => "",
                1..HEAD_BYTES => HEAD_CUT,
                _ => BODY_CUT,
            };
            let front = &REQUEST.as_bytes()[..count];
            desk = expect_no_change(rt, alloc, desk, &rows, front, expected)?;
        }
        expect_response(rt, alloc, &mut desk, REQUEST.as_bytes(), RESPONSE)
    }
}

#[test]
fn requests_that_are_cut_short(rt: HostRuntime) -> Result<(), Fail> {
    at_new_desk(&rt, rt.alloc(), network(rt.alloc())?, &Fronts)
}

/// A head that asks for the board, with n fields, the last of which fills it to that many
/// bytes.
fn board_head(alloc: Global, fields: usize, bytes: usize) -> Result<String, AllocError> {
    let mut head = String::from_str(alloc, "GET /board HTTP/1.1\r\n")?;
    for _field in 1..fields {
        head.push_str("A:\r\n")?;
    }
    head.push_str("A:")?;
    for _byte in head.len()..bytes.saturating_sub(4) {
        head.push_str("a")?;
    }
    head.push_str("\r\n\r\n")?;
    Ok(head)
}

/// The longest heads, and of each one longer.
struct Heads;

impl AtDesk for Heads {
    fn go<R: Abort, S: Alter + Drop>(
        &self,
        rt: &R,
        alloc: Global,
        mut desk: Desk<Store<S>>,
    ) -> Result<(), Fail> {
        expect_head(rt, alloc, &mut desk, 1, MAX_HEAD_BYTES, BOARD)?;
        expect_head(rt, alloc, &mut desk, 1, MAX_HEAD_BYTES + 1, HEAD_TOO_LARGE)?;
        expect_head(rt, alloc, &mut desk, MAX_FIELDS, 0, BOARD)?;
        expect_head(rt, alloc, &mut desk, MAX_FIELDS + 1, 0, HEAD_TOO_LARGE)
    }
}

/// To a head of n fields, and of that many bytes where they are more than 0, this response goes
/// out.
fn expect_head<R: Abort, D: Registrar>(
    rt: &R,
    alloc: Global,
    desk: &mut D,
    fields: usize,
    bytes: usize,
    expected: &str,
) -> Result<(), Fail> {
    let head = board_head(alloc, fields, bytes)?;
    assert!(rt; bytes == 0 || head.len() == bytes);
    expect_response(rt, alloc, desk, head.as_bytes(), expected)
}

#[test]
fn longest_heads(rt: HostRuntime) -> Result<(), Fail> {
    at_new_desk(&rt, rt.alloc(), network(rt.alloc())?, &Heads)
}

/// A reader of one byte a call that fails at each call: nothing goes out, and the board stays
/// empty.
struct FailingReader;

impl AtDesk for FailingReader {
    fn go<R: Abort, S: Alter + Drop>(
        &self,
        rt: &R,
        alloc: Global,
        mut desk: Desk<Store<S>>,
    ) -> Result<(), Fail> {
        for calls_before in 0..REQUEST.len() as u64 {
            expect_unread(rt, alloc, &mut desk, calls_before)?;
        }
        expect_empty_board(rt, alloc, &desk)?;
        expect_response(rt, alloc, &mut desk, REQUEST.as_bytes(), RESPONSE)
    }
}

/// Nothing goes out to a reader that fails after n calls.
fn expect_unread<R: Abort, D: Registrar>(
    rt: &R,
    alloc: Global,
    desk: &mut D,
    calls_before: u64,
) -> Result<(), Fail> {
    let mut reader = Counted::new(FailsAt {
        bytes: REQUEST.as_bytes(),
        bytes_per_call: 1,
        calls_before,
    });
    let mut writer = writer(alloc, usize::MAX, usize::MAX, None)?;
    let served = serve(alloc, desk, &mut reader, &mut writer)?;
    assert_eq!(rt;
        served,
        Err(HttpFault::ReadFailed),
        "after {calls_before} calls"
    );
    assert_eq!(rt; reader.failures(), 1);
    assert!(rt; writer.into_inner().taken.is_empty());
    Ok(())
}

/// No clearance is on the board.
fn expect_empty_board<R: Abort, D: Registrar>(rt: &R, alloc: Global, desk: &D) -> Result<(), Fail> {
    let board = desk.board(alloc)?;
    assert_eq!(rt; board.as_str(), EMPTY_BOARD);
    Ok(())
}

#[test]
fn reader_fails_at_each_call(rt: HostRuntime) -> Result<(), Fail> {
    at_new_desk(&rt, rt.alloc(), network(rt.alloc())?, &FailingReader)
}

/// What goes out to the request at its n-th time, counted from 1.
pub fn nth_response(alloc: Global, n: usize) -> Result<String, AllocError> {
    let body = format!(in alloc;
        "{{\"card\":{{\"clearance\":\"JONES/{n}\",\"done\":0,\"holder\":\"JONES\",\
        \"phase\":\"Requested\",\"round\":0,\"steps\":0}},\"reply\":\"accepted\"}}"
    )?;
    let length = body.len();
    format!(in alloc;
        "HTTP/1.1 200 OK\r\nContent-Type: application/json\r\nContent-Length: {length}\r\n\
        Connection: close\r\n\r\n{body}"
    )
}

/// A writer that fails after each byte of the response. After each failure the clearance is there:
/// the next response has the next number.
struct FailingWriter;

impl AtDesk for FailingWriter {
    fn go<R: Abort, S: Alter + Drop>(
        &self,
        rt: &R,
        alloc: Global,
        mut desk: Desk<Store<S>>,
    ) -> Result<(), Fail> {
        for room in 0..RESPONSE.len() {
            let fault = HttpFault::WriteFailed(room);
            let broken = Some(io::ErrorKind::BrokenPipe);
            let writer = writer(alloc, usize::MAX, room, broken)?;
            let taken = expect_taken(rt, alloc, &mut desk, writer, Some(fault), 1)?;
            expect_front(rt, alloc, taken.as_slice(), room)?;
        }
        expect_last(rt, alloc, &mut desk)
    }
}

/// The request after the last of these failures is answered too.
fn expect_last<R: Abort, D: Registrar>(rt: &R, alloc: Global, desk: &mut D) -> Result<(), Fail> {
    let expected = nth_response(alloc, RESPONSE.len() + 1)?;
    expect_response(rt, alloc, desk, REQUEST.as_bytes(), expected.as_str())
}

/// The request ends with this fault, or with none, and the writer has failed n times. Returns the
/// bytes that it has taken.
fn expect_taken<R: Abort, D: Registrar>(
    rt: &R,
    alloc: Global,
    desk: &mut D,
    mut writer: Counted<Narrow>,
    fault: Option<HttpFault>,
    failures: u64,
) -> Result<Vec<u8>, Fail> {
    let mut reader = Counted::new(REQUEST.as_bytes());
    let served = serve(alloc, desk, &mut reader, &mut writer)?;
    assert_eq!(rt; served.err(), fault);
    assert_eq!(rt; writer.failures(), failures);
    Ok(writer.into_inner().taken)
}

/// The first n bytes have gone out of the response to the request for clearance n + 1.
fn expect_front<R: Abort>(rt: &R, alloc: Global, taken: &[u8], room: usize) -> Result<(), Fail> {
    let expected = nth_response(alloc, room.saturating_add(1))?;
    assert_eq!(rt; Some(taken), expected.as_bytes().get(..room));
    Ok(())
}

#[test]
fn writer_fails_after_each_byte(rt: HostRuntime) -> Result<(), Fail> {
    at_new_desk(&rt, rt.alloc(), network(rt.alloc())?, &FailingWriter)
}

/// A writer that takes up to n bytes a call while there is room, and then none.
#[derive(Drop)]
struct NarrowWriter {
    bytes_per_call: usize,
    room: usize,
    fault: Option<HttpFault>,
}

impl AtDesk for NarrowWriter {
    fn go<R: Abort, S: Alter + Drop>(
        &self,
        rt: &R,
        alloc: Global,
        mut desk: Desk<Store<S>>,
    ) -> Result<(), Fail> {
        let writer = writer(alloc, self.bytes_per_call, self.room, None)?;
        let taken = expect_taken(rt, alloc, &mut desk, writer, self.fault, 0)?;
        let count = self.room.min(RESPONSE.len());
        assert_eq!(rt; Some(taken.as_slice()), RESPONSE.as_bytes().get(..count));
        Ok(())
    }
}

#[test]
fn slow_and_full_writers(rt: HostRuntime) -> Result<(), Fail> {
    let slow = NarrowWriter {
        bytes_per_call: 1,
        room: usize::MAX,
        fault: None,
    };
    let full = NarrowWriter {
        bytes_per_call: 3,
        room: 10,
        fault: Some(HttpFault::WriteFailed(10)),
    };
    for writer in [slow, full] {
        at_new_desk(&rt, rt.alloc(), network(rt.alloc())?, &writer)?;
    }
    Ok(())
}

/// Keeps the register of another, and answers no command.
#[derive(Drop)]
struct Unanswering<D: Registrar + Drop> {
    desk: D,
    faults: u64,
}

impl<D: Registrar + Drop> Registrar for Unanswering<D> {
    ghost keeper = { λ k. record { register = (D.keeper k.desk).register; faults = k.faults } };

    ghost leads_to = { λ _ _. Unit {0} };

    ghost takes = { λ _ _ _ _ _. Unit {0} };

    ghost doubts = { λ _. false };

    ghost stays = { λ _. tt };

    ghost goes_on = { λ _ _ _ _ _. tt };

    fn faults(&self) -> u64 {
        self.faults
    }

    fn is_in_doubt(&self) -> bool {
        false
    }

    fn answer(&mut self, _login: Option<Text>, _command: Command) -> Option<Reply> {
        self.faults = self.faults.saturating_add(1);
        None
    }

    fn order(
        &self,
        alloc: Global,
        id: &ClearanceId,
        round: u8,
    ) -> Result<Option<String>, AllocError> {
        self.desk.order(alloc, id, round)
    }

    fn board(&self, alloc: Global) -> Result<String, AllocError> {
        self.desk.board(alloc)
    }

    fn network(&self, alloc: Global) -> Result<String, AllocError> {
        self.desk.network(alloc)
    }

    fn way_back(&self, alloc: Global, id: &ClearanceId) -> Result<WayBack, AllocError> {
        self.desk.way_back(alloc, id)
    }
}

/// Two requests to a keeper that answers no command: the board stays empty.
struct NoAnswer;

impl AtDesk for NoAnswer {
    fn go<R: Abort, S: Alter + Drop>(
        &self,
        rt: &R,
        alloc: Global,
        desk: Desk<Store<S>>,
    ) -> Result<(), Fail> {
        let mut keeper = Unanswering { desk, faults: 0 };
        expect_unavailable(rt, alloc, &mut keeper, 1)?;
        expect_unavailable(rt, alloc, &mut keeper, 2)?;
        expect_empty_board(rt, alloc, &keeper)
    }
}

/// The request is answered by a 503, and then n requests were not answered.
fn expect_unavailable<R: Abort, D: Registrar>(
    rt: &R,
    alloc: Global,
    keeper: &mut D,
    faults: u64,
) -> Result<(), Fail> {
    let response = response(alloc, keeper, REQUEST.as_bytes())?;
    assert_eq!(rt; response.as_slice(), UNAVAILABLE.as_bytes());
    assert_eq!(rt; keeper.faults(), faults);
    Ok(())
}

#[test]
fn keeper_that_answers_no_command(rt: HostRuntime) -> Result<(), Fail> {
    at_new_desk(&rt, rt.alloc(), network(rt.alloc())?, &NoAnswer)
}
