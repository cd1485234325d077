//! Requests over HTTP to a desk over tables in memory, and what goes out to each, byte for byte.
use crate::at_desk::{AtDesk, at_new_desk};
use crate::worked::{REQUEST, RESPONSE};
use clr_desk::Desk;
use clr_http::{Registrar, serve_all};
use clr_store::Store;
use clr_worked::network;
use sqlite::Alter;
use std::alloc::Global;
use std::process::Abort;
use std::test::Fail;

/// A head, and after it 53 bytes: JONES asks for L2.
macro_rules! asks {
    ($head:literal) => {
        concat!(
            $head,
            "\r\n\r\n",
            r#"{"at":100,"by":"JONES","do":"request","section":"L2"}"#
        )
    };
}

/// A command that is posted: its length and its text.
macro_rules! posts {
    ($length:literal, $command:literal) => {
        concat!(
            "POST /command HTTP/1.1\r\nContent-Length: ",
            $length,
            "\r\n\r\n",
            $command
        )
    };
}

/// A response in JSON: its status, its length and its text.
macro_rules! answers {
    ($status:literal, $length:literal, $text:literal) => {
        concat!(
            "HTTP/1.1 ",
            $status,
            "\r\nContent-Type: application/json\r\nContent-Length: ",
            $length,
            "\r\nConnection: close\r\n\r\n",
            $text
        )
    };
}

/// That JONES/1 is ordered, with n of its six steps done.
macro_rules! stands {
    ($done:literal) => {
        concat!(
            "HTTP/1.1 200 OK\r\nContent-Type: application/json\r\nContent-Length: 115\r\n\
            Connection: close\r\n\r\n",
            r#"{"card":{"clearance":"JONES/1","done":"#,
            $done,
            r#","holder":"JONES","phase":"Ordered","round":1,"steps":6},"reply":"accepted"}"#
        )
    };
}

/// What is printed: its length and its text.
macro_rules! prints {
    ($length:literal, $text:literal) => {
        concat!(
            "HTTP/1.1 200 OK\r\nContent-Type: text/plain\r\nContent-Length: ",
            $length,
            "\r\nConnection: close\r\n\r\n",
            $text
        )
    };
}

/// Requests that are refused, and the board after them.
const REFUSED: [(&str, &str); 8] = [
    (
        asks!("POST /command HTTP/1.1\r\nContent-Length: 54"),
        answers!("400 Bad Request", 19, r#"{"fault":"BodyCut"}"#),
    ),
    (
        asks!("POST /command HTTP/1.1\r\nHost: 127.0.0.1:8080"),
        answers!("411 Length Required", 20, r#"{"fault":"NoLength"}"#),
    ),
    (
        asks!("POST /command HTTP/1.1\r\nContent-Length: 65537"),
        answers!("413 Payload Too Large", 24, r#"{"fault":"BodyTooLarge"}"#),
    ),
    (
        asks!("POST /command HTTP/1.1\r\nContent-Length: 53\r\ncontent-length: 53"),
        answers!("400 Bad Request", 21, r#"{"fault":"BadLength"}"#),
    ),
    (
        asks!("POST /command HTTP/1.1\r\nContent-Length"),
        answers!("400 Bad Request", 19, r#"{"fault":"BadHead"}"#),
    ),
    (
        asks!("GET /nothing HTTP/1.0"),
        answers!("404 Not Found", 19, r#"{"fault":"NoRoute"}"#),
    ),
    (
        asks!("GET /clearance/JONES/JONES/9 HTTP/1.1"),
        answers!(
            "409 Conflict",
            60,
            r#"{"number":5,"refusal":"UNKNOWN_CLEARANCE","reply":"refused"}"#
        ),
    ),
    ("GET /board HTTP/1.1\r\n\r\n", prints!(8, "BOARD 0\n")),
];

/// From the opening register on: an input of no bytes, one that ends within the head, a method that
/// the route has not, a request, an order and its first step, and what is printed then. The last
/// two are not there: another round, and no round at all.
const FIRST_STEP: [(&str, &str); 12] = [
    ("", ""),
    (
        "GET /bo",
        answers!("400 Bad Request", 19, r#"{"fault":"HeadCut"}"#),
    ),
    (
        "PUT /command HTTP/1.1\r\n\r\n",
        "HTTP/1.1 405 Method Not Allowed\r\nAllow: POST\r\nContent-Length: 0\r\n\
        Connection: close\r\n\r\n",
    ),
    (REQUEST, RESPONSE),
    (
        posts!(
            147,
            r#"{"at":101,"by":"OPS","clearance":"JONES/1","do":"order","points":["S2","S3"],"steps":["OPEN S2","OPEN S3","BLOCK S2","BLOCK S3","TAG S2","TAG S3"]}"#
        ),
        stands!("0"),
    ),
    (
        posts!(
            68,
            r#"{"at":102,"by":"OPS","clearance":"JONES/1","do":"instruct","step":1}"#
        ),
        stands!("0"),
    ),
    (
        posts!(
            84,
            r#"{"at":103,"by":"REED","clearance":"JONES/1","do":"repeat","step":1,"text":"OPEN S2"}"#
        ),
        stands!("0"),
    ),
    (
        posts!(
            79,
            r#"{"at":104,"by":"REED","clearance":"JONES/1","do":"report","done":true,"step":1}"#
        ),
        stands!("1"),
    ),
    (
        "GET /board HTTP/1.1\r\n\r\n",
        prints!(
            106,
            "BOARD 1\n\
            JONES/1                       Ordered   L2                       \
            1970-01-01 00:01:44 +00:00 JONES\n"
        ),
    ),
    (
        "GET /order/JONES/1/1 HTTP/1.1\r\n\r\n",
        prints!(
            408,
            "ORDER JONES/1 ROUND 1
WORK L2
HOLDER JONES
PHASE Ordered
LAST 1970-01-01 00:01:44 +00:00
  1 OPEN      S2                       Done       REED
  2 OPEN      S3                       Waiting    -
  3 BLOCK     S2                       Waiting    -
  4 BLOCK     S3                       Waiting    -
  5 TAG       S2                       Waiting    -
  6 TAG       S3                       Waiting    -
END
"
        ),
    ),
    (
        "GET /order/JONES/1/2 HTTP/1.1\r\n\r\n",
        answers!("404 Not Found", 18, r#"{"fault":"NoSuch"}"#),
    ),
    (
        "GET /order/JONES/JONES HTTP/1.1\r\n\r\n",
        answers!("404 Not Found", 19, r#"{"fault":"NoRoute"}"#),
    ),
];

/// Requests to a desk, each a connection of its own, one after the other, and what goes out to
/// each.
#[derive(Drop)]
struct Exchanges<'a> {
    all: &'a [(&'a str, &'a str)],
}

impl<'a> AtDesk for Exchanges<'a> {
    fn go<R: Abort, S: Alter + Drop>(
        &self,
        rt: &R,
        alloc: Global,
        mut desk: Desk<Store<S>>,
    ) -> Result<(), Fail> {
        expect_all(rt, alloc, &mut desk, self.all)
    }
}

/// To each request its response goes out. A 503 is counted, and nothing after it is accepted, so
/// that all is answered from there on when it comes again.
fn expect_all<R: Abort, D: Registrar>(
    rt: &R,
    alloc: Global,
    desk: &mut D,
    exchanges: &[(&str, &str)],
) -> Result<(), Fail> {
    let answered = expect_responses(rt, alloc, desk, exchanges)?;
    if answered < exchanges.len() {
        assert!(rt; desk.faults() > 0);
        let rest = &exchanges[answered..];
        assert_eq!(rt; expect_responses(rt, alloc, desk, rest)?, rest.len());
    }
    Ok(())
}

/// To each request its response goes out, up to the first 503, which is sent when out of memory.
/// Returns how many there are.
fn expect_responses<R: Abort, D: Registrar>(
    rt: &R,
    alloc: Global,
    desk: &mut D,
    exchanges: &[(&str, &str)],
) -> Result<usize, Fail> {
    let responses = responses(alloc, desk, exchanges)?;
    assert_eq!(rt; responses.len(), exchanges.len());
    for (place, ((request, expected), response)) in exchanges.iter().zip(&responses).enumerate() {
        if response.starts_with(b"HTTP/1.1 503 ") {
            return Ok(place);
        }
        assert_eq!(rt; response.as_slice(), expected.as_bytes(), "{request}");
    }
    Ok(exchanges.len())
}

/// What goes out to these requests.
fn responses<D: Registrar>(
    alloc: Global,
    desk: &mut D,
    exchanges: &[(&str, &str)],
) -> Result<Vec<Vec<u8>>, Fail> {
    let mut requests = Vec::new(alloc);
    for (request, _) in exchanges {
        requests.push(Vec::from_slice(alloc, request.as_bytes())?)?;
    }
    Ok(serve_all(alloc, desk, requests.as_slice())?)
}

#[test]
fn refused_requests(rt: HostRuntime) -> Result<(), Fail> {
    let exchanges = Exchanges { all: &REFUSED };
    at_new_desk(&rt, rt.alloc(), network(rt.alloc())?, &exchanges)
}

#[test]
fn order_and_board_after_a_step(rt: HostRuntime) -> Result<(), Fail> {
    let exchanges = Exchanges { all: &FIRST_STEP };
    at_new_desk(&rt, rt.alloc(), network(rt.alloc())?, &exchanges)
}
