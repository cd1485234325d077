//! A desk over a database whose disk stops while a request is served, and works again for the next.
use crate::hostile::{UNAVAILABLE, nth_response, response};
use crate::worked::{REQUEST, RESPONSE};
use clr_desk::DeskFault;
use clr_http::{HttpFault, Registrar};
use clr_load::StoreFault;
use clr_worked::{Behind, Held, Part, Work, new_register, opened, over_files};
use sqlite::{Alter, Connection};
use std::alloc::Global;
use std::process::Abort;
use std::test::Fail;

/// More calls than a desk makes of a file to open and to answer one request.
const MOST_CALLS: u64 = 1000;

/// What a client sees.
#[derive(Clone, Copy, PartialEq)]
enum Seen {
    /// That it has the first clearance, or the second.
    First,
    Second,
    /// 503.
    Unavailable,
    /// Nothing, since no desk was opened, or since memory ran out.
    NoDesk,
    NoMemory,
    Other,
}

/// A client asks a desk over a database for the first clearance, or for the second where that is
/// given.
#[derive(Drop)]
struct Request<'a> {
    alloc: Global,
    second: &'a str,
}

impl<'a> Work for Request<'a> {
    type Outcome = Seen;

    fn go<S: Alter + Drop>(self, connection: Connection<S>) -> (Seen, Connection<S>) {
        match opened(connection) {
            Ok(mut desk) => {
                let seen = seen_at(self.alloc, &mut desk, self.second);
                (seen, desk.end().end())
            }
            Err((DeskFault::NoMemory, connection)) => (Seen::NoMemory, connection),
            Err((_fault, connection)) => (Seen::NoDesk, connection),
        }
    }
}

/// What a client sees at a desk.
fn seen_at<D: Registrar>(alloc: Global, desk: &mut D, second: &str) -> Seen {
    match response(alloc, desk, REQUEST.as_bytes()) {
        Ok(response) => seen_in(response.as_slice(), second),
        Err(HttpFault::NoMemory) => Seen::NoMemory,
        Err(_fault) => Seen::Other,
    }
}

/// What a response says.
fn seen_in(response: &[u8], second: &str) -> Seen {
    if response == RESPONSE.as_bytes() {
        Seen::First
    } else if response == second.as_bytes() {
        Seen::Second
    } else if response == UNAVAILABLE.as_bytes() {
        Seen::Unavailable
    } else {
        Seen::Other
    }
}

/// What a client sees over files of which one stops after n calls, and what they hold
/// then.
fn seen_over(
    alloc: Global,
    second: &str,
    held: &Held,
    part: Part,
    calls: u64,
) -> Result<(Seen, Behind), Fail> {
    let (seen, behind) = over_files(alloc, held, part, calls, Request { alloc, second })?;
    match seen {
        Ok(seen) => Ok((seen, behind)),
        Err(StoreFault::NoMemory) => Ok((Seen::NoMemory, behind)),
        Err(_fault) => Ok((Seen::NoDesk, behind)),
    }
}

/// What a client sees while a file stops after n calls, and the next one, once the file
/// works again. Out of memory ends the test.
fn two_seen(
    alloc: Global,
    second: &str,
    register: &Held,
    part: Part,
    calls: u64,
) -> Result<(Seen, Seen), Fail> {
    let (first, behind) = seen_over(alloc, second, register, part, calls)?;
    let (next, _behind) = seen_over(alloc, second, &behind.seen(), part, u64::MAX)?;
    if first == Seen::NoMemory || next == Seen::NoMemory {
        return Err(Fail::new("out of memory"));
    }
    Ok((first, next))
}

/// Whether each clearance is given once, as it is when out of memory too.
fn is_given_once(seen: (Seen, Seen)) -> bool {
    !matches!(
        seen,
        (Seen::First, Seen::First) | (Seen::NoDesk, Seen::Second)
    )
}

/// Stops a file at each call until the request is answered, and returns how often it was answered
/// by a 503. The command of a 503 may be carried out: then the next one gets the second number.
fn unavailable_count<R: Abort>(
    rt: &R,
    alloc: Global,
    register: &Held,
    part: Part,
) -> Result<u64, Fail> {
    let second = nth_response(alloc, 2)?;
    let mut unavailable: u64 = 0;
    for calls in 0..MOST_CALLS {
        let seen = two_seen(alloc, second.as_str(), register, part, calls)?;
        assert!(rt; is_given_once(seen), "{part:?} at {calls}");
        // A 503 is sent when out of memory too, and not when all is done once more.
        if two_seen(alloc, second.as_str(), register, part, calls)? != seen {
            return Err(Fail::new("out of memory"));
        }
        match seen {
            (Seen::NoDesk, Seen::First) => {}
            (Seen::Unavailable, Seen::First | Seen::Second) => {
                unavailable = unavailable.saturating_add(1);
            }
            _ => {
                assert!(rt; seen == (Seen::First, Seen::Second), "{part:?} at {calls}");
                return Ok(unavailable);
            }
        }
    }
    Err("a request that is not answered".into())
}

#[test]
fn disk_stops_while_a_request_is_served(rt: HostRuntime) -> Result<(), Fail> {
    let register = new_register(rt.alloc())?;
    let log = unavailable_count(&rt, rt.alloc(), &register, Part::Log)?;
    assert_eq!(rt; log, 6);
    let database = unavailable_count(&rt, rt.alloc(), &register, Part::Db)?;
    assert_eq!(rt; database, 0);
    Ok(())
}
