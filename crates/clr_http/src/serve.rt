//! One connection: its request is read and answered, and the response written.
ghost use Rattle.std.specs.Prelude.{◌≡◌, ◌≢◌, ℕ, List, Some, Ok, Err};
ghost use Rattle.httparse.specs.Grammar.{RequestHead};
ghost use Rattle.clr_http.specs.Answered.{IsAnswered, IsAnsweredAt};
ghost use Rattle.clr_http.specs.Head.{BeginsWith, HasHead};
ghost use Rattle.clr_http.specs.Options.{plain};
ghost use Rattle.clr_http.specs.Puts.{PutsAt};
ghost use Rattle.clr_http.specs.Request.{refused, request_read_at};
ghost use Rattle.clr_http.specs.Response.{Content, content_of, response_bytes};
ghost use Rattle.clr_http.specs.Served.{IsWritten, http_fault_of};
ghost use Rattle.clr_http.specs.declared.response.Response.TheVariants.{Unavailable};
ghost use Rattle.clr_http.specs.declared.serve.HttpFault.TheVariants.{NoMemory};

use crate::callers::Speaker;
use crate::options::Service;
use crate::registrar::Registrar;
use crate::request::{Heard, ReadFault, Request, read_request};
use crate::respond::response_to;
use crate::response::{Response, unavailable_text};
use clr_stream::{CountedRead, CountedWrite, write_whole};
use http::StatusCode;
use std::alloc::{AllocError, AllocFailed, Global};
use thiserror::Error;

/// How a connection ended.
#[derive(Clone, Copy, Debug, PartialEq, Eq)]
pub enum Served {
    /// The input ended before its first byte.
    Nothing,
    /// A response with this status went out.
    Answered(StatusCode),
}

/// Why a connection got no response, or no whole one.
#[derive(Clone, Copy, Debug, PartialEq, Eq, Error)]
pub enum HttpFault {
    /// The reader failed. Nothing was written.
    #[error("the request could not be read")]
    ReadFailed,
    /// The writer failed or took no byte. This number of bytes of the response, from the first on,
    /// went out.
    #[error("the response could not be written")]
    WriteFailed(usize),
    /// Memory ran out. Nothing was written.
    #[error("out of memory")]
    NoMemory,
}

impl From<AllocError> for HttpFault {
    ghost from_gives = { λ _ fault. fault ≡ NoMemory };

    fn from(_error: AllocError) -> HttpFault {
        HttpFault::NoMemory
    }
}

impl<T: Drop> From<AllocFailed<T>> for HttpFault {
    ghost from_gives = { λ _ fault. fault ≡ NoMemory };

    fn from(_error: AllocFailed<T>) -> HttpFault {
        HttpFault::NoMemory
    }
}

impl From<ReadFault> for HttpFault {
    ghost use Rattle.clr_http.specs.Served.{http_fault_of};

    ghost from_gives = { λ fault fault_response. fault_response ≡ http_fault_of fault };

    fn from(fault: ReadFault) -> HttpFault {
        match fault {
            ReadFault::ReadFailed => HttpFault::ReadFailed,
            ReadFault::NoMemory => HttpFault::NoMemory,
        }
    }
}

/// Serves one connection at the plain service: reads its request, answers it at the desk, and
/// writes the response, which is whole before its first byte goes out.
///
/// A command that the desk accepted stays carried out where its response cannot be made or written.
/// What comes after the request is not looked at.
pub fn serve_one<D: Registrar, R: CountedRead, W: CountedWrite>(
    alloc: Global,
    desk: &mut D,
    reader: &mut R,
    writer: &mut W,
) -> Result<Served, HttpFault>
    ensures answered { IsAnswered (D.keeper desk.old) (D.keeper desk.new)
        (record { remaining = R.remaining reader.old; failures = R.failure_count reader.old })
        (record { remaining = R.remaining reader.new; failures = R.failure_count reader.new })
        (W.stream writer.old) (W.stream writer.new) result }
    ensures refused { (input : List ℕ) → R.remaining reader.old ≡ Some input
        → ¬ (HasHead (Some input)) → desk.new ≡ desk.old }
    ensures nothing { result ≡ Ok Served.Nothing
        → (writer.new ≡ writer.old) × (desk.new ≡ desk.old) }
    ensures unread { result ≡ Err HttpFault.ReadFailed
        → (writer.new ≡ writer.old) × (desk.new ≡ desk.old) }
    ensures unmade { result ≡ Err HttpFault.NoMemory → writer.new ≡ writer.old }
    ensures put { PutsAt D.takes plain (R.remaining reader.old) result desk.old desk.new }
    ensures led { D.leads_to desk.old desk.new }
{
    let service = Service::plain();
    serve_request(alloc, &service, desk, reader, writer)
}

/// Serves one connection at a service, as `serve_one` does at the plain one.
///
/// With `desk` a request that a page of elsewhere may have sent is refused, and the network and
/// ways back are shown. With `logins` a command or a view is refused in a name that the login of
/// the request may not use. A request that is refused does not come to the desk.
pub fn serve_request<D: Registrar, R: CountedRead, W: CountedWrite>(
    alloc: Global,
    service: &Service,
    desk: &mut D,
    reader: &mut R,
    writer: &mut W,
) -> Result<Served, HttpFault>
    ensures answered { IsAnsweredAt service.now (D.keeper desk.old) (D.keeper desk.new)
        (record { remaining = R.remaining reader.old; failures = R.failure_count reader.old })
        (record { remaining = R.remaining reader.new; failures = R.failure_count reader.new })
        (W.stream writer.old) (W.stream writer.new) result }
    ensures refused { (input : List ℕ) → R.remaining reader.old ≡ Some input
        → ¬ (HasHead (Some input)) → desk.new ≡ desk.old }
    ensures unasked { (input rest : List ℕ) (head : RequestHead) (c : Content)
        → R.remaining reader.old ≡ Some input → BeginsWith input head rest
        → request_read_at service.now head rest ≡ refused c → desk.new ≡ desk.old }
    ensures nothing { result ≡ Ok Served.Nothing
        → (writer.new ≡ writer.old) × (desk.new ≡ desk.old) }
    ensures unread { result ≡ Err HttpFault.ReadFailed
        → (writer.new ≡ writer.old) × (desk.new ≡ desk.old) }
    ensures unmade { result ≡ Err HttpFault.NoMemory → writer.new ≡ writer.old }
    ensures put { PutsAt D.takes service.now (R.remaining reader.old) result
        desk.old desk.new }
    ensures led { D.leads_to desk.old desk.new }
{
    let Some(heard) = read_request(alloc, service, reader)? else {
        return Ok(Served::Nothing);
    };
    let Heard { request, login } = heard;
    let logins = &service.logins;
    let speaker = Speaker {
        logins,
        login,
        noted: service.desk,
    };
    match request {
        Request::Refused(response) => send(alloc, writer, &response),
        Request::Asks(asked, body) => {
            let response = response_to(alloc, desk, &speaker, asked, body.as_slice())?;
            send(alloc, writer, &response)
        }
    }
}

/// Writes a response. It asks for no memory where that is `Unavailable`.
fn send<W: CountedWrite>(
    alloc: Global,
    writer: &mut W,
    response: &Response,
) -> Result<Served, HttpFault>
    ensures written { IsWritten (λ c. c ≡ content_of response.now)
        (W.stream writer.old) (W.stream writer.new) result }
    ensures some { result ≢ Ok Served.Nothing }
    ensures calm { result ≢ Err HttpFault.ReadFailed }
    ensures unmade { result ≡ Err HttpFault.NoMemory → writer.new ≡ writer.old }
    ensures fixed { response.now ≡ Unavailable → result ≢ Err HttpFault.NoMemory }
{
    if let Response::Unavailable = response {
        return write_text(writer, response, unavailable_text());
    }
    let text = response.text(alloc)?;
    write_text(writer, response, &text)
}

/// Writes the bytes of a response.
fn write_text<W: CountedWrite>(
    writer: &mut W,
    response: &Response,
    text: &str,
) -> Result<Served, HttpFault>
    requires { text.now ≡ response_bytes (content_of response.now) }
    ensures written { IsWritten (λ c. c ≡ content_of response.now)
        (W.stream writer.old) (W.stream writer.new) result }
    ensures some { result ≢ Ok Served.Nothing }
    ensures calm { result ≢ Err HttpFault.ReadFailed }
    ensures unmade { result ≢ Err HttpFault.NoMemory }
{
    match write_whole(writer, text.as_bytes()) {
        Ok(()) => Ok(Served::Answered(response.status())),
        Err(count) => Err(HttpFault::WriteFailed(count)),
    }
}
