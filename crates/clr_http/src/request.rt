//! The request: what its head and the bytes after it ask for.
ghost use Rattle.std.specs.Prelude.{◌≡◌, ◌≢◌, ◌≤◌, ◌<◌, ◌+◌, ℕ, All, List, [], Option, Some, None};
ghost use Rattle.std.specs.Prelude.{Ok, Err, IfOk, IfErr, IfSome, drop, length, map, take};
ghost use Rattle.std.specs.Prelude.{◌&&◌, true, false, vec_len};
ghost use Rattle.std.specs.Str.{IsUtf8};
ghost use Rattle.std.specs.Io.KnownBytes.{Consumes, IsAtEnd};
ghost use Rattle.httparse.specs.Grammar.{RequestHead};
ghost use Rattle.httparse.specs.Spans.{IsHeaderWithin, IsRequestAt, IsRequestWithin, header_bytes};
ghost use Rattle.httparse.specs.Spans.{span_bytes};
ghost use Rattle.clr_stream.specs.Failures.{Rose};
ghost use Rattle.clr_stream.specs.Whole.{TakesAtMost};
ghost use Rattle.clr_http.specs.Callers.{login_of};
ghost use Rattle.clr_http.specs.Fields.{fields_of};
ghost use Rattle.clr_http.specs.Head.{BeginsWith, IsOutside};
ghost use Rattle.clr_http.specs.Foreign.{is_foreign};
ghost use Rattle.clr_http.specs.Length.{body_length};
ghost use Rattle.clr_http.specs.Request.{IsNo503, IsReadAs, command_read};
ghost use Rattle.clr_http.specs.Request.{fault_of_length, method_of};
ghost use Rattle.clr_http.specs.Request.{head_read, reading, refusal_of, refused, route_read};
ghost use Rattle.clr_http.specs.Response.{fault_response};
ghost use Rattle.clr_http.specs.Target.{target_of};

use crate::callers::login_of;
use crate::foreign::is_foreign;
use crate::head::{HeadFault, MAX_FIELDS, fill, read_head};
use crate::length::{LengthFault, body_length};
use crate::options::Service;
use crate::response::{Fault, Method, Response};
use crate::target::{Target, target_of};
use clr_staff::Login;
use clr_stream::CountedRead;
use httparse::spans::{EMPTY_HEADER_SPAN, HeaderSpan, RequestSpans};
use std::alloc::Global;
use std::str;

/// A request that was read.
#[derive(Drop)]
pub(crate) enum Request {
    /// It is refused, with this response.
    Refused(Response),
    /// It asks for this. The body is a command's, and empty for every other route.
    Asks(Target, Vec<u8>),
}

/// A request that was read, and the login of its head.
#[derive(Drop)]
pub(crate) struct Heard {
    pub request: Request,
    pub login: Option<Login>,
}

/// Why no request was read.
#[derive(Clone, Copy)]
pub(crate) enum ReadFault {
    /// The reader failed.
    ReadFailed,
    /// Memory ran out.
    NoMemory,
}

impl Target {
    /// The method of the route.
    pub(crate) fn method(&self) -> Method
        ensures { result ≡ method_of self.now }
    {
        match self {
            Target::Command => Method::Post,
            _ => Method::Get,
        }
    }
}

impl LengthFault {
    /// The fault of it.
    pub(crate) fn as_fault(self) -> Fault
        ensures { result ≡ fault_of_length self }
    {
        match self {
            LengthFault::NoLength => Fault::NoLength,
            LengthFault::BadLength => Fault::BadLength,
            LengthFault::BodyTooLarge => Fault::BodyTooLarge,
        }
    }
}

/// Reads until the buffer has this many bytes. False where the input ends before that.
fn fill_to<R: CountedRead>(
    reader: &mut R,
    buffer: &mut Vec<u8>,
    wanted: usize,
) -> Result<bool, HeadFault>
    ensures taken { (first : Option (List ℕ))
        → Consumes first (R.remaining reader.old) buffer.old.items
        → Consumes first (R.remaining reader.new) buffer.new.items }
    ensures whole { result ≡ Ok true → wanted ≤ vec_len buffer.new }
    ensures short { result ≡ Ok false → (vec_len buffer.new < wanted)
        × IsAtEnd (R.remaining reader.new) }
    ensures kept { take (vec_len buffer.old) buffer.new.items ≡ buffer.old.items }
    ensures grown { vec_len buffer.old ≤ vec_len buffer.new }
    ensures within { wanted ≤ 8192 + 65536 → vec_len buffer.old ≤ 8192 + 65536
        → vec_len buffer.new ≤ 8192 + 65536 }
    ensures fault { IfErr result (λ e. IsOutside e) }
    ensures calm { IfOk result (λ n. R.failure_count reader.new ≡ R.failure_count reader.old) }
    ensures cause { result ≡ Err HeadFault.ReadFailed
        → Rose (R.failure_count reader.old) (R.failure_count reader.new) }
{
    while buffer.len() < wanted {
        if fill(reader, buffer, wanted)? == 0 {
            return Ok(false);
        }
    }
    Ok(true)
}

/// The request that is refused with this fault.
fn refused(alloc: Global, fault: Fault) -> Result<Request, ReadFault>
    ensures reading { IfOk result (λ r. reading r ≡ refused (fault_response fault)) }
    ensures calm { result ≢ Err ReadFault.ReadFailed }
{
    match Response::of_fault(alloc, fault) {
        Ok(response) => Ok(Request::Refused(response)),
        Err(_) => Err(ReadFault::NoMemory),
    }
}

/// The request whose head has this fault.
fn head_refused(alloc: Global, fault: HeadFault) -> Result<Request, ReadFault>
    ensures reading { IfOk result (λ r. refusal_of fault ≡ Some (reading r)) }
    ensures plain { IfOk result (λ r. IsNo503 (reading r)) }
    ensures cause { result ≡ Err ReadFault.ReadFailed → fault ≡ HeadFault.ReadFailed }
{
    match fault {
        HeadFault::BadHead => refused(alloc, Fault::BadHead),
        HeadFault::HeadTooLarge => refused(alloc, Fault::HeadTooLarge),
        HeadFault::HeadCut => refused(alloc, Fault::HeadCut),
        HeadFault::ReadFailed => Err(ReadFault::ReadFailed),
        HeadFault::NoMemory => Err(ReadFault::NoMemory),
    }
}

/// The fault of a read after the head.
fn read_fault(fault: HeadFault) -> ReadFault
    ensures { result ≡ ReadFault.ReadFailed → fault ≡ HeadFault.ReadFailed }
{
    match fault {
        HeadFault::ReadFailed => ReadFault::ReadFailed,
        _ => ReadFault::NoMemory,
    }
}

/// What a target asks for.
fn target_read(alloc: Global, desk: bool, target: &[u8]) -> Result<Option<Target>, ReadFault>
    requires { IsUtf8 target.now }
    ensures asked { IfOk result (λ o. o ≡ target_of desk target.now) }
    ensures calm { result ≢ Err ReadFault.ReadFailed }
{
    match target_of(alloc, desk, str::from_utf8(target).unwrap()) {
        Ok(asked) => Ok(asked),
        Err(_) => Err(ReadFault::NoMemory),
    }
}

/// The command whose body has this many bytes, from `start` on.
fn command_behind<R: CountedRead>(
    alloc: Global,
    reader: &mut R,
    buffer: &mut Vec<u8>,
    start: usize,
    size: usize,
) -> Result<Request, ReadFault>
    requires start { (start ≤ vec_len buffer.old) × (start ≤ 8192) }
    requires size { size ≤ 65536 }
    ensures reading { (input : List ℕ)
        → Consumes (Some input) (R.remaining reader.old) buffer.old.items
        → IfOk result (λ r. reading r ≡ command_read (Ok size) (drop start input)) }
    ensures taken { (first : Option (List ℕ))
        → Consumes first (R.remaining reader.old) buffer.old.items
        → Consumes first (R.remaining reader.new) buffer.new.items }
    ensures within { vec_len buffer.old ≤ 8192 → vec_len buffer.new ≤ 8192 + 65536 }
    ensures plain { IfOk result (λ r. IsNo503 (reading r)) }
    ensures cause { result ≡ Err ReadFault.ReadFailed
        → Rose (R.failure_count reader.old) (R.failure_count reader.new) }
{
    match fill_to(reader, buffer, start + size) {
        Ok(true) => {}
        Ok(false) => return refused(alloc, Fault::BodyCut),
        Err(fault) => return Err(read_fault(fault)),
    }
    match Vec::from_slice(alloc, &buffer[start..start + size]) {
        Ok(body) => Ok(Request::Asks(Target::Command, body)),
        Err(_) => Err(ReadFault::NoMemory),
    }
}

/// The command after a head with these fields, which ends at `start`.
fn command_in<R: CountedRead>(
    alloc: Global,
    reader: &mut R,
    buffer: &mut Vec<u8>,
    headers: &[HeaderSpan],
    start: usize,
) -> Result<Request, ReadFault>
    requires fields { All (IsHeaderWithin (length buffer.old.items)) headers.now }
    requires start { (start ≤ vec_len buffer.old) × (start ≤ 8192) }
    ensures reading { (input : List ℕ)
        → Consumes (Some input) (R.remaining reader.old) buffer.old.items
        → IfOk result (λ r. reading r
        ≡ command_read (body_length (map (header_bytes buffer.old.items) headers.now))
        (drop start input)) }
    ensures taken { (first : Option (List ℕ))
        → Consumes first (R.remaining reader.old) buffer.old.items
        → Consumes first (R.remaining reader.new) buffer.new.items }
    ensures within { vec_len buffer.old ≤ 8192 → vec_len buffer.new ≤ 8192 + 65536 }
    ensures plain { IfOk result (λ r. IsNo503 (reading r)) }
    ensures cause { result ≡ Err ReadFault.ReadFailed
        → Rose (R.failure_count reader.old) (R.failure_count reader.new) }
{
    match body_length(buffer.as_slice(), headers) {
        Ok(size) => command_behind(alloc, reader, buffer, start, size),
        Err(fault) => refused(alloc, fault.as_fault()),
    }
}

/// Whether a service at a desk refuses a request with these fields, as one that a page of elsewhere
/// may have sent.
fn seems_foreign(service: &Service, buffer: &[u8], headers: &[HeaderSpan]) -> bool
    requires { All (IsHeaderWithin (length buffer.now)) headers.now }
    ensures { result
        ≡ (service.now.desk && is_foreign (map (header_bytes buffer.now) headers.now)) }
{
    service.desk && is_foreign(buffer, headers)
}

/// The request whose head lies at the front of the buffer.
fn request_in<R: CountedRead>(
    alloc: Global,
    service: &Service,
    reader: &mut R,
    buffer: &mut Vec<u8>,
    headers: &[HeaderSpan],
    spans: RequestSpans,
) -> Result<Request, ReadFault>
    requires within { IsRequestWithin buffer.old.items headers.now spans }
    requires text { IsUtf8 (span_bytes buffer.old.items spans.path) }
    requires size { vec_len buffer.old ≤ 8192 }
    ensures reading { (head : RequestHead) (input : List ℕ)
        → IsRequestAt buffer.old.items headers.now spans head
        → Consumes (Some input) (R.remaining reader.old) buffer.old.items
        → IfOk result (λ r. reading r ≡ head_read service.now head (drop spans.len input)) }
    ensures taken { (first : Option (List ℕ))
        → Consumes first (R.remaining reader.old) buffer.old.items
        → Consumes first (R.remaining reader.new) buffer.new.items }
    ensures within { vec_len buffer.new ≤ 8192 + 65536 }
    ensures plain { IfOk result (λ r. IsNo503 (reading r)) }
    ensures cause { result ≡ Err ReadFault.ReadFailed
        → Rose (R.failure_count reader.old) (R.failure_count reader.new) }
{
    let path = spans.path.of(buffer.as_slice());
    match target_read(alloc, service.desk, path)? {
        Some(asked) => request_for(alloc, service, reader, buffer, headers, spans, asked),
        None => refused(alloc, Fault::NoRoute),
    }
}

/// The request for this target, whose head lies at the front of the buffer.
fn request_for<R: CountedRead>(
    alloc: Global,
    service: &Service,
    reader: &mut R,
    buffer: &mut Vec<u8>,
    headers: &[HeaderSpan],
    spans: RequestSpans,
    asked: Target,
) -> Result<Request, ReadFault>
    requires within { IsRequestWithin buffer.old.items headers.now spans }
    requires size { vec_len buffer.old ≤ 8192 }
    ensures reading { (head : RequestHead) (input : List ℕ)
        → IsRequestAt buffer.old.items headers.now spans head
        → Consumes (Some input) (R.remaining reader.old) buffer.old.items
        → IfOk result (λ r. reading r
        ≡ route_read service.now (Some asked) head (drop spans.len input)) }
    ensures taken { (first : Option (List ℕ))
        → Consumes first (R.remaining reader.old) buffer.old.items
        → Consumes first (R.remaining reader.new) buffer.new.items }
    ensures within { vec_len buffer.new ≤ 8192 + 65536 }
    ensures plain { IfOk result (λ r. IsNo503 (reading r)) }
    ensures cause { result ≡ Err ReadFault.ReadFailed
        → Rose (R.failure_count reader.old) (R.failure_count reader.new) }
{
    let fields = &headers[..spans.headers];
    let method = asked.method();
    if spans.method.of(buffer.as_slice()) != method.word().as_bytes() {
        return Ok(Request::Refused(Response::Allow(method)));
    }
    if seems_foreign(service, buffer.as_slice(), fields) {
        return refused(alloc, Fault::Foreign);
    }
    match asked {
        Target::Command => command_in(alloc, reader, buffer, fields, spans.len),
        _ => Ok(Request::Asks(asked, Vec::new(alloc))),
    }
}

/// Reads one request, and no byte that it does not need but those that come with it. `None` where
/// the input ends before its first byte.
pub(crate) fn read_request<R: CountedRead>(
    alloc: Global,
    service: &Service,
    reader: &mut R,
) -> Result<Option<Heard>, ReadFault>
    ensures known { (input : List ℕ) → R.remaining reader.old ≡ Some input
        → IfOk result (IsReadAs service.now input (R.remaining reader.new)) }
    ensures login { (input rest : List ℕ) (head : RequestHead)
        → R.remaining reader.old ≡ Some input → BeginsWith input head rest
        → IfOk result (λ o. IfSome o (λ h. h.login ≡ login_of (fields_of head))) }
    ensures bounded { TakesAtMost (8192 + 65536)
        (R.remaining reader.old) (R.remaining reader.new) }
    ensures nothing { result ≡ Ok None → IsAtEnd (R.remaining reader.old) }
    ensures empty { R.remaining reader.old ≡ Some [] → IfOk result (λ o. o ≡ None) }
    ensures plain { IfOk result (λ o. IfSome o (λ h. IsNo503 (reading h.request))) }
    ensures cause { result ≡ Err ReadFault.ReadFailed
        → Rose (R.failure_count reader.old) (R.failure_count reader.new) }
{
    let mut buffer = Vec::new(alloc);
    let mut headers = [EMPTY_HEADER_SPAN; MAX_FIELDS];
    match read_head(reader, &mut buffer, &mut headers) {
        Ok(None) => Ok(None),
        Ok(Some(spans)) => {
            let login = login_of(buffer.as_slice(), &headers[..spans.headers]);
            let request = request_in(alloc, service, reader, &mut buffer, &headers, spans)?;
            Ok(Some(Heard { request, login }))
        }
        Err(fault) => {
            let request = head_refused(alloc, fault)?;
            let login = None;
            Ok(Some(Heard { request, login }))
        }
    }
}
