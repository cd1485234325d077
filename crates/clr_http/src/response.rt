//! The response: its status, what it carries, and its bytes.
ghost use Rattle.std.specs.Prelude.{◌≡◌, ◌++◌, IfOk, length, string_bytes};
ghost use Rattle.clr_http.specs.Response.{allow, content_of, fault_body, fault_status, fault_word};
ghost use Rattle.clr_http.specs.Response.{fields_text, first_line, method_word, response_bytes};
ghost use Rattle.clr_http.specs.Response.{phrase_of, status_of, fault_response, whole_text};
ghost use Rattle.clr_http.specs.declared.response.Fault.TheVariants.{Unavailable};

use http::StatusCode;
use std::alloc::{AllocError, Global};

/// Why a request is refused by the service, and not by the register.
#[derive(Clone, Copy)]
pub(crate) enum Fault {
    /// The bytes are no head: 400.
    BadHead,
    /// The head has more than 8,192 bytes or 64 fields: 400.
    HeadTooLarge,
    /// The input ends within the head: 400.
    HeadCut,
    /// No route is the target's: 404.
    NoRoute,
    /// A command without a `Content-Length`, or with a `Transfer-Encoding`: 411.
    NoLength,
    /// Several `Content-Length`s, or one that is not 1 to 10 digits: 400.
    BadLength,
    /// The body has more than 65,536 bytes: 413.
    BodyTooLarge,
    /// The input ends within the body: 400.
    BodyCut,
    /// The path names no clearance, order or round that is there: 404.
    NoSuch,
    /// The staff has nobody who gives a command of the way back: 409.
    NoWay,
    /// The store or memory refused: 503. The command did not come into the register.
    Unavailable,
    /// A page of elsewhere may have sent the request: 403.
    Foreign,
    /// A command or a view in a name that the login of the request may not use: 403.
    NotCaller,
}

impl Fault {
    /// The status of the response.
    pub(crate) fn status(self) -> StatusCode
        ensures { result ≡ fault_status self }
    {
        match self {
            Fault::BadHead | Fault::HeadTooLarge | Fault::HeadCut => StatusCode::BAD_REQUEST,
            Fault::BadLength | Fault::BodyCut => StatusCode::BAD_REQUEST,
            Fault::NoRoute | Fault::NoSuch => StatusCode::NOT_FOUND,
            Fault::NoWay => StatusCode::CONFLICT,
            Fault::NoLength => StatusCode::LENGTH_REQUIRED,
            Fault::BodyTooLarge => StatusCode::PAYLOAD_TOO_LARGE,
            Fault::Unavailable => StatusCode::SERVICE_UNAVAILABLE,
            Fault::Foreign | Fault::NotCaller => StatusCode::FORBIDDEN,
        }
    }

    /// The word in the body of the response.
    pub(crate) fn word(self) -> &'static str
        ensures { result.now ≡ fault_word self }
    {
        match self {
            Fault::BadHead => "BadHead",
            Fault::HeadTooLarge => "HeadTooLarge",
            Fault::HeadCut => "HeadCut",
            Fault::NoRoute => "NoRoute",
            Fault::NoLength => "NoLength",
            Fault::BadLength => "BadLength",
            Fault::BodyTooLarge => "BodyTooLarge",
            Fault::BodyCut => "BodyCut",
            Fault::NoSuch => "NoSuch",
            Fault::NoWay => "NoWay",
            Fault::Unavailable => "Unavailable",
            Fault::Foreign => "Foreign",
            Fault::NotCaller => "NotCaller",
        }
    }
}

/// The methods of the routes.
#[derive(Clone, Copy)]
pub(crate) enum Method {
    Get,
    Post,
}

impl Method {
    /// The method's word in a request line.
    pub(crate) fn word(self) -> &'static str
        ensures { result.now ≡ method_word self }
    {
        match self {
            Method::Get => "GET",
            Method::Post => "POST",
        }
    }
}

/// What is answered to a request.
#[derive(Drop)]
pub(crate) enum Response {
    /// A JSON text, and the status.
    Json(StatusCode, String),
    /// A printed text: 200.
    Printed(String),
    /// The route has another method, this one: 405.
    Allow(Method),
    /// The store or memory refused: 503. It takes no memory, to be made or to be written.
    Unavailable,
}

impl Response {
    /// The response that reports a fault.
    pub(crate) fn of_fault(alloc: Global, fault: Fault) -> Result<Response, AllocError>
        ensures { IfOk result (λ r. content_of r ≡ fault_response fault) }
    {
        let word = fault.word();
        let text = format!(in alloc; "{{\"fault\":\"{word}\"}}")?;
        Ok(Response::Json(fault.status(), text))
    }

    /// The status.
    pub(crate) fn status(&self) -> StatusCode
        ensures { result ≡ status_of (content_of self.now) }
    {
        match self {
            Response::Json(status, _) => *status,
            Response::Printed(_) => StatusCode::OK,
            Response::Allow(_) => StatusCode::METHOD_NOT_ALLOWED,
            Response::Unavailable => StatusCode::SERVICE_UNAVAILABLE,
        }
    }

    /// The bytes that go out.
    pub(crate) fn text(&self, alloc: Global) -> Result<String, AllocError>
        ensures { IfOk result (λ text. string_bytes text ≡ response_bytes (content_of self.now)) }
    {
        match self {
            Response::Json(status, text) => with_body(alloc, *status, "application/json", text),
            Response::Printed(text) => with_body(alloc, StatusCode::OK, "text/plain", text),
            Response::Allow(method) => without_body(alloc, *method),
            Response::Unavailable => String::from_str(alloc, unavailable_text()),
        }
    }
}

/// The bytes of the response `Unavailable`, which the program contains.
pub(crate) fn unavailable_text() -> &'static str
    ensures { result.now ≡ response_bytes (fault_response Unavailable) }
{
    "HTTP/1.1 503 Service Unavailable\r\nContent-Type: application/json\r\nContent-Length: 23\r\n\
    Connection: close\r\n\r\n{\"fault\":\"Unavailable\"}"
}

/// The phrase of a status, or nothing where it has none.
fn phrase_of(status: StatusCode) -> &'static str
    ensures { result.now ≡ phrase_of status }
{
    match status.canonical_reason() {
        Some(reason) => reason,
        None => "",
    }
}

/// The first line of a response, as far as its end.
fn first_line(alloc: Global, code: u16, phrase: &str) -> Result<String, AllocError>
    ensures { IfOk result (λ text. string_bytes text ≡ first_line code phrase.now) }
{
    format!(in alloc; "HTTP/1.1 {code} {phrase}")
}

/// The fields of a response with a body of this type and length.
fn fields_text(alloc: Global, kind: &str, length: usize) -> Result<String, AllocError>
    ensures { IfOk result (λ text. string_bytes text ≡ fields_text kind.now length) }
{
    format!(in alloc;
        "\r\nContent-Type: {kind}\r\nContent-Length: {length}\r\nConnection: close\r\n\r\n"
    )
}

/// A response with this first line and a body of this type.
fn text_of(
    alloc: Global,
    code: u16,
    phrase: &str,
    kind: &str,
    body: &str,
) -> Result<String, AllocError>
    ensures { IfOk result (λ text. string_bytes text
        ≡ (first_line code phrase.now ++ fields_text kind.now (length body.now)) ++ body.now) }
{
    let mut text = first_line(alloc, code, phrase)?;
    let fields = fields_text(alloc, kind, body.len())?;
    text.push_str(&fields)?;
    text.push_str(body)?;
    Ok(text)
}

/// A response with a body of this type.
fn with_body(
    alloc: Global,
    status: StatusCode,
    kind: &str,
    body: &str,
) -> Result<String, AllocError>
    ensures { IfOk result (λ text. string_bytes text ≡ whole_text status kind.now body.now) }
{
    text_of(alloc, status.as_u16(), phrase_of(status), kind, body)
}

/// The response to another method than the route's.
fn without_body(alloc: Global, method: Method) -> Result<String, AllocError>
    ensures { IfOk result (λ text. string_bytes text ≡ response_bytes (allow method)) }
{
    let word = method.word();
    format!(in alloc;
        "HTTP/1.1 405 Method Not Allowed\r\nAllow: {word}\r\n\
        Content-Length: 0\r\nConnection: close\r\n\r\n"
    )
}
