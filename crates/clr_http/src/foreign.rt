//! Requests that a page of elsewhere may have sent.
ghost use Rattle.std.specs.Prelude.{◌≡◌, All, length, map, option_map};
ghost use Rattle.httparse.specs.Spans.{IsHeaderWithin, header_bytes};
ghost use Rattle.clr_http.specs.Foreign.{is_foreign, is_of_host, is_own, is_own_host, is_port};

use crate::fields::{has_field, only_field};
use crate::length::all_digits;
use httparse::spans::HeaderSpan;

/// Whether a text is nothing, or a colon and a port of 1 to 5 digits.
fn is_port(text: &[u8]) -> bool
    ensures { result ≡ is_port text.now }
{
    match text {
        [] => true,
        [colon, digits @ ..] => {
            *colon == b':' && 1 <= digits.len() && digits.len() <= 5 && all_digits(digits)
        }
    }
}

/// Whether a value is the name of a host, without regard to ASCII case, with its port or without.
fn is_of_host(value: &[u8], name: &[u8]) -> bool
    ensures { result ≡ is_of_host value.now name.now }
{
    if value.len() < name.len() {
        return false;
    }
    let (host, port) = value.split_at(name.len());
    host.eq_ignore_ascii_case(name) && is_port(port)
}

/// Whether a value is the host of this machine.
fn is_own_host(value: &[u8]) -> bool
    ensures { result ≡ is_own_host value.now }
{
    is_of_host(value, b"127.0.0.1")
        || is_of_host(value, b"localhost")
        || is_of_host(value, b"[::1]")
}

/// Whether the one value of `Host` is the host of this machine.
fn is_own(value: Option<&[u8]>) -> bool
    ensures { result ≡ is_own (option_map (λ v. v.now) value.entry) }
{
    match value {
        Some(value) => is_own_host(value),
        None => false,
    }
}

/// Whether a page of elsewhere may have sent a request with these fields, which lie in the buffer.
pub(crate) fn is_foreign(buffer: &[u8], headers: &[HeaderSpan]) -> bool
    requires { All (IsHeaderWithin (length buffer.now)) headers.now }
    ensures { result ≡ is_foreign (map (header_bytes buffer.now) headers.now) }
{
    !is_own(only_field(buffer, headers, "host"))
        || has_field(buffer, headers, "origin")
        || has_field(buffer, headers, "sec-fetch-site")
}
