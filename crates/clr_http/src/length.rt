//! The length of a command's body, as the fields of the head give it.
ghost use Rattle.std.specs.Prelude.{◌≡◌, ◌≤◌, All, Ok, Err, None, Some, codes, filter};
ghost use Rattle.std.specs.Prelude.{if◌then◌else◌, length, map};
ghost use Rattle.std.specs.Char.{is_ascii_digit};
ghost use Rattle.std.specs.List.{list_all};
ghost use Rattle.std.specs.Str.Parse.{digits_value};
ghost use Rattle.httparse.specs.Spans.{IsHeaderWithin, header_bytes, span_bytes};
ghost use Rattle.clr_http.specs.Fields.{is_called};
ghost use Rattle.clr_http.specs.Length.{body_length, is_length, length_of_fields};
ghost use Rattle.clr_http.specs.Length.{read_length};

use crate::fields::{has_field, is_called};
use httparse::spans::HeaderSpan;
use std::str::from_utf8;

/// The most bytes of a body.
pub(crate) const MAX_BODY_BYTES: u64 = 65_536;

/// Why the head gives no length of a body.
#[derive(Clone, Copy)]
pub(crate) enum LengthFault {
    /// There is a `Transfer-Encoding`, or no `Content-Length`.
    NoLength,
    /// There are several `Content-Length`s, or one that is not 1 to 10 digits.
    BadLength,
    /// The length is over 65,536.
    BodyTooLarge,
}

/// The length that a value gives.
fn read_length(value: &[u8]) -> Result<usize, LengthFault>
    ensures { result ≡ read_length value.now }
{
    match read_digits(value) {
        None => Err(LengthFault::BadLength),
        Some(n) if n > MAX_BODY_BYTES => Err(LengthFault::BodyTooLarge),
        Some(n) => Ok(n as usize),
    }
}

/// The number that 1 to 10 digits write.
fn read_digits(value: &[u8]) -> Option<u64>
    ensures { result ≡ (if is_length value.now then Some (digits_value 10 value.now) else None) }
{
    if !is_length(value) {
        return None;
    }
    let Ok(text) = from_utf8(value) else {
        return None;
    };
    text.parse().ok()
}

/// Whether all bytes are digits.
pub(crate) fn all_digits(value: &[u8]) -> bool
    ensures { result ≡ list_all is_ascii_digit value.now }
{
    value.iter().all(|b| b.is_ascii_digit())
}

/// Whether a value is 1 to 10 digits.
fn is_length(value: &[u8]) -> bool
    ensures { result ≡ is_length value.now }
{
    1 <= value.len() && value.len() <= 10 && all_digits(value)
}

/// What the one field `Content-Length` gives.
fn only_length(buffer: &[u8], headers: &[HeaderSpan]) -> Result<usize, LengthFault>
    requires { All (IsHeaderWithin (length buffer.now)) headers.now }
    ensures { result ≡ length_of_fields (filter (is_called (codes "content-length"))
        (map (header_bytes buffer.now) headers.now)) }
{
    match headers {
        [] => Err(LengthFault::NoLength),
        [first, rest @ ..] => {
            if !is_called(buffer, *first, "content-length") {
                return only_length(buffer, rest);
            }
            if has_field(buffer, rest, "content-length") {
                return Err(LengthFault::BadLength);
            }
            read_length(first.value.of(buffer))
        }
    }
}

/// The length of the body of a command, by the fields of the head, which lie in the buffer.
pub(crate) fn body_length(buffer: &[u8], headers: &[HeaderSpan]) -> Result<usize, LengthFault>
    requires { All (IsHeaderWithin (length buffer.now)) headers.now }
    ensures { result ≡ body_length (map (header_bytes buffer.now) headers.now) }
{
    if has_field(buffer, headers, "transfer-encoding") {
        return Err(LengthFault::NoLength);
    }
    only_length(buffer, headers)
}
