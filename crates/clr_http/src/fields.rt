//! The fields of a head, as the checks look at them.
ghost use Rattle.std.specs.Prelude.{◌≡◌, All, None, Some, length, map, option_map};
ghost use Rattle.std.specs.List.{list_any};
ghost use Rattle.httparse.specs.Spans.{IsHeaderWithin, header_bytes, span_bytes};
ghost use Rattle.clr_http.specs.Fields.{is_called, only_field};

use httparse::spans::HeaderSpan;

/// Whether a field has this name, without regard to ASCII case.
pub(crate) fn is_called(buffer: &[u8], header: HeaderSpan, name: &str) -> bool
    requires { IsHeaderWithin (length buffer.now) header }
    ensures { result ≡ is_called name.now (header_bytes buffer.now header) }
{
    let bytes = header.name.of(buffer);
    bytes.eq_ignore_ascii_case(name.as_bytes())
}

/// Whether one of these fields has this name.
pub(crate) fn has_field(buffer: &[u8], headers: &[HeaderSpan], name: &str) -> bool
    requires { All (IsHeaderWithin (length buffer.now)) headers.now }
    ensures { result ≡ list_any (is_called name.now) (map (header_bytes buffer.now) headers.now) }
{
    match headers {
        [] => false,
        [first, rest @ ..] => is_called(buffer, *first, name) || has_field(buffer, rest, name),
    }
}

/// The value of the one field of this name. `None` where there is none, or several.
pub(crate) fn only_field<'b>(
    buffer: &'b [u8],
    headers: &[HeaderSpan],
    name: &str,
) -> Option<&'b [u8]>
    requires { All (IsHeaderWithin (length buffer.now)) headers.now }
    ensures { option_map (λ value. value.now) result
        ≡ only_field name.now (map (header_bytes buffer.now) headers.now) }
{
    match headers {
        [] => None,
        [first, rest @ ..] => {
            if !is_called(buffer, *first, name) {
                return only_field(buffer, rest, name);
            }
            if has_field(buffer, rest, name) {
                return None;
            }
            Some(first.value.of(buffer))
        }
    }
}
