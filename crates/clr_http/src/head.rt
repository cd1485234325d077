//! The head of a request: its request line and its fields.
ghost use Rattle.std.specs.Prelude.{◌≡◌, ◌≢◌, ◌+◌, [], ℕ, List, Option, ◌≤◌, ◌<◌, length, vec_len};
ghost use Rattle.std.specs.Prelude.{Err, IfOk, IfErr, OnErr, IfSome, Ok, None, take};
ghost use Rattle.std.specs.Io.KnownBytes.{Consumes, IsAtEnd};
ghost use Rattle.clr_stream.specs.Failures.{Rose};
ghost use Rattle.clr_http.specs.Head.{HasHead, Explains, IsOutside};
ghost use Rattle.httparse.specs.Grammar.{HasNoRequest};
ghost use Rattle.httparse.specs.Spans.{IsRequestOf, IsRequestWithin, RequestOverflows};

use clr_stream::CountedRead;
use httparse::spans::{HeaderSpan, RequestSpans, parse_request};
use httparse::{Error, Status};

/// The most bytes of a head.
pub(crate) const MAX_HEAD_BYTES: usize = 8192;

/// The most fields of a head.
pub(crate) const MAX_FIELDS: usize = 64;

/// Why no head was read.
#[derive(Clone, Copy)]
pub(crate) enum HeadFault {
    /// The bytes are no head, whatever follows them.
    BadHead,
    /// There are more than 8,192 bytes or 64 fields.
    HeadTooLarge,
    /// The input ends within the head.
    HeadCut,
    /// The reader failed.
    ReadFailed,
    /// Memory ran out.
    NoMemory,
}

/// Reads some bytes to the end of the buffer, which is to have at most `most`. None are read only
/// at the end of the input.
pub(crate) fn fill<R: CountedRead>(
    reader: &mut R,
    buffer: &mut Vec<u8>,
    most: usize,
) -> Result<usize, HeadFault>
    requires { vec_len buffer.old < most }
    ensures taken { (first : Option (List ℕ))
        → Consumes first (R.remaining reader.old) buffer.old.items
        → Consumes first (R.remaining reader.new) buffer.new.items }
    ensures grows { IfOk result (λ n. vec_len buffer.new ≡ vec_len buffer.old + n) }
    ensures within { vec_len buffer.new ≤ most }
    ensures kept { take (vec_len buffer.old) buffer.new.items ≡ buffer.old.items }
    ensures end { result ≡ Ok 0 → (buffer.new.items ≡ buffer.old.items)
        × IsAtEnd (R.remaining reader.new) }
    ensures fault { IfErr result (λ e. IsOutside e) }
    ensures calm { IfOk result (λ n. R.failure_count reader.new ≡ R.failure_count reader.old) }
    ensures cause { result ≡ Err HeadFault.ReadFailed
        → Rose (R.failure_count reader.old) (R.failure_count reader.new) }
{
    let mut chunk = [0u8; 1024];
    let room = (most - buffer.len()).min(1024);
    if buffer.reserve(room).is_err() {
        return Err(HeadFault::NoMemory);
    }
    let Ok(count) = reader.read_counted(&mut chunk[..room]) else {
        return Err(HeadFault::ReadFailed);
    };
    if buffer.extend_from_slice(&chunk[..count]).is_err() {
        return Err(HeadFault::NoMemory);
    }
    Ok(count)
}

/// Looks for the head at the front of the buffer. `None` where more bytes can make one.
fn head_in(buffer: &[u8], headers: &mut [HeaderSpan]) -> Result<Option<RequestSpans>, HeadFault>
    requires { length headers.old ≡ 64 }
    ensures head { IfOk result (λ o. IfSome o (IsRequestOf buffer.now headers.new)) }
    ensures within { IfOk result (λ o. IfSome o (IsRequestWithin buffer.now headers.new)) }
    ensures partial { result ≡ Ok None → HasNoRequest buffer.now }
    ensures fault { IfErr result (λ e. (left : Option (List ℕ)) → Explains e buffer.now left) }
    ensures never { OnErr result (RequestOverflows 64 buffer.now) }
    ensures bytes { result ≢ Err HeadFault.ReadFailed }
{
    match parse_request(buffer, headers) {
        Ok(Status::Complete(spans)) => Ok(Some(spans)),
        Ok(Status::Partial) => Ok(None),
        Err(Error::TooManyHeaders) => Err(HeadFault::HeadTooLarge),
        Err(_) => Err(HeadFault::BadHead),
    }
}

/// Reads as far as the end of the head, or further. `None` where the input is empty.
pub(crate) fn read_head<R: CountedRead>(
    reader: &mut R,
    buffer: &mut Vec<u8>,
    headers: &mut [HeaderSpan],
) -> Result<Option<RequestSpans>, HeadFault>
    requires empty { buffer.old.items ≡ [] }
    requires room { length headers.old ≡ 64 }
    ensures taken { Consumes (R.remaining reader.old) (R.remaining reader.new) buffer.new.items }
    ensures size { vec_len buffer.new ≤ 8192 }
    ensures head { IfOk result (λ o. IfSome o (IsRequestOf buffer.new.items headers.new)) }
    ensures within { IfOk result (λ o. IfSome o (IsRequestWithin buffer.new.items headers.new)) }
    ensures room { length headers.new ≡ 64 }
    ensures nothing { result ≡ Ok None → (buffer.new.items ≡ [])
        × IsAtEnd (R.remaining reader.new) }
    ensures fault { IfErr result (λ e. Explains e buffer.new.items (R.remaining reader.new)) }
    ensures begun { IfErr result (λ e. vec_len buffer.new ≡ 0 → IsOutside e) }
    ensures found { HasHead (R.remaining reader.old) → IfErr result IsOutside }
    ensures calm { IfOk result (λ o. R.failure_count reader.new ≡ R.failure_count reader.old) }
    ensures cause { result ≡ Err HeadFault.ReadFailed
        → Rose (R.failure_count reader.old) (R.failure_count reader.new) }
{
    while buffer.len() < MAX_HEAD_BYTES {
        let count = fill(reader, buffer, MAX_HEAD_BYTES)?;
        if count == 0 {
            if buffer.is_empty() {
                return Ok(None);
            }
            return Err(HeadFault::HeadCut);
        }
        if let Some(spans) = head_in(buffer.as_slice(), headers)? {
            return Ok(Some(spans));
        }
    }
    Err(HeadFault::HeadTooLarge)
}
