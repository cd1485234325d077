//! Bytes that are read whole, and bytes that are written whole.
ghost use Rattle.std.specs.Prelude.{◌≡◌, ◌≢◌, ◌+◌, ◌^◌, ◌<◌, Err, IsErrOf, IfErr, IfSome, OnOk};
ghost use Rattle.clr_stream.specs.Failures.{Rose};
ghost use Rattle.clr_stream.specs.Streams.{WrotePart, WroteAll};
ghost use Rattle.clr_stream.specs.Whole.{GivesWhole, TakesAtMost};

use crate::counted::{CountedRead, CountedWrite};
use crate::fault::ReadFault;
use std::alloc::Global;

/// How many bytes are asked for at a time.
const PIECE: usize = 8192;

/// Reads a reader to its end, before any of the bytes is looked at, if they are at most `limit`.
///
/// No failure is tried again. Of a reader with more bytes one byte past the limit is taken.
pub fn read_whole<R: CountedRead>(
    alloc: Global,
    reader: &mut R,
    limit: usize,
) -> Result<Vec<u8>, ReadFault>
    requires { limit + 1 < 2 ^ 64 }
    ensures bytes { IfSome (R.remaining reader.old) (λ bytes.
        GivesWhole (λ read. read.items) limit bytes result) }
    ensures bounded { TakesAtMost (limit + 1) (R.remaining reader.old) (R.remaining reader.new) }
    ensures cause { IsErrOf result ReadFault.ReadFailed
        → Rose (R.failure_count reader.old) (R.failure_count reader.new) }
    ensures others { result ≢ Err ReadFault.ReadFailed
        → R.failure_count reader.new ≡ R.failure_count reader.old }
{
    let mut bytes = Vec::new(alloc);
    let mut piece = [0; PIECE];
    while bytes.len() <= limit {
        let room = PIECE.min(limit + 1 - bytes.len());
        let Ok(count) = reader.read_counted(&mut piece[..room]) else {
            return Err(ReadFault::ReadFailed);
        };
        if count == 0 {
            return Ok(bytes);
        }
        bytes.extend_from_slice(&piece[..count])?;
    }
    Err(ReadFault::TooLong)
}

/// Writes all these bytes. `Err` has how many of them, from the first on, went out, where a write
/// failed or took no byte. No failure is tried again.
pub fn write_whole<W: CountedWrite>(writer: &mut W, bytes: &[u8]) -> Result<(), usize>
    ensures whole { OnOk result
        (WroteAll bytes.now (W.stream writer.old) (W.stream writer.new)) }
    ensures part { IfErr result (λ count.
        WrotePart count bytes.now (W.stream writer.old) (W.stream writer.new)) }
{
    let mut written = 0;
    while written < bytes.len() {
        match writer.write_counted(&bytes[written..]) {
            Ok(0) => return Err(written),
            Ok(count) => written += count,
            Err(_) => return Err(written),
        }
    }
    Ok(())
}
