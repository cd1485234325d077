//! Texts that go out whole to a writer.
ghost use Rattle.std.specs.Prelude.{◌≡◌, IfErr, OnErr, OnOk};
ghost use Rattle.clr_stream.specs.Streams.{IsCut, WentOut};

use crate::fault::Fault;
use clr_stream::{CountedFlush, write_whole};

/// Writes a text whole, and flushes it.
pub fn write_out<W: CountedFlush>(text: &str, writer: &mut W) -> Result<(), Fault>
    ensures whole { OnOk result (WentOut (W.stream writer.old) (W.stream writer.new) text.now) }
    ensures unfailed { OnOk result
        ((W.stream writer.new).failures ≡ (W.stream writer.old).failures) }
    ensures unstalled { OnOk result
        ((W.stream writer.new).stalls ≡ (W.stream writer.old).stalls) }
    ensures cut { OnErr result (IsCut (W.stream writer.old) (W.stream writer.new) text.now) }
    ensures fault { IfErr result (λ fault. fault ≡ Fault.Output) }
{
    match write_whole(writer, text.as_bytes()) {
        Ok(()) => match writer.flush_counted() {
            Ok(()) => Ok(()),
            Err(_) => Err(Fault::Output),
        },
        Err(_) => Err(Fault::Output),
    }
}
