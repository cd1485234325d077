//! Bytes written to writers that count: full, interrupted, or broken in mid-stream.
use crate::fakes::Narrow;
use clr_stream::{Counted, CountedFlush, CountedWrite, write_whole};
use std::alloc::{AllocError, Global};
use std::io;
use std::test::Fail;

const TEXT: &[u8] = b"JONES/1 Ordered L2\n";

/// A writer with room for n bytes of the text.
fn narrow(
    alloc: Global,
    room: usize,
    failure: Option<io::ErrorKind>,
) -> Result<Counted<Narrow>, AllocError> {
    Ok(Counted::new(Narrow {
        taken: Vec::with_capacity(alloc, TEXT.len())?,
        bytes_per_call: 3,
        room,
        failure,
    }))
}

#[test]
fn broken_and_full_writers_are_told(rt: HostRuntime) -> Result<(), Fail> {
    let failures = [
        Some(io::ErrorKind::BrokenPipe),
        Some(io::ErrorKind::Interrupted),
        None,
    ];
    for room in 0..TEXT.len() {
        for failure in failures {
            let mut writer = narrow(rt.alloc(), room, failure)?;
            assert_eq!(rt; write_whole(&mut writer, TEXT), Err(room));
            assert_eq!(rt; writer.failures(), u64::from(failure.is_some()));
            assert_eq!(rt; writer.into_inner().taken.as_slice(), &TEXT[..room]);
        }
    }
    let mut writer = narrow(rt.alloc(), TEXT.len(), None)?;
    assert_eq!(rt; write_whole(&mut writer, TEXT), Ok(()));
    assert!(rt; writer.flush_counted().is_err());
    assert_eq!(rt; writer.failures(), 1);
    assert_eq!(rt; writer.into_inner().taken.as_slice(), TEXT);
    Ok(())
}
