//! The longest file, and readers that fail.
use crate::fakes::FailsAt;
use clr_csv::{Counted, CountedRead, CsvFault, read_points, read_sections};
use clr_worked::{POINTS, SECTIONS};
use std::alloc::Global;
use std::test::Fail;

/// The fault that was reported, if one was. Out of memory ends the test, of a reader that has not
/// failed.
fn fault_in<T: Drop>(read: Result<T, CsvFault>, failures: u64) -> Result<Option<CsvFault>, Fail> {
    let fault = read.err();
    if fault == Some(CsvFault::NoMemory) && failures == 0 {
        Err(CsvFault::NoMemory.into())
    } else {
        Ok(fault)
    }
}

/// The fault of a file of sections, if it has one.
fn fault_of_sections<R: CountedRead>(
    alloc: Global,
    reader: &mut R,
) -> Result<Option<CsvFault>, Fail> {
    let read = read_sections(alloc, reader);
    fault_in(read, reader.failures())
}

/// The fault of a file of points, if it has one.
fn fault_of_points<R: CountedRead>(
    alloc: Global,
    reader: &mut R,
) -> Result<Option<CsvFault>, Fail> {
    let read = read_points(alloc, reader);
    fault_in(read, reader.failures())
}

#[test]
fn longest_file_reads(rt: HostRuntime) -> Result<(), Fail> {
    let mut file = vec![in rt.alloc(); b'\n'; 4_194_304]?;
    for (place, byte) in SECTIONS.iter().enumerate() {
        if place < file.len() {
            file[place] = *byte;
        }
    }
    for longer_by in 0..3usize {
        let fault = if longer_by == 0 {
            None
        } else {
            Some(CsvFault::TooLong)
        };
        let mut reader = Counted::new(file.as_slice());
        assert_eq!(rt;
            fault_of_sections(rt.alloc(), &mut reader)?,
            fault,
            "longer by {longer_by}"
        );
        assert_eq!(rt; reader.into_inner().len(), longer_by.saturating_sub(1));
        file.push(b'\n')?;
    }
    Ok(())
}

#[test]
fn failures_are_told(rt: HostRuntime) -> Result<(), Fail> {
    // The last call is the one that finds the end.
    let calls = (POINTS.len() as u64).div_ceil(4) + 1;
    for calls_before in 0..=calls {
        let mut reader = Counted::new(FailsAt {
            bytes: POINTS,
            bytes_per_call: 4,
            calls_before,
        });
        let is_read = calls_before == calls;
        let fault = if is_read {
            None
        } else {
            Some(CsvFault::ReadFailed)
        };
        assert_eq!(rt;
            fault_of_points(rt.alloc(), &mut reader)?,
            fault,
            "after {calls_before} calls"
        );
        assert_eq!(rt; reader.failures(), u64::from(!is_read));
    }
    Ok(())
}
