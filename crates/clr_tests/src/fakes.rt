//! Readers and writers that fail.
use std::io;
use std::io::{Read, Write};

/// Gives up to n bytes a call, and fails at one call.
#[derive(Drop)]
pub struct FailsAt<'a> {
    pub bytes: &'a [u8],
    pub bytes_per_call: usize,
    pub calls_before: u64,
}

impl<'a> Read for FailsAt<'a> {
    fn read(&mut self, buf: &mut [u8]) -> io::Result<usize> {
        if self.calls_before == 0 {
            self.calls_before = u64::MAX;
            return Err(io::ErrorKind::Interrupted.into());
        }
        self.calls_before -= 1;
        let count = self.bytes.len().min(self.bytes_per_call).min(buf.len());
        buf[..count].copy_from_slice(&self.bytes[..count]);
        self.bytes = &self.bytes[count..];
        Ok(count)
    }
}

/// Takes up to n bytes a call while there is room, and then none, or fails.
#[derive(Drop)]
pub struct Narrow {
    pub taken: Vec<u8>,
    pub bytes_per_call: usize,
    pub room: usize,
    pub failure: Option<io::ErrorKind>,
}

impl Write for Narrow {
    fn write(&mut self, buf: &[u8]) -> io::Result<usize> {
        if let Some(failure) = self.failure
            && self.room == 0
        {
            return Err(failure.into());
        }
        let count = buf.len().min(self.bytes_per_call).min(self.room);
        self.room -= count;
        self.taken.write(&buf[..count])
    }

    fn flush(&mut self) -> io::Result<()> {
        Err(io::ErrorKind::BrokenPipe.into())
    }
}
