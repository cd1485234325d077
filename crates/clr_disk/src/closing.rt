//! The end of a connection, which loses no response that went out.
ghost use Rattle.std.specs.Prelude.{◌≤◌, ◌-◌};
ghost use Rattle.clr_stream.specs.Whole.{TakesAtMost};

use crate::timed::Timed;
use std::io::Read;
use std::net::{Shutdown, TcpStream};
use std::rt::Clock;

/// The most bytes that are read on after a response.
const MAX_LATE_BYTES: usize = 65_536;

/// How many bytes are asked for at a time.
const PIECE: usize = 4096;

impl<K: Clock + Drop> Timed<TcpStream, K> {
    /// Ends a connection after its response. A socket that is closed while bytes of its peer are
    /// unread takes back what it sent. So nothing more is sent, and at most 65,536 bytes are read
    /// on, which are not looked at.
    ///
    /// Where more is expected and there is a limit, what comes up to the end of the peer or up to
    /// the limit is read; otherwise what is there.
    pub fn end(self, is_expected: bool) {
        let mut timed = self;
        if timed.stream.shutdown(Shutdown::Write).is_err() {
            return;
        }
        let mut room = MAX_LATE_BYTES;
        if is_expected && timed.limit.is_some() {
            room = read_on(&mut timed, room);
        }
        if timed.stream.set_nonblocking(true).is_ok() {
            let _ = read_on(&mut timed.stream, room);
        }
    }
}

/// Reads on to the end of a reader, up to this number of bytes, or until it fails. Gives how many
/// more may be read.
#[tactic(auto, using(crate::proofs::Taken::none_taken, crate::proofs::Taken::more_taken, crate::proofs::Taken::last_taken))]
pub(crate) fn read_on<R: Read>(reader: &mut R, most: usize) -> usize
    ensures within { result ≤ most }
    ensures taken { TakesAtMost (most - result) (R.remaining reader.old)
        (R.remaining reader.new) }
{
    let mut room = most;
    while room > 0 {
        let count = read_some(reader, room);
        if count == 0 {
            return room;
        }
        room -= count;
    }
    room
}

/// Reads once, up to this number of bytes. Gives how many came, none where it failed.
#[tactic(auto, using(crate::proofs::Taken::read_taken, crate::proofs::Taken::failed_taken))]
fn read_some<R: Read>(reader: &mut R, most: usize) -> usize
    ensures within { result ≤ most }
    ensures taken { TakesAtMost result (R.remaining reader.old) (R.remaining reader.new) }
{
    let mut piece = [0u8; PIECE];
    match reader.read(&mut piece[..most.min(PIECE)]) {
        Ok(count) => count,
        Err(_) => 0,
    }
}
