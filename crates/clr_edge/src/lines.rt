//! The lines of a file, one after the other, of which no more is held than the next.
ghost use Rattle.std.specs.Prelude.{◌≡◌, ◌≢◌, ◌≤◌, ◌+◌, ◌∷◌, ◌++◌, Err, IfNone, IfOk, IfSome};
ghost use Rattle.std.specs.Prelude.{IsErrOf, OnErr, [], false, length, position};
ghost use Rattle.std.specs.Io.KnownBytes.{IsAtEnd, Keeps};
ghost use Rattle.std.specs.List.{list_any};
ghost use Rattle.clr_journal.specs.Lines.{ended_lines, is_line_feed};
ghost use Rattle.clr_stream.specs.Failures.{Rose};

use clr_stream::{CountedRead, ReadFault};
use std::alloc::{AllocError, Global};

/// The most bytes of a line.
pub const MAX_LINE_BYTES: usize = 4_194_304;

/// How many bytes are asked for at a time.
const PIECE: usize = 8192;

/// What was read of a file, and not given yet: at most a line and its line feed.
#[derive(Drop)]
pub struct Lines {
    held: Vec<u8>,
    /// How many of these bytes were given.
    given: usize,
    ghost within: { given ≤ length held.items },
    ghost few: { length held.items ≤ given + 4_194_305 },
}

impl Lines {
    ghost use Rattle.clr_edge.specs.Lines.{EndsAs, IsNextLine, IsTooLong, ends_whole, held_of};
    ghost use Rattle.clr_edge.specs.Lines.{left_of};

    /// Nothing was read yet.
    pub fn new(alloc: Global) -> Lines
        ensures { held_of result ≡ [] }
    {
        Lines {
            held: Vec::new(alloc),
            given: 0,
        }
    }

    /// The next line, without its line feed. None at the end of the file: what no line feed ends is
    /// none, and stays held.
    ///
    /// `ReadFailed` where the reader failed, `TooLong` where a line has more than 4,194,304 bytes,
    /// `NoMemory` where memory ran out.
    pub fn next<R: CountedRead>(
        &mut self,
        alloc: Global,
        reader: &mut R,
    ) -> Result<Option<Vec<u8>>, ReadFault>
        ensures line { IfOk result (λ line. IfSome (left_of self.old (R.remaining reader.old))
            (IsNextLine line (left_of self.new (R.remaining reader.new)))) }
        ensures short { IfOk result (λ line.
            IfSome line (λ text. length text.items ≤ 4_194_304)) }
        ensures ends { IfOk result (λ _. IfSome (left_of self.old (R.remaining reader.old))
            (EndsAs (left_of self.new (R.remaining reader.new)))) }
        ensures none { IfOk result (λ line. IfNone line (IsAtEnd (R.remaining reader.new))) }
        ensures long { IsErrOf result ReadFault.TooLong
            → IfSome (left_of self.old (R.remaining reader.old)) IsTooLong }
        ensures cause { IsErrOf result ReadFault.ReadFailed
            → Rose (R.failure_count reader.old) (R.failure_count reader.new) }
        ensures others { result ≢ Err ReadFault.ReadFailed
            → R.failure_count reader.new ≡ R.failure_count reader.old }
    {
        while self.held.len() - self.given <= MAX_LINE_BYTES {
            if let Some(line) = self.take_line(alloc)? {
                return Ok(Some(line));
            }
            self.forget(alloc)?;
            if self.read_on(reader)? == 0 {
                return Ok(None);
            }
        }
        match self.take_line(alloc)? {
            Some(line) => Ok(Some(line)),
            None => Err(ReadFault::TooLong),
        }
    }

    /// Whether what is held ends whole. At the end of a file this is whether the file does.
    pub fn ends_whole(&self) -> bool
        ensures { result ≡ ends_whole (held_of self.now) }
    {
        match self.held[self.given..].last() {
            Some(byte) => *byte == b'\n',
            None => true,
        }
    }

    /// The next line of what is held, if a line feed ends it there.
    fn take_line(&mut self, alloc: Global) -> Result<Option<Vec<u8>>, AllocError>
        ensures some { IfOk result (λ line. IfSome line (λ text.
            held_of self.old ≡ text.items ++ 10 ∷ held_of self.new)) }
        ensures one { IfOk result (λ line. IfSome line (λ text.
            list_any is_line_feed text.items ≡ false)) }
        ensures short { IfOk result (λ line.
            IfSome line (λ text. length text.items ≤ 4_194_304)) }
        ensures none { IfOk result (λ line. IfNone line
            ((self.new ≡ self.old) × (ended_lines (held_of self.old) ≡ []))) }
        ensures failed { OnErr result (self.new ≡ self.old) }
    {
        let rest = &self.held[self.given..];
        match feed_at(rest) {
            Some(end) => {
                let line = Vec::from_slice(alloc, &rest[..end])?;
                self.given += end + 1;
                Ok(Some(line))
            }
            None => Ok(None),
        }
    }

    /// Gives up the room of what was given.
    fn forget(&mut self, alloc: Global) -> Result<(), AllocError>
        ensures held { held_of self.new ≡ held_of self.old }
    {
        if self.given > 0 {
            let rest = Vec::from_slice(alloc, &self.held[self.given..])?;
            *self = Lines {
                held: rest,
                given: 0,
            };
        }
        Ok(())
    }

    /// Reads on, and says how many bytes there were: none at the end of the file.
    fn read_on<R: CountedRead>(&mut self, reader: &mut R) -> Result<usize, ReadFault>
        requires { length (held_of self.old) ≤ 4_194_304 }
        ensures left { IfOk result (λ _. Keeps (left_of self.old (R.remaining reader.old))
            (left_of self.new (R.remaining reader.new))) }
        ensures more { IfOk result (λ count.
            length (held_of self.new) ≡ length (held_of self.old) + count) }
        ensures end { IfOk result (λ count. count ≡ 0
            → (held_of self.new ≡ held_of self.old) × IsAtEnd (R.remaining reader.new)) }
        ensures fault { result ≢ Err ReadFault.TooLong }
        ensures cause { IsErrOf result ReadFault.ReadFailed
            → Rose (R.failure_count reader.old) (R.failure_count reader.new) }
        ensures others { result ≢ Err ReadFault.ReadFailed
            → R.failure_count reader.new ≡ R.failure_count reader.old }
    {
        let mut piece = [0; PIECE];
        let room = PIECE.min(MAX_LINE_BYTES + 1 - (self.held.len() - self.given));
        let Ok(count) = reader.read_counted(&mut piece[..room]) else {
            return Err(ReadFault::ReadFailed);
        };
        self.held.extend_from_slice(&piece[..count])?;
        Ok(count)
    }
}

/// Where the first line feed is.
fn feed_at(text: &[u8]) -> Option<usize>
    ensures { result ≡ position is_line_feed text.now }
{
    text.iter().position(|byte| *byte == b'\n')
}
