//! The parts of a journal, at their paths, each read line by line.
ghost use Rattle.std.specs.Prelude.{◌≡◌, IfErr, IfNone, IfOk, IfSome, None, OnOk, Some};
ghost use Rattle.std.specs.Io.KnownBytes.{IsAtEnd};
ghost use Rattle.clr_chain.specs.First.{other_rules_in, read_first};
ghost use Rattle.clr_chain.specs.Walking.{part_of};
ghost use Rattle.clr_edge.specs.Lines.{ends_whole};
ghost use Rattle.clr_keeping.specs.Parts.{FailsLater, FailsPart, FirstIs, GoesOn, IsOfPart};
ghost use Rattle.clr_keeping.specs.Parts.{IsNoFirst, IsNoNext, IsNoPart, IsOfReading, IsOfRules};
ghost use Rattle.clr_keeping.specs.Parts.{IsOpened, IsUnreadOr, IsUnreadPart, ReadsLine};
ghost use Rattle.clr_keeping.specs.Parts.{left_in};

use clr_chain::{Walk, other_rules_in, read_first};
use clr_csv::CsvFault;
use clr_edge::fault::{Fault, JournalFault};
use clr_edge::files::Source;
use clr_edge::lines::Lines;
use clr_edge::paths::Opens;
use clr_rules::Place;
use clr_stream::ReadFault;
use std::alloc::Global;

/// A part of a journal that is read line by line.
#[derive(Drop)]
pub struct Part<S: Source + Drop> {
    source: S,
    lines: Lines,
}

impl<S: Source + Drop> Part<S> {
    /// The next line, without its line feed; none at the end. What no line feed ends is none.
    pub fn line(&mut self, alloc: Global) -> Result<Option<Vec<u8>>, Fault>
        ensures line { IfOk result (λ line. IfSome (left_in S.remaining self.old)
            (ReadsLine line (left_in S.remaining self.new))) }
        ensures none { IfOk result (λ line. IfNone line (IsAtEnd (S.remaining self.new.source))) }
        ensures kept { OnOk result
            (S.failure_count self.new.source ≡ S.failure_count self.old.source) }
        ensures fault { IfErr result IsOfPart }
        ensures reading { IfErr result IsOfReading }
        ensures unread { IfErr result (FailsLater S.failure_count self.old.source) }
    {
        match self.lines.next(alloc, &mut self.source) {
            Ok(line) => Ok(line),
            Err(ReadFault::ReadFailed) => Err(Fault::Journal(JournalFault::ReadFailed)),
            Err(ReadFault::TooLong) => Err(Fault::Journal(JournalFault::TooLong)),
            Err(ReadFault::NoMemory) => Err(Fault::Memory),
        }
    }

    /// Whether the part ends whole, once all its lines were read: no half a line is left.
    pub fn ends_whole(&self) -> bool
        ensures { IsAtEnd (S.remaining self.now.source)
            → IfSome (left_in S.remaining self.now) (λ bytes. result ≡ ends_whole bytes) }
    {
        self.lines.ends_whole()
    }
}

/// The first part of a journal, at a path, with the place that its first line is.
///
/// `BadLine(0)` where that is none, `OtherRules` where it is one by other rules.
pub fn first_part<'a, O: Opens<'a>>(
    alloc: Global,
    paths: &O,
    path: &'a str,
) -> Result<(Part<O::File>, Place), Fault>
    ensures first { IfOk result (λ found. IfSome (O.bytes_at paths.now path.entry.now)
        (FirstIs found.1 (left_in O.File.remaining found.0))) }
    ensures opened { IfOk result (λ found. IsOpened O.File.remaining O.File.failure_count
        (O.bytes_at paths.now path.entry.now) (O.File.failure_count found.0.source)) }
    ensures fault { IfErr result IsOfPart }
    ensures refused { IfErr result
        (IsUnreadOr IsNoFirst (O.bytes_at paths.now path.entry.now)) }
    ensures unread { IfErr result (FailsPart O.File.remaining O.File.failure_count
        (O.bytes_at paths.now path.entry.now)) }
{
    let (part, line) = opened_part(alloc, paths, path)?;
    match read_first(alloc, &line)? {
        Some(first) => Ok((part, first)),
        None => Err(Fault::Journal(JournalFault::BadLine(0))),
    }
}

/// A further part of a journal, which goes on where a walk has come to.
///
/// `BadLine` with the number that the walk has come to where it does not go on, `OtherRules` where
/// it goes by other rules.
pub fn next_part<'a, O: Opens<'a>>(
    alloc: Global,
    paths: &O,
    path: &'a str,
    walk: &mut Walk,
) -> Result<Part<O::File>, Fault>
    ensures goes_on { IfOk result (λ part. IfSome (O.bytes_at paths.now path.entry.now)
        (GoesOn walk.old walk.new (left_in O.File.remaining part))) }
    ensures id { walk.new.id ≡ walk.old.id }
    ensures opened { IfOk result (λ part. IsOpened O.File.remaining O.File.failure_count
        (O.bytes_at paths.now path.entry.now) (O.File.failure_count part.source)) }
    ensures fault { IfErr result IsOfPart }
    ensures refused { IfErr result (IsUnreadOr (IsNoNext walk.old.id walk.old.end)
        (O.bytes_at paths.now path.entry.now)) }
    ensures unread { IfErr result (FailsPart O.File.remaining O.File.failure_count
        (O.bytes_at paths.now path.entry.now)) }
{
    let (part, line) = opened_part(alloc, paths, path)?;
    let last = walk.end.turn.last;
    let goes = walk.next_part(alloc, &line)?;
    if goes {
        Ok(part)
    } else {
        Err(Fault::Journal(JournalFault::BadLine(last)))
    }
}

/// The file at a path, opened, and its first line.
///
/// `BadLine(0)` where it has none, `OtherRules` where it is one by other rules.
pub fn opened_part<'a, O: Opens<'a>>(
    alloc: Global,
    paths: &O,
    path: &'a str,
) -> Result<(Part<O::File>, Vec<u8>), Fault>
    ensures line { IfOk result (λ found. IfSome (O.bytes_at paths.now path.entry.now)
        (ReadsLine (Some found.1) (left_in O.File.remaining found.0))) }
    ensures opened { IfOk result (λ found. IsOpened O.File.remaining O.File.failure_count
        (O.bytes_at paths.now path.entry.now) (O.File.failure_count found.0.source)) }
    ensures rules { IfOk result (λ found. other_rules_in found.1.items ≡ None) }
    ensures fault { IfErr result IsOfPart }
    ensures refused { IfErr result
        (IsUnreadOr IsNoPart (O.bytes_at paths.now path.entry.now)) }
    ensures unread { IfErr result (FailsPart O.File.remaining O.File.failure_count
        (O.bytes_at paths.now path.entry.now)) }
{
    let (part, line) = begun_part(alloc, paths, path)?;
    match line {
        Some(line) => {
            expect_rules(alloc, &line)?;
            Ok((part, line))
        }
        None => Err(Fault::Journal(JournalFault::BadLine(0))),
    }
}

/// The file at a path, opened, and its first line, if it has one.
fn begun_part<'a, O: Opens<'a>>(
    alloc: Global,
    paths: &O,
    path: &'a str,
) -> Result<(Part<O::File>, Option<Vec<u8>>), Fault>
    ensures line { IfOk result (λ found. IfSome (O.bytes_at paths.now path.entry.now)
        (ReadsLine found.1 (left_in O.File.remaining found.0))) }
    ensures opened { IfOk result (λ found. IsOpened O.File.remaining O.File.failure_count
        (O.bytes_at paths.now path.entry.now) (O.File.failure_count found.0.source)) }
    ensures fault { IfErr result IsUnreadPart }
    ensures unread { IfErr result (FailsPart O.File.remaining O.File.failure_count
        (O.bytes_at paths.now path.entry.now)) }
{
    let mut source = paths.at(path);
    match source.open() {
        Ok(()) => {}
        Err(CsvFault::NoMemory) => return Err(Fault::Memory),
        Err(_) => return Err(Fault::Journal(JournalFault::OpenFailed)),
    }
    let mut part = Part {
        source,
        lines: Lines::new(alloc),
    };
    let line = part.line(alloc)?;
    Ok((part, line))
}

/// Refuses a text that is a first line by other rules.
fn expect_rules(alloc: Global, text: &[u8]) -> Result<(), Fault>
    ensures rules { OnOk result (other_rules_in text.now ≡ None) }
    ensures fault { IfErr result (IsOfRules text.now) }
{
    match other_rules_in(alloc, text)? {
        Some(number) => Err(Fault::Journal(JournalFault::OtherRules(number))),
        None => Ok(()),
    }
}
