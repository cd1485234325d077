//! The subcommand `journal`: what a journal keeps, part by part and line by line.
ghost use Rattle.std.specs.Prelude.{◌≡◌, ◌⊎◌, ◌++◌, ◌∷◌, [], ℕ, IfErr, IfOk, List, OnOk};
ghost use Rattle.std.specs.Prelude.{Option, map, option_map, string_bytes};
ghost use Rattle.clr_stream.specs.Streams.{Stream};
ghost use Rattle.clr_journal.specs.Journals.{next_place};
ghost use Rattle.clr_chain.specs.Walking.{Step as AnyStep, bad, seen_step, step_of};
ghost use Rattle.clr_args.specs.declared.asked.JournalArgs.{JournalArgs as AnyArgs};
ghost use Rattle.clr_rules.specs.Id.{Id as AnyId};
ghost use Rattle.clr_keeping.specs.Journal.{FailsAny, IsOfJournal, IsOfPrinting, PrintsParts};
ghost use Rattle.clr_keeping.specs.Journal.{all_known, journal_text, wanted_clearance};
ghost use Rattle.clr_keeping.specs.Parts.{FailsLater, half_step, left_in};
ghost use Rattle.clr_edge.specs.Paths.{at_paths};
ghost use Rattle.clr_keeping.specs.Printing.{FailsMore, FailsOn, FailsWithin, HasPrinted, IsText};
ghost use Rattle.clr_keeping.specs.Printing.{PrintsAll, PrintsMore, PrintsOn, PrintsPart, bad_with};

use crate::parts::{Part, first_part, next_part};
use clr_args::asked::JournalArgs;
use clr_chain::{Step, Walk};
use clr_edge::fault::{Fault, JournalFault};
use clr_edge::files::Source;
use clr_edge::output::write_out;
use clr_edge::paths::Opens;
use clr_log::{WalkedCommands, WalkedLog};
use clr_rules::ClearanceId;
use clr_stream::CountedFlush;
use std::alloc::{AllocError, Global};

/// How many bytes are printed at a time.
const PIECE: usize = 65_536;

/// What `journal FILE [CLEARANCE] [--part FILE]... [--offset MINUTES] [--commands]` prints: the
/// switching log of the journal, or with `--commands` the commands that were carried out, each on a
/// line that `run` takes; where a clearance is named, of that one alone. The parts follow one
/// another. Each line that does not hold its sum has a line of the log; so has half a line at the
/// end of a part, with the next number.
///
/// `NoSuch` where the word names no clearance; then no file is opened. `Journal(BadLine)`, once all
/// is printed, with the number of the first line that does not hold its sum; at once with 0 where
/// there is no first line, or with the last number where a further part does not go on.
/// `Journal(OtherRules)` where a part goes by other rules.
pub fn journal<'a, O: Opens<'a>, W: CountedFlush>(
    alloc: Global,
    paths: &O,
    args: &JournalArgs<'a>,
    output: &mut W,
) -> Result<(), Fault>
    ensures printed { PrintsParts
        (at_paths O.File.remaining O.File.failure_count (O.bytes_at paths.now))
        args.now (W.stream output.old) (W.stream output.new) result }
    ensures fault { IfErr result IsOfJournal }
{
    let wanted = wanted_clearance(args.clearance)?;
    let (part, first) = first_part(alloc, paths, args.path)?;
    let printing = Printing {
        walk: Walk::from(first),
        text: String::new(alloc),
        kind: Kind::of(alloc, args, wanted),
        bad: None,
    };
    let printing = print_part(alloc, printing, part, output)?;
    let printing = print_parts(alloc, paths, args.parts.as_slice(), printing, output)?;
    printing.end(alloc, output)
}

/// What is printed of each line.
#[derive(Drop)]
enum Kind {
    Log(WalkedLog),
    Commands(WalkedCommands),
}

impl Kind {
    /// Nothing was printed yet.
    fn of(alloc: Global, args: &JournalArgs<'_>, wanted: Option<ClearanceId>) -> Kind
        ensures { IsText args.now wanted [] [] result }
    {
        if args.commands {
            Kind::Commands(WalkedCommands::new(wanted))
        } else {
            Kind::Log(WalkedLog::new(alloc, wanted, args.offset.minutes))
        }
    }

    /// Writes what a step prints.
    fn step(&mut self, alloc: Global, out: &mut String, step: Step) -> Result<(), AllocError>
        ensures { OnOk result ((args : AnyArgs) (wanted : Option AnyId)
            (steps : List AnyStep) (sent : List ℕ)
            → IsText args wanted steps (sent ++ string_bytes out.old) self.old
            → IsText args wanted (steps ++ seen_step step ∷ [])
            (sent ++ string_bytes out.new) self.new) }
    {
        match self {
            Kind::Log(log) => log.step(alloc, out, step),
            Kind::Commands(commands) => commands.step(alloc, out, step),
        }
    }

    /// Writes what is left to print after all lines.
    fn end(&mut self, alloc: Global, out: &mut String) -> Result<(), AllocError>
        ensures { OnOk result ((args : AnyArgs) (wanted : Option AnyId)
            (steps : List AnyStep) (sent : List ℕ)
            → IsText args wanted steps (sent ++ string_bytes out.old) self.old
            → sent ++ string_bytes out.new ≡ journal_text args wanted steps) }
    {
        match self {
            Kind::Log(_) => Ok(()),
            Kind::Commands(commands) => commands.end(alloc, out),
        }
    }
}

/// How far a journal was printed.
#[derive(Drop)]
struct Printing {
    walk: Walk,
    /// What was not written yet.
    text: String,
    kind: Kind,
    /// The number of the first line that does not hold its sum.
    bad: Option<u64>,
}

impl Printing {
    /// Prints a line of the journal.
    fn line<W: CountedFlush>(
        &mut self,
        alloc: Global,
        line: &[u8],
        output: &mut W,
    ) -> Result<(), Fault>
        ensures printed { OnOk result (PrintsOn self.old (W.stream output.old)
            ((step_of self.old.walk.end line.now).0 ∷ []) self.new (W.stream output.new)) }
        ensures end { OnOk result
            (self.new.walk.end ≡ (step_of self.old.walk.end line.now).1) }
        ensures id { self.new.walk.id ≡ self.old.walk.id }
        ensures failed { IfErr result (λ fault. FailsOn self.old (W.stream output.old)
            ((step_of self.old.walk.end line.now).0 ∷ []) fault (W.stream output.new)) }
        ensures fault { IfErr result (λ fault. (fault ≡ Fault.Memory) ⊎ (fault ≡ Fault.Output)) }
    {
        self.add(alloc, line)?;
        self.send(alloc, output)
    }

    /// Adds what a line prints to what is not written yet.
    fn add(&mut self, alloc: Global, line: &[u8]) -> Result<(), AllocError>
        ensures added { OnOk result ((output : Stream) → PrintsOn self.old output
            ((step_of self.old.walk.end line.now).0 ∷ []) self.new output) }
        ensures end { OnOk result
            (self.new.walk.end ≡ (step_of self.old.walk.end line.now).1) }
        ensures id { self.new.walk.id ≡ self.old.walk.id }
    {
        let step = self.walk.step(alloc, line)?;
        self.bad = bad_with(self.bad, &step);
        self.kind.step(alloc, &mut self.text, step)
    }

    /// Prints half a line at the end of a part, unless the part ends whole: it is a bad line, and
    /// has the next number.
    fn ended<W: CountedFlush>(
        self,
        alloc: Global,
        is_whole: bool,
        output: &mut W,
    ) -> Result<Printing, Fault>
        ensures printed { IfOk result (λ printed. PrintsOn self (W.stream output.old)
            (half_step self.walk.end is_whole) printed (W.stream output.new)) }
        ensures walk { IfOk result (λ printed. printed.walk ≡ self.walk) }
        ensures failed { IfErr result (λ fault. FailsOn self (W.stream output.old)
            (half_step self.walk.end is_whole) fault (W.stream output.new)) }
        ensures fault { IfErr result (λ fault. (fault ≡ Fault.Memory) ⊎ (fault ≡ Fault.Output)) }
    {
        if is_whole {
            return Ok(self);
        }
        let mut printing = self;
        printing.half(alloc, output)?;
        Ok(printing)
    }

    /// Prints half a line.
    fn half<W: CountedFlush>(&mut self, alloc: Global, output: &mut W) -> Result<(), Fault>
        ensures printed { OnOk result (PrintsOn self.old (W.stream output.old)
            (bad (next_place self.old.walk.end.turn.last) ∷ []) self.new (W.stream output.new)) }
        ensures walk { self.new.walk ≡ self.old.walk }
        ensures failed { IfErr result (λ fault. FailsOn self.old (W.stream output.old)
            (bad (next_place self.old.walk.end.turn.last) ∷ []) fault (W.stream output.new)) }
        ensures fault { IfErr result (λ fault. (fault ≡ Fault.Memory) ⊎ (fault ≡ Fault.Output)) }
    {
        self.add_half(alloc)?;
        self.send(alloc, output)
    }

    /// Adds what half a line prints to what is not written yet.
    fn add_half(&mut self, alloc: Global) -> Result<(), AllocError>
        ensures added { OnOk result ((output : Stream) → PrintsOn self.old output
            (bad (next_place self.old.walk.end.turn.last) ∷ []) self.new output) }
        ensures walk { self.new.walk ≡ self.old.walk }
    {
        let step = Step::Bad(self.walk.end.turn.last.saturating_add(1));
        self.bad = bad_with(self.bad, &step);
        self.kind.step(alloc, &mut self.text, step)
    }

    /// Writes what is not written yet, once it is long.
    fn send<W: CountedFlush>(&mut self, alloc: Global, output: &mut W) -> Result<(), Fault>
        ensures sent { OnOk result
            (PrintsOn self.old (W.stream output.old) [] self.new (W.stream output.new)) }
        ensures walk { self.new.walk ≡ self.old.walk }
        ensures failed { IfErr result (λ fault.
            FailsOn self.old (W.stream output.old) [] fault (W.stream output.new)) }
        ensures fault { IfErr result (λ fault. fault ≡ Fault.Output) }
    {
        if self.text.len() < PIECE {
            return Ok(());
        }
        write_out(self.text.as_str(), output)?;
        self.text = String::new(alloc);
        Ok(())
    }

    /// Prints what is left. A line that does not hold its sum is a fault now.
    fn end<W: CountedFlush>(self, alloc: Global, output: &mut W) -> Result<(), Fault>
        ensures printed { (args : AnyArgs) (began : Stream) (steps : List AnyStep)
            → HasPrinted args began steps self (W.stream output.old)
            → PrintsAll args began (W.stream output.new) steps result }
        ensures fault { IfErr result IsOfJournal }
    {
        let mut printing = self;
        printing.kind.end(alloc, &mut printing.text)?;
        write_out(printing.text.as_str(), output)?;
        match printing.bad {
            Some(number) => Err(Fault::Journal(JournalFault::BadLine(number))),
            None => Ok(()),
        }
    }
}

/// The number of the first line that does not hold its sum, with one more line.
fn bad_with(bad: Option<u64>, step: &Step) -> Option<u64>
    ensures { result ≡ bad_with bad (seen_step step.now) }
{
    match bad {
        Some(number) => Some(number),
        None => match step {
            Step::Bad(number) => Some(*number),
            Step::Holds(_) => None,
        },
    }
}

/// Prints the lines of a part, after its first, and half a line at its end.
fn print_part<S: Source + Drop, W: CountedFlush>(
    alloc: Global,
    printing: Printing,
    part: Part<S>,
    output: &mut W,
) -> Result<Printing, Fault>
    ensures printed { IfOk result (λ printed. PrintsPart (left_in S.remaining part) printing
        (W.stream output.old) printed (W.stream output.new)) }
    ensures failed { IfErr result (λ fault. FailsWithin (left_in S.remaining part) printing
        (W.stream output.old) fault (W.stream output.new)) }
    ensures fault { IfErr result IsOfPrinting }
    ensures unread { IfErr result (FailsLater S.failure_count part.source) }
{
    let mut printing = printing;
    let mut part = part;
    'lines: for _ in 0..u64::MAX {
        let Some(line) = part.line(alloc)? else {
            return printing.ended(alloc, part.ends_whole(), output);
        };
        printing.line(alloc, &line, output)?;
    }
    Err(Fault::Journal(JournalFault::TooLong))
}

/// Prints the further parts, in order.
fn print_parts<'a, O: Opens<'a>, W: CountedFlush>(
    alloc: Global,
    paths: &O,
    parts: &[&'a str],
    printing: Printing,
    output: &mut W,
) -> Result<Printing, Fault>
    ensures printed { IfOk result (λ printed. PrintsMore
        (all_known (map (λ path. O.bytes_at paths.now path.now) parts.now)) printing
        (W.stream output.old) printed (W.stream output.new)) }
    ensures failed { IfErr result (λ fault. FailsMore
        (all_known (map (λ path. O.bytes_at paths.now path.now) parts.now)) printing
        (W.stream output.old) fault (W.stream output.new)) }
    ensures fault { IfErr result IsOfPrinting }
    ensures unread { IfErr result (FailsAny
        (at_paths O.File.remaining O.File.failure_count (O.bytes_at paths.now)) parts.now) }
{
    let mut printing = printing;
    for path in parts {
        let part = next_part(alloc, paths, *path, &mut printing.walk)?;
        printing = print_part(alloc, printing, part, output)?;
    }
    Ok(printing)
}

/// The clearance that a word names, if one was given.
fn wanted_clearance(word: Option<&str>) -> Result<Option<ClearanceId>, Fault>
    ensures wanted { result ≡ wanted_clearance (option_map (λ text. text.now) word.entry) }
    ensures fault { IfErr result (λ fault. fault ≡ Fault.NoSuch) }
{
    let Some(word) = word else {
        return Ok(None);
    };
    match ClearanceId::read(word).ok() {
        Some(clearance) => Ok(Some(clearance)),
        None => Err(Fault::NoSuch),
    }
}
