//! The subcommand `verify`: whether a register is level with its journal.
ghost use Rattle.std.specs.Prelude.{◌≡◌, ◌⊎◌, ℕ, Err, IfErr, IfOk, IfSome, Ok, OnOk, false, map};
ghost use Rattle.std.specs.Prelude.{string_bytes, true};
ghost use Rattle.clr_journal.specs.Lines.{ended_lines};
ghost use Rattle.clr_rules.specs.Good.{IsGood};
ghost use Rattle.clr_journal.specs.Journals.{next_place};
ghost use Rattle.clr_commands.specs.Faults.{IsOfSubcommand};
ghost use Rattle.clr_commands.specs.First.{files_of};
ghost use Rattle.clr_commands.specs.Import.{contents_of};
ghost use Rattle.clr_keeping.specs.Journal.{all_known};
ghost use Rattle.clr_keeping.specs.Parts.{FailsLater, left_in};
ghost use Rattle.clr_edge.specs.Lines.{ends_whole};
ghost use Rattle.clr_edge.specs.Paths.{at_paths};
ghost use Rattle.clr_commands.specs.Verify.{AreOthers, Checks, ChecksAll, ChecksFrom, ChecksOn};
ghost use Rattle.clr_commands.specs.Verify.{FailsFrom, FailsSome};
ghost use Rattle.clr_commands.specs.Verify.{IsOfCheck, IsOfFiles, IsPlacedRead, IsRefusedBy};
ghost use Rattle.clr_commands.specs.Verify.{IsRefusedIn, ReadsPlaced, VerifiesAt};
ghost use Rattle.clr_commands.specs.Verify.{VerifiesFromAt, of_check, verified_text};
ghost use Rattle.clr_keeping.specs.TakenUp.{IsOfTakingUp};
ghost use Rattle.clr_edge.specs.Visit.{Comes};
ghost use Rattle.clr_checking.specs.CheckingOn.{IsReady};
ghost use Rattle.clr_checking.specs.declared.fault.CheckFault.{CheckFault as AnyFault};

use crate::import::{Texts, rows_and_texts_at};
use crate::run::desk_of_rows;
use clr_args::asked::{VerifyArgs, VerifyFromArgs};
use clr_chain::first_sum;
use clr_checking::{CheckFault, Checking};
use clr_desk::{Desk, DeskBook, Unkept};
use clr_edge::database::{Databases, close};
use clr_edge::fault::{Fault, JournalFault, VerifyFault};
use clr_edge::files::Source;
use clr_edge::paths::Opens;
use clr_keeping::parts::{Part, first_part, opened_part};
use clr_keeping::taking_up::{open_desk, placed};
use clr_rules::Place;
use clr_store::Store;
use sqlite::{Alter, Connection};
use std::alloc::Global;

/// What `verify DB JOURNAL [--part FILE]... SECTIONS POINTS STAFF` prints: how many commands of
/// the journal were carried out, where it begins with the register of the files, all its lines
/// hold their sums and have the replies that are due, and the register of the database is level
/// with it. The files are read first, then the database, which is closed, and then the journal.
///
/// `Verify(Files)` where the first line is not of these files; `Verify(Reply)` where a command has
/// another reply; `Verify(Differs)` with the first row that is another at the place of the
/// register; `Journal` where the journal is another register's, has a bad line, ends before the
/// register's place, or differs there. Half a line at the end of a part is a bad line, with the
/// next number.
pub fn verify<'a, R: Databases, O: Opens<'a>>(
    alloc: Global,
    rt: &mut R,
    paths: &O,
    args: &VerifyArgs<'a>,
) -> Result<String, Fault>
    ensures visit { VerifiesAt
        (at_paths O.File.remaining O.File.failure_count (O.bytes_at paths.now)) args.now
        (Comes R.opens R.shuts R.ends args.now.database.now
        (ReadsPlaced R.Tables.Store))
        result rt.old rt.new }
    ensures faults { IfErr result IsOfSubcommand }
{
    let (rows, texts) = rows_and_texts_at(alloc, paths, &args.files)?;
    let began = desk_of_rows(alloc, rows)?;
    let (book, place) = register_at(alloc, rt, args.database)?;
    let parts = args.parts.as_slice();
    check_over(
        alloc,
        paths,
        began,
        &texts,
        &book,
        place,
        args.journal,
        parts,
    )
}

/// What `verify DB JOURNAL [--part FILE]... --from COPY` prints: the same from the place on that a
/// copy of the database is at, over the register of the copy. The copy is read first.
pub fn verify_from<'a, R: Databases, O: Opens<'a>>(
    alloc: Global,
    rt: &mut R,
    paths: &O,
    args: &VerifyFromArgs<'a>,
) -> Result<String, Fault>
    ensures visit { VerifiesFromAt
        (at_paths O.File.remaining O.File.failure_count (O.bytes_at paths.now)) args.now
        (Comes R.opens R.shuts R.ends args.now.copy.now
        (ReadsPlaced R.Tables.Store))
        (Comes R.opens R.shuts R.ends args.now.database.now
        (ReadsPlaced R.Tables.Store))
        result rt.old rt.new }
    ensures faults { IfErr result IsOfSubcommand }
{
    let (copied, from) = register_at(alloc, rt, args.copy)?;
    let (book, place) = register_at(alloc, rt, args.database)?;
    let began = Desk::of(copied, Unkept, 0);
    let parts = args.parts.as_slice();
    check_from(alloc, paths, began, from, &book, place, args.journal, parts)
}

/// The register of the database at a path, and its place in a journal. The database is only read,
/// and closed.
///
/// `Journal(OtherRegister)` where the register has no journal.
fn register_at<R: Databases>(
    alloc: Global,
    rt: &mut R,
    path: &str,
) -> Result<(DeskBook, Place), Fault>
    ensures read { Comes R.opens R.shuts R.ends path.now (ReadsPlaced R.Tables.Store) result
        rt.old rt.new }
    ensures good { IfOk result (λ read. IsGood read.0.register) }
    ensures faults { IfErr result IsOfTakingUp }
{
    let desk = open_desk(alloc, rt, path)?;
    let (told, connection) = register_of(desk);
    let _closed = close(rt, connection);
    told
}

/// The register of a desk, and its place in a journal; with its database.
fn register_of<S: Alter + Drop>(
    desk: Desk<Store<S>>,
) -> (Result<(DeskBook, Place), Fault>, Connection<S>)
    ensures read { IsPlacedRead S.Store desk.store desk.book.register result.0 result.1 }
    ensures faults { IfErr result.0 IsOfTakingUp }
    ensures mode { result.1.in_transaction ≡ false }
{
    match placed(desk) {
        Ok((desk, place)) => match place {
            Some(place) => {
                let (book, store) = desk.parted();
                (Ok((book, place)), store.end())
            }
            None => {
                let fault = Fault::Journal(JournalFault::OtherRegister);
                (Err(fault), desk.end().end())
            }
        },
        Err((fault, connection)) => (Err(fault), connection),
    }
}

/// The answer of a register at a place, by the journal at these paths, which has to begin with a
/// good register of these files.
fn check_over<'a, O: Opens<'a>>(
    alloc: Global,
    paths: &O,
    began: Desk<Unkept>,
    texts: &Texts,
    book: &DeskBook,
    place: Place,
    path: &'a str,
    parts: &[&'a str],
) -> Result<String, Fault>
    requires { IsGood began.book.register }
    ensures checked { IfSome (O.bytes_at paths.now path.entry.now) (λ one.
        IfSome (all_known (map (λ path. O.bytes_at paths.now path.now) parts.now)) (λ more.
        Checks (files_of (contents_of texts.now)) began.book.register one more place
        book.now.register result)) }
    ensures unread { IfErr result (FailsSome
        (at_paths O.File.remaining O.File.failure_count (O.bytes_at paths.now)) path.entry
        parts.now) }
    ensures fault { IfErr result IsOfCheck }
{
    let (part, first) = first_part(alloc, paths, path)?;
    expect_files(alloc, texts, &first)?;
    match Checking::over(alloc, began, first, place, book) {
        Ok(checking) => check_all(alloc, paths, checking, part, parts),
        Err(fault) => Err(of_check(fault)),
    }
}

/// The same over the register of a copy, which is at a place.
fn check_from<'a, O: Opens<'a>>(
    alloc: Global,
    paths: &O,
    began: Desk<Unkept>,
    from: Place,
    book: &DeskBook,
    place: Place,
    path: &'a str,
    parts: &[&'a str],
) -> Result<String, Fault>
    requires { IsGood began.book.register }
    ensures checked { IfSome (O.bytes_at paths.now path.entry.now) (λ one.
        IfSome (all_known (map (λ path. O.bytes_at paths.now path.now) parts.now)) (λ more.
        ChecksFrom began.book.register from one more place book.now.register result)) }
    ensures unread { IfErr result (FailsSome
        (at_paths O.File.remaining O.File.failure_count (O.bytes_at paths.now)) path.entry
        parts.now) }
    ensures fault { IfErr result IsOfCheck }
{
    let (part, first) = first_part(alloc, paths, path)?;
    match Checking::over_copy(alloc, began, from, first, place, book) {
        Ok(checking) => check_all(alloc, paths, checking, part, parts),
        Err(fault) => Err(of_check(fault)),
    }
}

/// Refuses a first line that is not of these files.
fn expect_files(alloc: Global, texts: &Texts, first: &Place) -> Result<(), Fault>
    ensures of_files { OnOk result (IsOfFiles (files_of (contents_of texts.now)) first.now) }
    ensures others { IfErr result (AreOthers (files_of (contents_of texts.now)) first.now) }
    ensures fault { IfErr result IsOfCheck }
{
    let sum = first_sum(
        alloc,
        &texts.sections,
        &texts.points,
        &texts.staff,
        first.id.as_str(),
    )?;
    if first.number == 0 && sum.as_str() == first.sum.as_str() {
        Ok(())
    } else {
        Err(Fault::Verify(VerifyFault::Files))
    }
}

/// Checks all lines of a journal: those of a part, and those of the parts at further paths.
fn check_all<'a, O: Opens<'a>>(
    alloc: Global,
    paths: &O,
    checking: Checking<'_>,
    part: Part<O::File>,
    parts: &[&'a str],
) -> Result<String, Fault>
    requires { IsReady checking }
    ensures checked { IfOk result (λ text. IfSome (left_in O.File.remaining part) (λ bytes.
        IfSome (all_known (map (λ path. O.bytes_at paths.now path.now) parts.now)) (λ known.
        ChecksAll checking.entry bytes known (string_bytes text)))) }
    ensures refused { IfErr result (IsRefusedBy checking.entry (left_in O.File.remaining part)
        (all_known (map (λ path. O.bytes_at paths.now path.now) parts.now))) }
    ensures unread { IfErr result (FailsFrom O.File.failure_count part.source
        (at_paths O.File.remaining O.File.failure_count (O.bytes_at paths.now)) parts.now) }
    ensures fault { IfErr result IsOfCheck }
{
    let mut checking = check_part(alloc, checking, part)?;
    for path in parts {
        let (part, line) = opened_part(alloc, paths, *path)?;
        if let Err(fault) = checking.part(alloc, &line) {
            return Err(of_check(fault));
        }
        checking = check_part(alloc, checking, part)?;
    }
    said(alloc, checking.end(alloc))
}

/// Checks the lines that are left of a part, which has to end whole.
fn check_part<'b, S: Source + Drop>(
    alloc: Global,
    checking: Checking<'b>,
    part: Part<S>,
) -> Result<Checking<'b>, Fault>
    requires { IsReady checking }
    ensures ready { IfOk result IsReady }
    ensures id { IfOk result (λ checked. checked.walk.id ≡ checking.entry.walk.id) }
    ensures checked { IfOk result (λ checked. IfSome (left_in S.remaining part) (λ bytes.
        ChecksOn checking.entry checked (ended_lines bytes) × (ends_whole bytes ≡ true))) }
    ensures refused { IfErr result (IsRefusedIn checking.entry (left_in S.remaining part)) }
    ensures unread { IfErr result (FailsLater S.failure_count part.source) }
    ensures fault { IfErr result IsOfCheck }
{
    let mut checking = checking;
    let mut part = part;
    'lines: for _ in 0..u64::MAX {
        let Some(line) = part.line(alloc)? else {
            let is_whole = part.ends_whole();
            if is_whole {
                return Ok(checking);
            }
            return Err(half_line(&checking));
        };
        if let Err(fault) = checking.line(alloc, &line) {
            return Err(of_check(fault));
        }
    }
    Err(Fault::Journal(JournalFault::TooLong))
}

/// What is reported of half a line that comes next.
fn half_line(checking: &Checking<'_>) -> Fault
    ensures { result ≡ Fault.Journal (JournalFault.BadLine
        (next_place checking.now.walk.end.turn.last)) }
{
    Fault::Journal(JournalFault::BadLine(checking.next_number()))
}

/// What is said of a register that was checked.
fn said(alloc: Global, checked: Result<usize, CheckFault>) -> Result<String, Fault>
    ensures yes { IfOk result (λ text. (count : ℕ) × (checked ≡ Ok count)
        × (string_bytes text ≡ verified_text count)) }
    ensures no { IfErr result (λ fault. (fault ≡ Fault.Memory)
        ⊎ ((cause : AnyFault) × (checked ≡ Err cause) × (fault ≡ of_check cause))) }
    ensures fault { IfErr result IsOfCheck }
{
    match checked {
        Ok(count) => {
            let text = format!(in alloc; "verified {count} commands\n")?;
            Ok(text)
        }
        Err(fault) => Err(of_check(fault)),
    }
}

/// What is reported of a register that is not what its journal says.
fn of_check(fault: CheckFault) -> Fault
    ensures { result ≡ of_check fault }
{
    match fault {
        CheckFault::OtherRegister => Fault::Journal(JournalFault::OtherRegister),
        CheckFault::BadLine(number) => Fault::Journal(JournalFault::BadLine(number)),
        CheckFault::Differs(number) => Fault::Journal(JournalFault::Differs(number)),
        CheckFault::TooShort => Fault::Journal(JournalFault::TooShort),
        CheckFault::Reply(number) => Fault::Verify(VerifyFault::Reply(number)),
        CheckFault::Tables(found) => Fault::Verify(VerifyFault::Differs(found)),
        CheckFault::NoMemory => Fault::Memory,
    }
}
