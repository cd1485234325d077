//! What the words of a command line come to: what they ask for, help, or why they do not parse.
ghost use Rattle.std.specs.Prelude.{◌≡◌, ◌≢◌, IfOk, MatchOption, codes, map, option_map};
ghost use Rattle.clap.specs.Words.{app_of, first_of, found_of, kind_of, rows_of};
ghost use Rattle.clr_args.specs.ArgumentWords.{flag_in, offset_in, word_in, words_in};
ghost use Rattle.clr_args.specs.Parsed.{AsksArchive, AsksBoard, AsksFence, AsksFiles, AsksInit};
ghost use Rattle.clr_args.specs.Parsed.{AsksMigrate, AsksNextPart, AsksOfJournal, AsksOrder};
ghost use Rattle.clr_args.specs.Parsed.{AsksRun, AsksServe, AsksUpdate, AsksVerified};
ghost use Rattle.clr_args.specs.Parsed.{AsksWayBack, IsMoreThanNext, IsNoInit, IsNoJournal};
ghost use Rattle.clr_args.specs.Parsed.{IsNoRun, IsNoServe, IsNoVerify, IsParsedAs, IsSaid};
ghost use Rattle.clr_args.specs.Parsed.{IsUnread, IsUnreadAs, Parses, run_usage};
ghost use Rattle.clr_args.specs.Syntax.{gridclear};

use crate::asked::{
    ArchiveArgs, Asked, BoardArgs, FenceArgs, Files, InitArgs, JournalArgs, MigrateArgs,
    NextPartArgs, OrderArgs, RunArgs, ServeArgs, StoredArgs, UpdateArgs, VerifyArgs,
    VerifyFromArgs, WayBackArgs,
};
use crate::syntax;
use crate::words::{
    count_of, deadline_of, flag_of, moment_of, offset_of, option_of, port_of, word_of, words_of,
};
use clap::error::ErrorKind;
use clap::{ArgMatches, Command};
use std::alloc::{AllocError, Global};
use std::convert::AsStr;

/// Why an `init` is not taken that names a journal without a database.
const INIT_USAGE: &str = "error: init takes --journal FILE only with --db FILE\n";

/// Why a `journal` is not taken that names a next part without a database, or a database without a
/// next part, or more than these and the journal.
const JOURNAL_USAGE: &str =
    "error: journal takes --next FILE with --db DB, and then no other argument but FILE\n";

/// Why a `run` is not taken that names both a database and files, or neither, or files that are not
/// three.
const RUN_USAGE: &str = "error: run takes three files, or --db FILE and no files\n";

/// Why such a `run` is not taken where it names a journal.
const RUN_JOURNAL_USAGE: &str =
    "error: run takes --journal FILE only with --db FILE and no files\n";

/// Why a `serve` is not taken that names a file of logins without a desk.
const SERVE_USAGE: &str = "error: serve takes --logins FILE only with --desk\n";

/// Why a `verify` is not taken that names both a copy and files, or neither, or files that are not
/// three.
const VERIFY_USAGE: &str = "error: verify takes three files, or --from COPY and no files\n";

/// What the words of a command line come to.
#[derive(Drop)]
pub enum Parsed<'a> {
    /// They ask for this.
    Asked(Asked<'a>),
    /// They ask for this help, or for the version.
    Help(String),
    /// Why they do not parse.
    Unread(String),
}

/// Reads the words of a command line, of which the first is the program's name.
pub fn parse<'a, S: AsStr>(alloc: Global, words: &'a [S]) -> Result<Parsed<'a>, AllocError>
    ensures { IfOk result (Parses (map S.text words.now)) }
{
    let mut command = syntax::command(alloc)?;
    parsed_by(alloc, &mut command, words)
}

/// The same by the command line of gridclear, which stays.
fn parsed_by<'a, S: AsStr>(
    alloc: Global,
    command: &mut Command<'a>,
    words: &'a [S],
) -> Result<Parsed<'a>, AllocError>
    requires { app_of command.old ≡ gridclear }
    ensures { IfOk result (Parses (map S.text words.now)) }
{
    let matches = match command.try_get_matches_from_mut(words) {
        Ok(matches) => matches,
        Err(error) => return unparsed(alloc, &error),
    };
    match matches.subcommand() {
        Some((name, matches)) => asked(alloc, name, matches),
        None => {
            let help = command.render_help()?;
            Ok(Parsed::Unread(help))
        }
    }
}

/// What words come to in which clap found an error, or help that they ask for.
fn unparsed<'a>(alloc: Global, error: &clap::Error) -> Result<Parsed<'a>, AllocError>
    ensures said { IfOk result (IsSaid (kind_of error.now)) }
    ensures memory { IfOk result (λ _. kind_of error.now ≢ ErrorKind.OutOfMemory) }
{
    if error.kind() == ErrorKind::OutOfMemory {
        return Err(AllocError);
    }
    let text = format!(in alloc; "{error}")?;
    if error.use_stderr() {
        Ok(Parsed::Unread(text))
    } else {
        Ok(Parsed::Help(text))
    }
}

/// What the words of the subcommand of this name ask for.
fn asked<'a>(alloc: Global, name: &str, matches: &ArgMatches<'a>) -> Result<Parsed<'a>, AllocError>
    ensures { IfOk result (IsParsedAs name.now (rows_of (found_of matches.now))) }
{
    match name {
        "fence" => fence_parsed(alloc, matches),
        "check" => Ok(Parsed::Asked(Asked::Check(three_files(matches)))),
        "init" => init_parsed(alloc, matches),
        "run" => run_parsed(alloc, matches),
        "order" => Ok(Parsed::Asked(Asked::Order(order_args(matches)))),
        "board" => Ok(Parsed::Asked(Asked::Board(board_args(matches)))),
        "wayback" => Ok(Parsed::Asked(Asked::WayBack(way_back_args(matches)))),
        "serve" => serve_parsed(alloc, matches),
        "journal" => journal_parsed(alloc, matches),
        "verify" => verify_parsed(alloc, matches),
        "update" => update_parsed(alloc, matches),
        "archive" => Ok(Parsed::Asked(Asked::Archive(archive_args(matches)))),
        "migrate" => Ok(Parsed::Asked(Asked::Migrate(migrate_args(matches)))),
        _ => unnamed(alloc, name),
    }
}

/// The words of a subcommand whose name is none of these.
fn unnamed<'a>(alloc: Global, name: &str) -> Result<Parsed<'a>, AllocError>
    ensures { IfOk result IsUnread }
{
    let text = format!(in alloc; "error: there is no subcommand {name}\n")?;
    Ok(Parsed::Unread(text))
}

/// What the words of `fence` come to.
fn fence_parsed<'a>(alloc: Global, matches: &ArgMatches<'a>) -> Result<Parsed<'a>, AllocError>
    ensures { IfOk result (IsParsedAs (codes "fence") (rows_of (found_of matches.now))) }
{
    let args = fence_args(alloc, matches)?;
    Ok(Parsed::Asked(Asked::Fence(args)))
}

/// What the words of `init` come to.
fn init_parsed<'a>(alloc: Global, matches: &ArgMatches<'a>) -> Result<Parsed<'a>, AllocError>
    ensures { IfOk result (IsParsedAs (codes "init") (rows_of (found_of matches.now))) }
{
    match init_args(matches) {
        Some(args) => Ok(Parsed::Asked(Asked::Init(args))),
        None => unread(alloc, INIT_USAGE),
    }
}

/// What the words of `run` come to.
fn run_parsed<'a>(alloc: Global, matches: &ArgMatches<'a>) -> Result<Parsed<'a>, AllocError>
    ensures { IfOk result (IsParsedAs (codes "run") (rows_of (found_of matches.now))) }
{
    match run_args(alloc, matches)? {
        Some(args) => Ok(Parsed::Asked(Asked::Run(args))),
        None => unread(alloc, run_usage(matches)),
    }
}

/// What the words of `serve` come to.
fn serve_parsed<'a>(alloc: Global, matches: &ArgMatches<'a>) -> Result<Parsed<'a>, AllocError>
    ensures { IfOk result (IsParsedAs (codes "serve") (rows_of (found_of matches.now))) }
{
    match serve_args(matches) {
        Some(args) => Ok(Parsed::Asked(Asked::Serve(args))),
        None => unread(alloc, SERVE_USAGE),
    }
}

/// What the words of `journal` come to.
fn journal_parsed<'a>(alloc: Global, matches: &ArgMatches<'a>) -> Result<Parsed<'a>, AllocError>
    ensures { IfOk result (IsParsedAs (codes "journal") (rows_of (found_of matches.now))) }
{
    match journal_asked(alloc, matches)? {
        Some(asked) => Ok(Parsed::Asked(asked)),
        None => unread(alloc, JOURNAL_USAGE),
    }
}

/// What the words of `verify` come to.
fn verify_parsed<'a>(alloc: Global, matches: &ArgMatches<'a>) -> Result<Parsed<'a>, AllocError>
    ensures { IfOk result (IsParsedAs (codes "verify") (rows_of (found_of matches.now))) }
{
    match verify_asked(alloc, matches)? {
        Some(asked) => Ok(Parsed::Asked(asked)),
        None => unread(alloc, VERIFY_USAGE),
    }
}

/// What the words of `update` come to.
fn update_parsed<'a>(alloc: Global, matches: &ArgMatches<'a>) -> Result<Parsed<'a>, AllocError>
    ensures { IfOk result (IsParsedAs (codes "update") (rows_of (found_of matches.now))) }
{
    let args = update_args(alloc, matches)?;
    Ok(Parsed::Asked(Asked::Update(args)))
}

/// Words that do not parse, for this reason.
fn unread<'a>(alloc: Global, why: &str) -> Result<Parsed<'a>, AllocError>
    ensures { IfOk result (IsUnreadAs why.now) }
{
    let text = String::from_str(alloc, why)?;
    Ok(Parsed::Unread(text))
}

/// What `fence SECTIONS POINTS WORK [CUT]...` asks for.
fn fence_args<'a>(alloc: Global, matches: &ArgMatches<'a>) -> Result<FenceArgs<'a>, AllocError>
    ensures { IfOk result (AsksFence (rows_of (found_of matches.now))) }
{
    let sections = word_of(matches, "SECTIONS");
    let points = word_of(matches, "POINTS");
    let work = word_of(matches, "WORK");
    let cut = words_of(alloc, matches, "CUT")?;
    Ok(FenceArgs {
        sections,
        points,
        work,
        cut,
    })
}

/// The paths of the arguments `SECTIONS POINTS STAFF`, which are all that `check` asks for.
fn three_files<'a>(matches: &ArgMatches<'a>) -> Files<'a>
    ensures { AsksFiles (rows_of (found_of matches.now)) result }
{
    Files {
        sections: word_of(matches, "SECTIONS"),
        points: word_of(matches, "POINTS"),
        staff: word_of(matches, "STAFF"),
    }
}

/// What `init SECTIONS POINTS STAFF [--db FILE [--journal FILE]]` asks for, if it names no journal
/// without a database.
fn init_args<'a>(matches: &ArgMatches<'a>) -> Option<InitArgs<'a>>
    ensures { MatchOption result (IsNoInit (rows_of (found_of matches.now)))
        (AsksInit (rows_of (found_of matches.now))) }
{
    let files = three_files(matches);
    let journal = option_of(matches, "journal");
    match (option_of(matches, "db"), journal) {
        (Some(database), _) => Some(InitArgs {
            files,
            stored: Some(StoredArgs { database, journal }),
        }),
        (None, None) => Some(InitArgs {
            files,
            stored: None,
        }),
        (None, Some(_)) => None,
    }
}

/// What `run [--db FILE [--journal FILE]] [FILES]...` asks for, if it names a database and no
/// files, or three files alone.
fn run_args<'a>(alloc: Global, matches: &ArgMatches<'a>) -> Result<Option<RunArgs<'a>>, AllocError>
    ensures { IfOk result (λ args. MatchOption args
        (IsNoRun (rows_of (found_of matches.now))) (AsksRun (rows_of (found_of matches.now)))) }
{
    let files = words_of(alloc, matches, "FILES")?;
    let journal = option_of(matches, "journal");
    match (option_of(matches, "db"), journal, files.as_slice()) {
        (Some(database), _, []) => Ok(Some(RunArgs::Stored(StoredArgs { database, journal }))),
        (None, None, [sections, points, staff]) => Ok(Some(RunArgs::Files(Files {
            sections: *sections,
            points: *points,
            staff: *staff,
        }))),
        _ => Ok(None),
    }
}

/// Why a `run` is not taken.
fn run_usage(matches: &ArgMatches<'_>) -> &'static str
    ensures { result.now
        ≡ run_usage (first_of (codes "journal") (rows_of (found_of matches.now))) }
{
    match option_of(matches, "journal") {
        Some(_) => RUN_JOURNAL_USAGE,
        None => RUN_USAGE,
    }
}

/// What `order DB CLEARANCE ROUND [--offset MINUTES]` asks for.
fn order_args<'a>(matches: &ArgMatches<'a>) -> OrderArgs<'a>
    ensures { AsksOrder (rows_of (found_of matches.now)) result }
{
    OrderArgs {
        database: word_of(matches, "DB"),
        clearance: word_of(matches, "CLEARANCE"),
        round: word_of(matches, "ROUND"),
        offset: offset_of(matches),
    }
}

/// What `board DB [--offset MINUTES]` asks for.
fn board_args<'a>(matches: &ArgMatches<'a>) -> BoardArgs<'a>
    ensures { AsksBoard (rows_of (found_of matches.now)) result }
{
    BoardArgs {
        database: word_of(matches, "DB"),
        offset: offset_of(matches),
    }
}

/// What `wayback DB CLEARANCE` asks for.
fn way_back_args<'a>(matches: &ArgMatches<'a>) -> WayBackArgs<'a>
    ensures { AsksWayBack (rows_of (found_of matches.now)) result }
{
    WayBackArgs {
        database: word_of(matches, "DB"),
        clearance: word_of(matches, "CLEARANCE"),
    }
}

/// What `serve DB --port N --count N [--deadline SECONDS] [--desk] [--logins FILE] [--journal
/// FILE]` asks for, if it names no logins without a desk.
fn serve_args<'a>(matches: &ArgMatches<'a>) -> Option<ServeArgs<'a>>
    ensures { MatchOption result (IsNoServe (rows_of (found_of matches.now)))
        (AsksServe (rows_of (found_of matches.now))) }
{
    let logins = option_of(matches, "logins");
    let desk = flag_of(matches, "desk");
    match (logins, desk) {
        (Some(_), false) => None,
        _ => Some(ServeArgs {
            database: word_of(matches, "DB"),
            port: port_of(matches),
            count: count_of(matches),
            deadline: deadline_of(matches),
            desk,
            logins,
            journal: option_of(matches, "journal"),
        }),
    }
}

/// What `journal FILE [CLEARANCE] [--part FILE]... [--offset MINUTES] [--commands]` asks for; or
/// `journal FILE --db DB --next NEW`, if it names nothing else.
fn journal_asked<'a>(
    alloc: Global,
    matches: &ArgMatches<'a>,
) -> Result<Option<Asked<'a>>, AllocError>
    ensures { IfOk result (λ asked. MatchOption asked
        (IsNoJournal (rows_of (found_of matches.now)))
        (AsksOfJournal (rows_of (found_of matches.now)))) }
{
    let parts = words_of(alloc, matches, "part")?;
    match (option_of(matches, "next"), option_of(matches, "db")) {
        (None, None) => Ok(Some(Asked::Journal(journal_args(matches, parts)))),
        (Some(next), Some(database)) if parts.is_empty() => {
            Ok(next_part_asked(matches, database, next))
        }
        _ => Ok(None),
    }
}

/// What is printed of a journal with these further parts.
fn journal_args<'a>(matches: &ArgMatches<'a>, parts: Vec<&'a str>) -> JournalArgs<'a>
    ensures path { result.path.now ≡ word_in (rows_of (found_of matches.now)) (codes "FILE") }
    ensures parts { result.parts ≡ parts.entry }
    ensures clearance { option_map (λ word. word.now) result.clearance
        ≡ first_of (codes "CLEARANCE") (rows_of (found_of matches.now)) }
    ensures offset { result.offset.minutes
        ≡ offset_in (first_of (codes "offset") (rows_of (found_of matches.now))) }
    ensures commands { result.commands
        ≡ flag_in (first_of (codes "commands") (rows_of (found_of matches.now))) }
{
    JournalArgs {
        path: word_of(matches, "FILE"),
        parts,
        clearance: option_of(matches, "CLEARANCE"),
        offset: offset_of(matches),
        commands: flag_of(matches, "commands"),
    }
}

/// The next part that is to be begun, if nothing is asked for beside it.
fn next_part_asked<'a>(
    matches: &ArgMatches<'a>,
    database: &'a str,
    next: &'a str,
) -> Option<Asked<'a>>
    ensures { MatchOption result
        (IsMoreThanNext (first_of (codes "CLEARANCE") (rows_of (found_of matches.now)))
        (first_of (codes "offset") (rows_of (found_of matches.now)))
        (flag_in (first_of (codes "commands") (rows_of (found_of matches.now)))))
        (AsksNextPart (rows_of (found_of matches.now)) database.entry.now next.entry.now) }
{
    match (
        option_of(matches, "CLEARANCE"),
        option_of(matches, "offset"),
        flag_of(matches, "commands"),
    ) {
        (None, None, false) => Some(Asked::NextPart(NextPartArgs {
            path: word_of(matches, "FILE"),
            database,
            next,
        })),
        _ => None,
    }
}

/// What `verify DB JOURNAL [--part FILE]... [--from COPY] [FILES]...` asks for, if it names a copy
/// and no files, or three files alone.
fn verify_asked<'a>(
    alloc: Global,
    matches: &ArgMatches<'a>,
) -> Result<Option<Asked<'a>>, AllocError>
    ensures { IfOk result (λ asked. MatchOption asked
        (IsNoVerify (rows_of (found_of matches.now)))
        (AsksVerified (rows_of (found_of matches.now)))) }
{
    let files = words_of(alloc, matches, "FILES")?;
    match (option_of(matches, "from"), files.as_slice()) {
        (Some(copy), []) => {
            let args = verify_from_args(alloc, matches, copy)?;
            Ok(Some(Asked::VerifyFrom(args)))
        }
        (None, [sections, points, staff]) => {
            let files = Files {
                sections: *sections,
                points: *points,
                staff: *staff,
            };
            let args = verify_args(alloc, matches, files)?;
            Ok(Some(Asked::Verify(args)))
        }
        _ => Ok(None),
    }
}

/// What is verified with these files.
fn verify_args<'a>(
    alloc: Global,
    matches: &ArgMatches<'a>,
    files: Files<'a>,
) -> Result<VerifyArgs<'a>, AllocError>
    ensures database { IfOk result (λ args. args.database.now
        ≡ word_in (rows_of (found_of matches.now)) (codes "DB")) }
    ensures journal { IfOk result (λ args. args.journal.now
        ≡ word_in (rows_of (found_of matches.now)) (codes "JOURNAL")) }
    ensures parts { IfOk result (λ args. map (λ word. word.now) args.parts.items
        ≡ words_in (rows_of (found_of matches.now)) (codes "part")) }
    ensures files { IfOk result (λ args. args.files ≡ files.entry) }
{
    let parts = words_of(alloc, matches, "part")?;
    Ok(VerifyArgs {
        database: word_of(matches, "DB"),
        journal: word_of(matches, "JOURNAL"),
        parts,
        files,
    })
}

/// What is verified with this copy.
fn verify_from_args<'a>(
    alloc: Global,
    matches: &ArgMatches<'a>,
    copy: &'a str,
) -> Result<VerifyFromArgs<'a>, AllocError>
    ensures database { IfOk result (λ args. args.database.now
        ≡ word_in (rows_of (found_of matches.now)) (codes "DB")) }
    ensures journal { IfOk result (λ args. args.journal.now
        ≡ word_in (rows_of (found_of matches.now)) (codes "JOURNAL")) }
    ensures parts { IfOk result (λ args. map (λ word. word.now) args.parts.items
        ≡ words_in (rows_of (found_of matches.now)) (codes "part")) }
    ensures copy { IfOk result (λ args. args.copy.now ≡ copy.entry.now) }
{
    let parts = words_of(alloc, matches, "part")?;
    Ok(VerifyFromArgs {
        database: word_of(matches, "DB"),
        journal: word_of(matches, "JOURNAL"),
        parts,
        copy,
    })
}

/// What `update DB SECTIONS POINTS STAFF [--journal FILE] [--dry-run] [--without JUMPER]...` asks
/// for.
fn update_args<'a>(alloc: Global, matches: &ArgMatches<'a>) -> Result<UpdateArgs<'a>, AllocError>
    ensures { IfOk result (AsksUpdate (rows_of (found_of matches.now))) }
{
    let database = word_of(matches, "DB");
    let files = three_files(matches);
    let journal = option_of(matches, "journal");
    let dry_run = flag_of(matches, "dry-run");
    let without = words_of(alloc, matches, "without")?;
    Ok(UpdateArgs {
        database,
        files,
        journal,
        dry_run,
        without,
    })
}

/// What `archive DB [--journal FILE] --before MOMENT` asks for.
fn archive_args<'a>(matches: &ArgMatches<'a>) -> ArchiveArgs<'a>
    ensures { AsksArchive (rows_of (found_of matches.now)) result }
{
    ArchiveArgs {
        database: word_of(matches, "DB"),
        journal: option_of(matches, "journal"),
        before: moment_of(matches),
    }
}

/// What `migrate DB [--journal FILE] [--after NUMBER]` asks for.
fn migrate_args<'a>(matches: &ArgMatches<'a>) -> MigrateArgs<'a>
    ensures { AsksMigrate (rows_of (found_of matches.now)) result }
{
    MigrateArgs {
        database: word_of(matches, "DB"),
        journal: option_of(matches, "journal"),
        after: option_of(matches, "after"),
    }
}
