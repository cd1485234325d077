//! The words of each subcommand.
ghost use Rattle.std.specs.Prelude.{◌≡◌, IfOk};
ghost use Rattle.clap.specs.Words.{app_of};
ghost use Rattle.clr_args.specs.Syntax.{archive, board, check, fence, init, journal, migrate};
ghost use Rattle.clr_args.specs.Syntax.{order, run, serve, update, verify, wayback};

use super::arguments::{
    at_most, flag, moment_before, number, offset, option, optional, part, repeated,
    repeated_option, required,
};
use super::draft::Draft;
use clap::Command;
use std::alloc::{AllocError, Global};

/// `fence SECTIONS POINTS WORK [CUT]...`
pub fn fence<'a>(alloc: Global) -> Result<Command<'a>, AllocError>
    ensures { IfOk result (λ c. app_of c ≡ fence) }
{
    Draft::new(
        alloc,
        "fence",
        "Prints the sections that can be reached from WORK without passing a CUT",
    )
    .arg(required(alloc, "SECTIONS", "The file of sections"))
    .arg(required(alloc, "POINTS", "The file of switching points"))
    .arg(required(alloc, "WORK", "The section to work on"))
    .arg(repeated(alloc, "CUT", "The switching points that no walk passes"))
    .end()
}

/// `check SECTIONS POINTS STAFF`
pub fn check<'a>(alloc: Global) -> Result<Command<'a>, AllocError>
    ensures { IfOk result (λ c. app_of c ≡ check) }
{
    Draft::new(
        alloc,
        "check",
        "Prints warnings about files that init accepts, one a line",
    )
    .arg(required(alloc, "SECTIONS", "The file of sections"))
    .arg(required(alloc, "POINTS", "The file of switching points"))
    .arg(required(alloc, "STAFF", "The file of the staff"))
    .end()
}

/// `init SECTIONS POINTS STAFF [--db FILE [--journal FILE]]`
pub fn init<'a>(alloc: Global) -> Result<Command<'a>, AllocError>
    ensures { IfOk result (λ c. app_of c ≡ init) }
{
    Draft::new(
        alloc,
        "init",
        "Checks the files of a network and its staff, and prints how many rows each has",
    )
    .arg(required(alloc, "SECTIONS", "The file of sections"))
    .arg(required(alloc, "POINTS", "The file of switching points"))
    .arg(required(alloc, "STAFF", "The file of the staff"))
    .arg(option(alloc, "db", "FILE", "The database to make the register in"))
    .arg(option(
        alloc,
        "journal",
        "FILE",
        "The journal to begin for it, with --db",
    ))
    .end()
}

/// `run [--db FILE [--journal FILE]] [FILES]...`
pub fn run<'a>(alloc: Global) -> Result<Command<'a>, AllocError>
    ensures { IfOk result (λ c. app_of c ≡ run) }
{
    Draft::new(
        alloc,
        "run",
        "Answers the commands of standard input, one a line",
    )
    .arg(option(alloc, "db", "FILE", "The database of a stored register"))
    .arg(option(
        alloc,
        "journal",
        "FILE",
        "The journal of the register, with --db",
    ))
    .arg(repeated(
        alloc,
        "FILES",
        "The files of sections, points and staff, without --db",
    ))
    .end()
}

/// `order DB CLEARANCE ROUND [--offset MINUTES]`
pub fn order<'a>(alloc: Global) -> Result<Command<'a>, AllocError>
    ensures { IfOk result (λ c. app_of c ≡ order) }
{
    Draft::new(
        alloc,
        "order",
        "Prints a round of a clearance or a switch order",
    )
    .arg(required(alloc, "DB", "The database of the register"))
    .arg(required(alloc, "CLEARANCE", "The clearance, as JONES/1"))
    .arg(required(alloc, "ROUND", "1, or 2 for the restoring steps"))
    .arg(offset(alloc))
    .end()
}

/// `board DB [--offset MINUTES]`
pub fn board<'a>(alloc: Global) -> Result<Command<'a>, AllocError>
    ensures { IfOk result (λ c. app_of c ≡ board) }
{
    Draft::new(
        alloc,
        "board",
        "Prints the clearances and switch orders that are not closed, and the jumpers",
    )
    .arg(required(alloc, "DB", "The database of the register"))
    .arg(offset(alloc))
    .end()
}

/// `wayback DB CLEARANCE`
pub fn wayback<'a>(alloc: Global) -> Result<Command<'a>, AllocError>
    ensures { IfOk result (λ c. app_of c ≡ wayback) }
{
    Draft::new(
        alloc,
        "wayback",
        "Prints the commands that give a clearance or a switch order back",
    )
    .arg(required(alloc, "DB", "The database of the register"))
    .arg(required(alloc, "CLEARANCE", "The clearance, as JONES/1"))
    .end()
}

/// `serve DB --port N --count N [--deadline SECONDS] [--desk] [--logins FILE] [--journal FILE]`
pub fn serve<'a>(alloc: Global) -> Result<Command<'a>, AllocError>
    ensures { IfOk result (λ c. app_of c ≡ serve) }
{
    Draft::new(
        alloc,
        "serve",
        "Answers HTTP requests on 127.0.0.1, one connection after the other",
    )
    .arg(required(alloc, "DB", "The database of the register"))
    .arg(number(alloc, "port", 65_535, "The port, from 1 to 65535"))
    .arg(number(
        alloc,
        "count",
        1_000_000,
        "How many connections are served, from 1 to 1000000",
    ))
    .arg(at_most(
        alloc,
        "deadline",
        "SECONDS",
        600,
        "How long a connection may last, from 1 to 600 seconds",
    ))
    .arg(flag(
        alloc,
        "desk",
        "Answers a control desk, and refuses what pages of other places ask",
    ))
    .arg(option(
        alloc,
        "logins",
        "FILE",
        "Who may speak for whom, with --desk: CSV with the header login,employee",
    ))
    .arg(option(alloc, "journal", "FILE", "The journal of the register"))
    .end()
}

/// `journal FILE [CLEARANCE] [--part FILE]... [--offset MINUTES] [--commands]`, or
/// `journal FILE --db DB --next NEW`
pub fn journal<'a>(alloc: Global) -> Result<Command<'a>, AllocError>
    ensures { IfOk result (λ c. app_of c ≡ journal) }
{
    Draft::new(
        alloc,
        "journal",
        "Prints the commands that a journal keeps, and their replies",
    )
    .arg(required(alloc, "FILE", "The journal"))
    .arg(optional(
        alloc,
        "CLEARANCE",
        "The one clearance that is wanted, as JONES/1",
    ))
    .arg(offset(alloc))
    .arg(flag(
        alloc,
        "commands",
        "Prints the commands alone, one a line, as run takes them",
    ))
    .arg(part(alloc))
    .arg(option(
        alloc,
        "db",
        "DB",
        "The database of the register whose journal it is, with --next",
    ))
    .arg(option(
        alloc,
        "next",
        "NEW",
        "Ends this part of the journal, and begins the next one in this file",
    ))
    .end()
}

/// `verify DB JOURNAL [--part FILE]... [--from COPY] [FILES]...`
pub fn verify<'a>(alloc: Global) -> Result<Command<'a>, AllocError>
    ensures { IfOk result (λ c. app_of c ≡ verify) }
{
    Draft::new(
        alloc,
        "verify",
        "Compares a register with a run of its journal over what it began with",
    )
    .arg(required(alloc, "DB", "The database of the register"))
    .arg(required(alloc, "JOURNAL", "The journal of the register"))
    .arg(part(alloc))
    .arg(option(
        alloc,
        "from",
        "COPY",
        "A copy of the database that was verified, in place of FILES",
    ))
    .arg(repeated(
        alloc,
        "FILES",
        "The files of sections, points and staff that the register began with",
    ))
    .end()
}

/// `update DB SECTIONS POINTS STAFF [--journal FILE] [--dry-run] [--without JUMPER]...`
pub fn update<'a>(alloc: Global) -> Result<Command<'a>, AllocError>
    ensures { IfOk result (λ c. app_of c ≡ update) }
{
    Draft::new(
        alloc,
        "update",
        "Makes network and staff of a register those of three files, and prints what changes",
    )
    .arg(required(alloc, "DB", "The database of the register"))
    .arg(required(alloc, "SECTIONS", "The file of sections"))
    .arg(required(alloc, "POINTS", "The file of switching points"))
    .arg(required(alloc, "STAFF", "The file of the staff"))
    .arg(option(alloc, "journal", "FILE", "The journal of the register"))
    .arg(flag(
        alloc,
        "dry-run",
        "Prints what would change, and writes nothing",
    ))
    .arg(repeated_option(
        alloc,
        "without",
        "JUMPER",
        "A jumper that is taken out; may be given again",
    ))
    .end()
}

/// `archive DB [--journal FILE] --before MOMENT`
pub fn archive<'a>(alloc: Global) -> Result<Command<'a>, AllocError>
    ensures { IfOk result (λ c. app_of c ≡ archive) }
{
    Draft::new(
        alloc,
        "archive",
        "Prints the steps of records that were closed before a moment, then removes them",
    )
    .arg(required(alloc, "DB", "The database of the register"))
    .arg(option(alloc, "journal", "FILE", "The journal of the register"))
    .arg(moment_before(alloc))
    .end()
}

/// `migrate DB [--journal FILE] [--after NUMBER]`
pub fn migrate<'a>(alloc: Global) -> Result<Command<'a>, AllocError>
    ensures { IfOk result (λ c. app_of c ≡ migrate) }
{
    Draft::new(
        alloc,
        "migrate",
        "Brings the tables of a register to the version that this program reads",
    )
    .arg(required(alloc, "DB", "The database of the register"))
    .arg(option(
        alloc,
        "journal",
        "FILE",
        "Begins a journal for a register that has none, and moves no tables",
    ))
    .arg(option(
        alloc,
        "after",
        "NUMBER",
        "Begins FILE as a part for a register with a journal that ends at this number",
    ))
    .end()
}
