//! The command line of gridclear, as clap reads it.
ghost use Rattle.std.specs.Prelude.{◌≡◌, IfOk};
ghost use Rattle.clap.specs.Words.{app_of};
ghost use Rattle.clr_args.specs.Syntax.{gridclear, top};

mod arguments;
mod draft;
mod subcommands;

use self::draft::Draft;
use clap::Command;
use std::alloc::{AllocError, Global};

/// What gridclear is, with which its help begins.
const ABOUT: &str = "Keeps switching orders and clearances on deenergized lines: \
    who may work where, step by step";

/// What help says of files, names and statuses.
const AFTER_HELP: &str = "Files are CSV, each with its header:\n  \
    SECTIONS  section,source\n  \
    POINTS    point,from,to,lockable,remote,position\n  \
    STAFF     employee,role,supervisor\n\
    Rows and columns count from 1 below the header, so row 3 is line 4 in a spreadsheet.\n\
    Places in a name count from 0. Write -- before a name that begins with -.\n\n\
    Status: 0 done; 1 a fault, with a line on standard error; \
    2 the command line does not parse.\n\n\
    Example: gridclear fence sections.csv points.csv L2 S2 S3";

/// The version, which `--version` prints.
const VERSION: &str = "1.0.0";

/// The whole command line. It asks for a subcommand.
pub fn command<'a>(alloc: Global) -> Result<Command<'a>, AllocError>
    ensures { IfOk result (λ c. app_of c ≡ gridclear) }
{
    Draft::of(top(alloc))
        .subcommand(subcommands::fence(alloc))
        .subcommand(subcommands::check(alloc))
        .subcommand(subcommands::init(alloc))
        .subcommand(subcommands::run(alloc))
        .subcommand(subcommands::order(alloc))
        .subcommand(subcommands::board(alloc))
        .subcommand(subcommands::wayback(alloc))
        .subcommand(subcommands::serve(alloc))
        .subcommand(subcommands::journal(alloc))
        .subcommand(subcommands::verify(alloc))
        .subcommand(subcommands::update(alloc))
        .subcommand(subcommands::archive(alloc))
        .subcommand(subcommands::migrate(alloc))
        .end()
}

/// The command line without its subcommands.
fn top<'a>(alloc: Global) -> Command<'a>
    ensures { app_of result ≡ top }
{
    Command::new(alloc, "gridclear")
        .about(ABOUT)
        .after_help(AFTER_HELP)
        .version(VERSION)
        .arg_required_else_help(true)
        .subcommand_required(true)
}
