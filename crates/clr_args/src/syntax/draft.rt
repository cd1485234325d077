//! A command line as far as it is written down, where memory that runs out shows at its end.
ghost use Rattle.std.specs.Prelude.{◌≡◌, false, true};
ghost use Rattle.clap.specs.Words.{App, Rule, app_of, new_app, rule_of, with_rule, with_subcommand};
ghost use Rattle.clr_args.specs.Syntax.{IsWritten};

use clap::{Arg, Command};
use std::alloc::{AllocError, Global};

/// A command line so far, unless memory ran out.
#[derive(Drop)]
pub struct Draft<'a> {
    command: Result<Command<'a>, AllocError>,
}

impl<'a> Draft<'a> {
    /// A subcommand of this name, and what it does.
    pub fn new(alloc: Global, name: &'a str, about: &'a str) -> Draft<'a>
        ensures { IsWritten (new_app name.entry.now) result.command }
    {
        Draft::of(Command::new(alloc, name).about(about))
    }

    /// A command line that is written down so far.
    pub fn of(command: Command<'a>) -> Draft<'a>
        ensures { IsWritten (app_of command.entry) result.command }
    {
        Draft {
            command: Ok(command),
        }
    }

    /// The same with an argument more.
    pub fn arg(self, arg: Arg<'a>) -> Draft<'a>
        ensures { (app : App) (rule : Rule) → rule_of arg.entry ≡ rule
            → arg.entry.global ≡ false → IsWritten app self.entry.command
            → IsWritten (with_rule app rule) result.command }
    {
        let command = match self.command {
            Ok(command) => command.arg(arg),
            Err(error) => Err(error),
        };
        Draft { command }
    }

    /// The same with a subcommand more, unless memory ran out for it.
    pub fn subcommand(self, subcommand: Result<Command<'a>, AllocError>) -> Draft<'a>
        ensures { (app sub : App) → sub.top.is_plain ≡ true
            → IsWritten app self.entry.command → IsWritten sub subcommand.entry
            → IsWritten (with_subcommand app sub.top) result.command }
    {
        Draft {
            command: with(self.command, subcommand),
        }
    }

    /// The whole command line.
    pub fn end(self) -> Result<Command<'a>, AllocError>
        ensures { (app : App) → IsWritten app self.entry.command → IsWritten app result }
    {
        self.command
    }
}

/// A command line with a subcommand, unless memory ran out for either.
fn with<'a>(
    command: Result<Command<'a>, AllocError>,
    subcommand: Result<Command<'a>, AllocError>,
) -> Result<Command<'a>, AllocError>
    ensures { (app sub : App) → sub.top.is_plain ≡ true → IsWritten app command.entry
        → IsWritten sub subcommand.entry → IsWritten (with_subcommand app sub.top) result }
{
    let above = command?;
    let below = subcommand?;
    above.subcommand(below)
}
