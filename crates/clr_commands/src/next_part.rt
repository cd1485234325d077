//! The subcommand `journal --next`: the next part of a journal is begun.
ghost use Rattle.std.specs.Prelude.{IfErr};
ghost use Rattle.clr_commands.specs.Faults.{IsOfSubcommand};
ghost use Rattle.clr_commands.specs.NextPart.{BeginsNext};
ghost use Rattle.clr_keeping.specs.TakenUp.{logs};

use clr_args::asked::NextPartArgs;
use clr_edge::database::Databases;
use clr_edge::fault::Fault;
use clr_edge::journals::Journals;
use clr_keeping::beginning::begin_next;
use std::alloc::Global;

/// What `journal FILE --db DB --next NEW` prints: the number after which the next part goes on,
/// once it is begun and the register is at its first line.
pub fn next_part<R: Databases + Journals>(
    alloc: Global,
    rt: &mut R,
    args: &NextPartArgs<'_>,
) -> Result<String, Fault>
    ensures visit { BeginsNext (logs R.Journals R.Log.Journal R.Time.shows)
        R.Tables.Store R.opens R.shuts R.ends args.now result rt.old rt.new }
    ensures faults { IfErr result IsOfSubcommand }
{
    let number = begin_next(alloc, rt, args.database, args.path, args.next)?;
    let line = format!(in alloc; "next part after {number}\n")?;
    Ok(line)
}
