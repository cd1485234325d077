//! The subcommand `wayback`: the commands that give a clearance or a switch order back.
ghost use Rattle.std.specs.Prelude.{◌≡◌, IfErr};
ghost use Rattle.clr_rules.specs.Good.{IsGood};
ghost use Rattle.clr_rules.specs.IdText.{read_id};
ghost use Rattle.clr_rules.specs.Staffed.{IsStaffed};
ghost use Rattle.clr_commands.specs.Answers.{GivesText, IsMemory, Prints};
ghost use Rattle.clr_commands.specs.Faults.{IsOfSubcommand};
ghost use Rattle.clr_commands.specs.WayBack.{GivesBackTo, IsOfWayBack};
ghost use Rattle.clr_commands.specs.WayBack.{PrintsWayBack, way_back_to};
ghost use Rattle.clr_edge.specs.Visit.{Comes};

use clr_args::asked::WayBackArgs;
use clr_book::Book;
use clr_edge::database::{Databases, close};
use clr_edge::fault::Fault;
use clr_keeping::taking_up::open_desk;
use clr_rules::{ClearanceId, Hold, PointState, Record, StepRow};
use clr_shelf::Shelf;
use clr_wayback::{WayBack, print_way_back, way_back};
use std::alloc::Global;

/// What `wayback DB CLEARANCE` prints: the commands by which the clearance or switch order is given
/// back, each on a line that `run` takes; nothing where it is Closed. It is also printed where the
/// database cannot be closed, as on a full disk. The commands are tried in the book alone, so the
/// database is only read.
pub fn wayback<R: Databases>(
    alloc: Global,
    rt: &mut R,
    args: &WayBackArgs<'_>,
) -> Result<String, Fault>
    ensures visit { Comes R.opens R.shuts R.ends args.now.database.now
        (PrintsWayBack R.Tables.Store args.now) result rt.old rt.new }
    ensures faults { IfErr result IsOfSubcommand }
{
    let desk = open_desk(alloc, rt, args.database)?;
    let (book, store) = desk.parted();
    let printed = wayback_of(alloc, &book, args.clearance);
    let _closed = close(rt, store.end());
    printed
}

/// The way back of the clearance that a word names, in a good book.
///
/// `NoSuch` where the word names no clearance, or the book has no such clearance; `NoWay` where one
/// of the commands would be refused. Of a book that is staffed too, that is only where a step of
/// the clearance is given out and the staff has no field employee.
pub fn wayback_of<P, C, T, H>(
    alloc: Global,
    book: &Book<P, C, T, H>,
    clearance: &str,
) -> Result<String, Fault>
where
    P: Shelf<PointState>,
    C: Shelf<Record>,
    T: Shelf<StepRow>,
    H: Shelf<Hold>,
    requires { IsGood book.now.register }
    ensures answer { GivesText IsMemory
        (way_back_to book.now.register (read_id clearance.now)) result }
    ensures back { IsStaffed book.now.register → Prints IsMemory (λ known.
        GivesBackTo book.now.register (read_id clearance.now)) result }
    ensures faults { IfErr result IsOfWayBack }
{
    let Ok(id) = ClearanceId::read(clearance) else {
        return Err(Fault::NoSuch);
    };
    match way_back(alloc, book, &id)? {
        WayBack::Commands(commands) => {
            let text = print_way_back(alloc, commands.as_slice())?;
            Ok(text)
        }
        WayBack::NoSuch => Err(Fault::NoSuch),
        WayBack::NoWay => Err(Fault::NoWay),
    }
}
