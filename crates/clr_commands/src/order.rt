//! The subcommand `order`: one round of a clearance or a switch order, as it is printed.
ghost use Rattle.std.specs.Prelude.{◌≡◌, IfErr, option_map};
ghost use Rattle.clr_commands.specs.Answers.{GivesText, IsMemory};
ghost use Rattle.clr_commands.specs.Faults.{IsOfSubcommand};
ghost use Rattle.clr_commands.specs.Order.{order_told, read_round};
ghost use Rattle.clr_commands.specs.Stored.{IsOfOrder, PrintsOrder};
ghost use Rattle.clr_edge.specs.Visit.{Comes};

use clr_args::asked::{Offset, OrderArgs};
use clr_book::Book;
use clr_edge::database::{Databases, close};
use clr_edge::fault::Fault;
use clr_keeping::taking_up::open_desk;
use clr_print::print_order;
use clr_rules::{ClearanceId, Hold, PointState, Record, StepRow};
use clr_shelf::Shelf;
use std::alloc::Global;

/// What `order DB CLEARANCE ROUND [--offset MINUTES]` prints. It is also printed where
/// the database cannot be closed, as on a full disk.
pub fn order<R: Databases>(alloc: Global, rt: &mut R, args: &OrderArgs<'_>) -> Result<String, Fault>
    ensures visit { Comes R.opens R.shuts R.ends args.now.database.now
        (PrintsOrder R.Tables.Store args.now) result rt.old rt.new }
    ensures faults { IfErr result IsOfSubcommand }
{
    let desk = open_desk(alloc, rt, args.database)?;
    let printed = order_of(alloc, desk.book(), args.clearance, args.round, args.offset);
    let _closed = close(rt, desk.end().end());
    printed
}

/// The printed order of a book that two words name.
///
/// `NoSuch` where `clearance` names no clearance, `round` is neither `1` nor `2`, the book has no
/// such clearance, or that round has no steps.
pub fn order_of<P, C, T, H>(
    alloc: Global,
    book: &Book<P, C, T, H>,
    clearance: &str,
    round: &str,
    offset: Offset,
) -> Result<String, Fault>
where
    P: Shelf<PointState>,
    C: Shelf<Record>,
    T: Shelf<StepRow>,
    H: Shelf<Hold>,
    ensures answer { GivesText IsMemory
        (order_told book.now.register clearance.now round.now offset.minutes) result }
    ensures faults { IfErr result IsOfOrder }
{
    let Ok(id) = ClearanceId::read(clearance) else {
        return Err(Fault::NoSuch);
    };
    let Some(round) = read_round(round) else {
        return Err(Fault::NoSuch);
    };
    match print_order(alloc, book, &id, round, offset.minutes)? {
        Some(text) => Ok(text),
        None => Err(Fault::NoSuch),
    }
}

/// The round that a word names.
fn read_round(word: &str) -> Option<u8>
    ensures { result ≡ read_round word.now }
{
    if word == "1" {
        Some(1)
    } else if word == "2" {
        Some(2)
    } else {
        None
    }
}
