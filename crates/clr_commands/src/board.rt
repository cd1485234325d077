//! The subcommand `board`: what clearances and switch orders are not closed.
ghost use Rattle.std.specs.Prelude.{◌≡◌, IfErr, IfOk, string_bytes};
ghost use Rattle.clr_print.specs.Printed.{board_text};
ghost use Rattle.clr_commands.specs.Faults.{IsOfSubcommand};
ghost use Rattle.clr_commands.specs.Stored.{PrintsBoard};
ghost use Rattle.clr_edge.specs.Visit.{Comes};

use clr_args::asked::{BoardArgs, Offset};
use clr_book::Book;
use clr_edge::database::{Databases, close};
use clr_edge::fault::Fault;
use clr_keeping::taking_up::open_desk;
use clr_print::print_board;
use clr_rules::{Hold, PointState, Record, StepRow};
use clr_shelf::Shelf;
use std::alloc::Global;

/// What `board DB [--offset MINUTES]` prints. It is also printed where the database cannot be
/// closed, as on a full disk.
pub fn board<R: Databases>(alloc: Global, rt: &mut R, args: &BoardArgs<'_>) -> Result<String, Fault>
    ensures visit { Comes R.opens R.shuts R.ends args.now.database.now
        (PrintsBoard R.Tables.Store args.now) result rt.old rt.new }
    ensures faults { IfErr result IsOfSubcommand }
{
    let desk = open_desk(alloc, rt, args.database)?;
    let printed = board_of(alloc, desk.book(), args.offset);
    let _closed = close(rt, desk.end().end());
    printed
}

/// The printed board of a book.
pub fn board_of<P, C, T, H>(
    alloc: Global,
    book: &Book<P, C, T, H>,
    offset: Offset,
) -> Result<String, Fault>
where
    P: Shelf<PointState>,
    C: Shelf<Record>,
    T: Shelf<StepRow>,
    H: Shelf<Hold>,
    ensures text { IfOk result (λ text. string_bytes text
        ≡ board_text book.now.register offset.minutes) }
    ensures fault { IfErr result (λ fault. fault ≡ Fault.Memory) }
{
    let text = print_board(alloc, book, offset.minutes)?;
    Ok(text)
}
