//! The commands that give a clearance back.
ghost use Rattle.std.specs.Prelude.{◌≡◌, [], IfOk, IsTrue, None, false};
ghost use Rattle.std.specs.List.{list_all};
ghost use Rattle.clr_net.specs.Name.{is_name};
ghost use Rattle.clr_rules.specs.Good.{IsGood};
ghost use Rattle.clr_rules.specs.Checks.{employee};
ghost use Rattle.clr_rules.specs.Fit.{IsFit};
ghost use Rattle.clr_rules.specs.Records.{is_closed};
ghost use Rattle.clr_rules.specs.WayBack.{way_back};
ghost use Rattle.clr_wayback.specs.Answer.{GivesBack, IsTried, commands_or_no_way, tried};
ghost use Rattle.clr_wayback.specs.Answer.{way_back_answer};
ghost use Rattle.clr_wayback.specs.Open.{over_in};

use crate::open::open_part;
use crate::walk::walk;
use clr_book::Book;
use clr_rules::{ClearanceId, Command, Hold, Items, Phase, PointState, Record, StepRow};
use clr_shelf::Shelf;
use clr_staff::StaffRow;
use std::alloc::{AllocError, Global};

/// What is answered to one who asks for the way back of a clearance.
#[derive(Debug, Drop)]
pub enum WayBack {
    /// The commands that close it, in their order; none where it is Closed.
    Commands(Items<Command>),
    /// There is no such clearance or switch order.
    NoSuch,
    /// One of the commands would be refused, as where nobody of the staff can give it.
    NoWay,
}

/// The commands by which the staff closes the record of a clearance or a switch order, whatever its
/// phase is, without closing or opening a point. They are all accepted, if they are given one after
/// the other and no other command between them: `NoWay` where one of them would be refused.
///
/// The commands are tried in a copy of what is open: no closed record and no step of one is looked
/// at. An opening asks of every register to be good and staffed. Of such a register there is no way
/// only where a step of the record is given out and the staff has no field employee.
pub fn way_back<P, C, T, H>(
    alloc: Global,
    book: &Book<P, C, T, H>,
    id: &ClearanceId,
) -> Result<WayBack, AllocError>
where
    P: Shelf<PointState>,
    C: Shelf<Record>,
    T: Shelf<StepRow>,
    H: Shelf<Hold>,
    ensures answer { IsGood book.now.register
        → IfOk result (λ answer. answer ≡ way_back_answer book.now.register id.now) }
    ensures tried { IsGood book.now.register
        → IfOk result (IsTried book.now.register id.now) }
    ensures closes { IsFit book.now.register
        → IfOk result (GivesBack book.now.register id.now) }
{
    all_named(book.staff().rows());
    let answer = answer_of(alloc, book, id)?;
    Ok(answer)
}

/// The way back of a clearance of a book.
fn answer_of<P, C, T, H>(
    alloc: Global,
    book: &Book<P, C, T, H>,
    id: &ClearanceId,
) -> Result<WayBack, AllocError>
where
    P: Shelf<PointState>,
    C: Shelf<Record>,
    T: Shelf<StepRow>,
    H: Shelf<Hold>,
    requires { employee book.now.register.staff [] ≡ None }
    ensures { IsGood book.now.register
        → IfOk result (λ answer. answer ≡ way_back_answer book.now.register id.now) }
{
    match book.record(id) {
        Some(record) if is_over(record) => Ok(WayBack::Commands(Items::new(Vec::new(alloc)))),
        Some(_) => walked(alloc, book, id),
        None => Ok(WayBack::NoSuch),
    }
}

/// Whether a record is closed.
fn is_over(record: &Record) -> bool
    ensures { result ≡ is_closed record.now.phase }
{
    matches!(record.phase, Phase::Closed)
}

/// The way back of a clearance whose record is open.
fn walked<P, C, T, H>(
    alloc: Global,
    book: &Book<P, C, T, H>,
    id: &ClearanceId,
) -> Result<WayBack, AllocError>
where
    P: Shelf<PointState>,
    C: Shelf<Record>,
    T: Shelf<StepRow>,
    H: Shelf<Hold>,
    requires { employee book.now.register.staff [] ≡ None }
    ensures { IsGood book.now.register → over_in book.now.register id.now ≡ false
        → IfOk result (λ answer.
        answer ≡ commands_or_no_way (tried book.now.register
        (way_back book.now.register id.now))) }
{
    let mut open = open_part(alloc, book)?;
    match walk(alloc, &mut open, id)? {
        Some(commands) => Ok(WayBack::Commands(Items::new(commands))),
        None => Ok(WayBack::NoWay),
    }
}

/// Each employee has a name: a law, with nothing to do.
fn all_named(staff: &[StaffRow])
    ensures { IsTrue (list_all (λ row. is_name row.name) staff.now) }
{
    for row in staff {
        let _name = row.name.as_str();
    }
}
