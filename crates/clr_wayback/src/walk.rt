//! A way back that is walked: its commands, each carried out before the next are found. The book is
//! one of what is open: what a closed record would add to it is never looked at.
ghost use Rattle.std.specs.Prelude.{◌≡◌, ◌*◌, ◌+◌, [], Bool, IfOk, None, OnOk, false, filter};
ghost use Rattle.std.specs.Prelude.{length, true};
ghost use Rattle.clr_rules.specs.Answer.{Answer, answer};
ghost use Rattle.clr_rules.specs.Checks.{employee};
ghost use Rattle.clr_rules.specs.Command.{named_clearance};
ghost use Rattle.clr_rules.specs.Id.{Id};
ghost use Rattle.clr_rules.specs.Register.{Register};
ghost use Rattle.clr_rules.specs.Run.{after, after_all};
ghost use Rattle.clr_rules.specs.Steps.{is_of_round};
ghost use Rattle.clr_rules.specs.WayBack.{enough_turns, way_back};
ghost use Rattle.clr_rules.specs.laws.WayBack.{is_accepted};
ghost use Rattle.clr_wayback.specs.Answer.{are_accepted, items_of, tried};
ghost use Rattle.clr_wayback.specs.Open.{AllNameAnother, LacksOnly, NamesAnother};

use crate::moves::next_moves;
use clr_book::Book;
use clr_rules::{ClearanceId, Command, Hold, PointState, Record, Reply, StepRow};
use clr_shelf::Shelf;
use std::alloc::{AllocError, Global};

/// The commands of the way back of a clearance, which are carried out in the book. There is no list
/// where one of them would be refused.
pub(crate) fn walk<P, C, T, H>(
    alloc: Global,
    book: &mut Book<P, C, T, H>,
    id: &ClearanceId,
) -> Result<Option<Vec<Command>>, AllocError>
where
    P: Shelf<PointState>,
    C: Shelf<Record>,
    T: Shelf<StepRow>,
    H: Shelf<Hold>,
    ensures { (gone : Id → Bool) (R : Register) → LacksOnly gone R book.old.register
        → gone id.now ≡ false → employee R.staff [] ≡ None
        → IfOk result (λ commands. items_of commands ≡ tried R (way_back R id.now)) }
{
    let mut commands = Vec::new(alloc);
    let turns = enough_turns(book, id)?;
    for _turn in 0..turns {
        let Some(mut moves) = next_moves(alloc, book, id)? else {
            return Ok(None);
        };
        if moves.is_empty() {
            return Ok(Some(commands));
        }
        if !carry_out_all(book, &moves)? {
            return Ok(None);
        }
        commands.append(&mut moves)?;
    }
    Ok(Some(commands))
}

/// Turns that are enough.
fn enough_turns<P, C, T, H>(book: &Book<P, C, T, H>, id: &ClearanceId) -> Result<u128, AllocError>
where
    P: Shelf<PointState>,
    C: Shelf<Record>,
    T: Shelf<StepRow>,
    H: Shelf<Hold>,
    ensures { IfOk result (λ n. n ≡ enough_turns book.now.register id.now) }
{
    let steps = book.steps(id)?;
    let left = count_of_round(&steps, *id, 2);
    let (_, _, _, holds) = book.shelves();
    Ok(5 * (257 + left as u128) + holds.len() as u128)
}

/// How many of these steps are of a round of a clearance.
fn count_of_round(steps: &[&StepRow], id: ClearanceId, round: u8) -> usize
    ensures { result ≡ length (filter (λ row. is_of_round id round row.now) steps.now) }
{
    steps
        .iter()
        .filter(|row| row.is_of_round(id, round))
        .count()
}

/// Carries out commands, one after the other, up to the first that is refused. Whether none was.
fn carry_out_all<P, C, T, H>(
    book: &mut Book<P, C, T, H>,
    commands: &[Command],
) -> Result<bool, AllocError>
where
    P: Shelf<PointState>,
    C: Shelf<Record>,
    T: Shelf<StepRow>,
    H: Shelf<Hold>,
    ensures accepted { (gone : Id → Bool) (R : Register) → LacksOnly gone R book.old.register
        → AllNameAnother gone commands.now
        → IfOk result (λ accepted. accepted ≡ are_accepted R commands.now) }
    ensures lacks { (gone : Id → Bool) (R : Register) → LacksOnly gone R book.old.register
        → AllNameAnother gone commands.now → IfOk result (λ accepted. accepted ≡ true
        → LacksOnly gone (after_all R commands.now) book.new.register) }
{
    for command in commands {
        if !carry_out(book, command)? {
            return Ok(false);
        }
    }
    Ok(true)
}

/// Carries out a command: it is answered, and its change is made. Whether it was accepted.
fn carry_out<P, C, T, H>(book: &mut Book<P, C, T, H>, command: &Command) -> Result<bool, AllocError>
where
    P: Shelf<PointState>,
    C: Shelf<Record>,
    T: Shelf<StepRow>,
    H: Shelf<Hold>,
    ensures accepted { (gone : Id → Bool) (R : Register) → LacksOnly gone R book.old.register
        → NamesAnother gone (named_clearance command.now.kind)
        → IfOk result (λ accepted.
        accepted ≡ is_accepted (Answer.reply (answer R command.now))) }
    ensures lacks { (gone : Id → Bool) (R : Register) → LacksOnly gone R book.old.register
        → NamesAnother gone (named_clearance command.now.kind)
        → OnOk result (LacksOnly gone (after R command.now) book.new.register) }
{
    let decision = book.answer(command)?;
    let accepted = is_accepted(&decision.reply);
    book.reserve(&decision.change)?;
    book.apply(decision.change);
    Ok(accepted)
}

fn is_accepted(reply: &Reply) -> bool
    ensures { result ≡ is_accepted reply.now }
{
    matches!(reply, Reply::Accepted(_))
}
