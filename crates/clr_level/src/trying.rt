//! The lines after a register's place are tried before anything of them is carried out.
ghost use Rattle.std.specs.Prelude.{◌≡◌, ◌<◌, IfNone, IfOk, IfSome, [], length, map, option_map};
ghost use Rattle.std.specs.Prelude.{true};
ghost use Rattle.serde_json.specs.View.{view};
ghost use Rattle.clr_changes.specs.Deeds.{after_deed, archive, command as of_command, deed_of};
ghost use Rattle.clr_changes.specs.Deeds.{update};
ghost use Rattle.clr_rules.specs.Good.{IsGood};
ghost use Rattle.clr_update.specs.Shown.{as_changes};
ghost use Rattle.clr_journal.specs.Journals.{carried_out, withdraws};
ghost use Rattle.clr_journal.specs.Answered.{deed_reply};
ghost use Rattle.clr_journal.specs.Line.{entry_of, is_accepted};
ghost use Rattle.clr_verify.specs.Replies.{DecidesReply};
ghost use Rattle.clr_level.specs.Forward.{AreShallow, IsNext, IsTried, due};

use clr_answer::Decision;
use clr_book::Book;
use clr_book::own::answer;
use clr_changes::made_of;
use clr_desk::{DeskBook, book_after, book_archived, copy_of};
use clr_journal::{Carried, Changes, Deed, Line, is_accepted};
use clr_rules::{Command, Hold, Moment, PointState, Record, StepRow};
use clr_shelf::Shelf;
use clr_verify::{is_done, is_reply};
use serde_json::Value;
use std::alloc::{AllocError, Global};

/// The number of the first line whose deed is answered otherwise than the line says, if there is
/// one, where what was accepted in these lines and not withdrawn is carried out in order. Nothing
/// changes: where there are several deeds, they are carried out in a copy of the book.
pub(crate) fn first_differing(
    alloc: Global,
    book: &DeskBook,
    lines: &[Line],
) -> Result<Option<u64>, AllocError>
    ensures { IsGood book.now.register → AreShallow (map entry_of lines.now)
        → IfOk result (IsTried book.now.register (map entry_of lines.now)) }
{
    match next_due(lines) {
        None => Ok(None),
        Some((one, rest)) => match next_due(rest) {
            None => if is_answer(alloc, book, one)? {
                Ok(None)
            } else {
                Ok(Some(one.receipt.number))
            },
            Some(_) => {
                let copy = copy_of(alloc, book)?;
                first_in(alloc, copy, lines)
            }
        },
    }
}

/// The same, where the deeds are carried out in a book that is kept nowhere.
fn first_in(alloc: Global, copy: DeskBook, lines: &[Line]) -> Result<Option<u64>, AllocError>
    ensures { IsGood copy.register → AreShallow (map entry_of lines.now)
        → IfOk result (IsTried copy.register (map entry_of lines.now)) }
{
    let mut copy = copy;
    let mut left = lines;
    while let Some((one, rest)) = next_due(left) {
        if !carry_in(alloc, &mut copy, one)? {
            return Ok(Some(one.receipt.number));
        }
        left = rest;
    }
    Ok(None)
}

/// Whether a deed is answered as its line says. Where it is, it is carried out.
fn carry_in(alloc: Global, copy: &mut DeskBook, one: &Carried) -> Result<bool, AllocError>
    requires { is_accepted (view one.now.reply) ≡ true }
    ensures same { IsGood copy.old.register → IfOk result (DecidesReply (view one.now.reply)
        (deed_reply copy.old.register (deed_of one.now.deed))) }
    ensures register { IsGood copy.old.register → IfOk result (λ same. same ≡ true
        → copy.new.register ≡ after_deed copy.old.register (deed_of one.now.deed)) }
{
    match &one.deed {
        Deed::Command(command) => carry_command(alloc, copy, command, &one.reply),
        Deed::Update(changes) => carry_update(alloc, copy, changes, &one.reply),
        Deed::Archive(before) => carry_archive(alloc, copy, *before, &one.reply),
    }
}

/// Whether a command is answered with this reply. Where it is, it is carried out.
fn carry_command<P, C, T, H>(
    alloc: Global,
    copy: &mut Book<P, C, T, H>,
    command: &Command,
    due: &Value,
) -> Result<bool, AllocError>
where
    P: Shelf<PointState>,
    C: Shelf<Record>,
    T: Shelf<StepRow>,
    H: Shelf<Hold>,
    ensures same { IsGood copy.old.register → IfOk result (DecidesReply (view due.now)
        (deed_reply copy.old.register (of_command command.now))) }
    ensures register { IsGood copy.old.register → IfOk result (λ same. same ≡ true
        → copy.new.register ≡ after_deed copy.old.register (of_command command.now)) }
{
    let decision = answer(copy, command)?;
    let Decision { reply, change } = decision;
    if !is_reply(alloc, due, &reply)? {
        return Ok(false);
    }
    copy.reserve(&change)?;
    copy.apply(change);
    Ok(true)
}

/// Whether changes can be made, and this is their reply. Where it is, they are made.
fn carry_update(
    alloc: Global,
    copy: &mut DeskBook,
    changes: &Changes,
    due: &Value,
) -> Result<bool, AllocError>
    requires { is_accepted (view due.now) ≡ true }
    ensures same { IsGood copy.old.register → IfOk result (DecidesReply (view due.now)
        (deed_reply copy.old.register (update (as_changes changes.now)))) }
    ensures register { IsGood copy.old.register → IfOk result (λ same. same ≡ true
        → copy.new.register ≡ after_deed copy.old.register (update (as_changes changes.now))) }
{
    let made = made_of(alloc, copy, changes)?;
    let Some(after) = made else {
        return Ok(false);
    };
    if !is_done(alloc, due)? {
        return Ok(false);
    }
    *copy = book_after(alloc, copy, after)?;
    Ok(true)
}

/// Whether this is the reply of an archive. Where it is, it is carried out.
fn carry_archive(
    alloc: Global,
    copy: &mut DeskBook,
    before: Moment,
    due: &Value,
) -> Result<bool, AllocError>
    ensures same { IsGood copy.old.register → IfOk result (DecidesReply (view due.now)
        (deed_reply copy.old.register (archive before))) }
    ensures register { IsGood copy.old.register → IfOk result (λ same. same ≡ true
        → copy.new.register ≡ after_deed copy.old.register (archive before)) }
{
    if !is_done(alloc, due)? {
        return Ok(false);
    }
    *copy = book_archived(alloc, copy, before)?;
    Ok(true)
}

/// Whether a deed is answered as its line says.
fn is_answer<P, C, T, H>(
    alloc: Global,
    book: &Book<P, C, T, H>,
    one: &Carried,
) -> Result<bool, AllocError>
where
    P: Shelf<PointState>,
    C: Shelf<Record>,
    T: Shelf<StepRow>,
    H: Shelf<Hold>,
    requires { is_accepted (view one.now.reply) ≡ true }
    ensures { IsGood book.now.register → IfOk result (DecidesReply (view one.now.reply)
        (deed_reply book.now.register (deed_of one.now.deed))) }
{
    match &one.deed {
        Deed::Command(command) => is_reply_to(alloc, book, command, &one.reply),
        Deed::Update(changes) => is_outcome(alloc, book, changes, &one.reply),
        Deed::Archive(_) => is_done(alloc, &one.reply),
    }
}

/// Whether a command is answered with this reply.
fn is_reply_to<P, C, T, H>(
    alloc: Global,
    book: &Book<P, C, T, H>,
    command: &Command,
    due: &Value,
) -> Result<bool, AllocError>
where
    P: Shelf<PointState>,
    C: Shelf<Record>,
    T: Shelf<StepRow>,
    H: Shelf<Hold>,
    ensures { IsGood book.now.register → IfOk result (DecidesReply (view due.now)
        (deed_reply book.now.register (of_command command.now))) }
{
    let decision = answer(book, command)?;
    is_reply(alloc, due, &decision.reply)
}

/// Whether changes can be made, and this is their reply.
fn is_outcome<P, C, T, H>(
    alloc: Global,
    book: &Book<P, C, T, H>,
    changes: &Changes,
    due: &Value,
) -> Result<bool, AllocError>
where
    P: Shelf<PointState>,
    C: Shelf<Record>,
    T: Shelf<StepRow>,
    H: Shelf<Hold>,
    requires { is_accepted (view due.now) ≡ true }
    ensures { IfOk result (DecidesReply (view due.now)
        (deed_reply book.now.register (update (as_changes changes.now)))) }
{
    let made = made_of(alloc, book, changes)?;
    match made {
        Some(_after) => is_done(alloc, due),
        None => Ok(false),
    }
}

/// The next deed that is to be carried out, and the lines after its own.
fn next_due(lines: &[Line]) -> Option<(&Carried, &[Line])>
    ensures next { IfSome result (λ found.
        IsNext (map entry_of lines.now) found.0.now (map entry_of found.1.now)) }
    ensures none { IfNone result (carried_out (map entry_of lines.now) ≡ []) }
    ensures shorter { IfSome result (λ found. length found.1.now < length lines.now) }
{
    let mut left = lines;
    while let Some((line, rest)) = left.split_first() {
        if let Some(one) = due(line, rest) {
            return Some((one, rest));
        }
        left = rest;
    }
    None
}

/// The deed of a line, where it was accepted and the next line does not withdraw it.
fn due<'a>(line: &'a Line, rest: &[Line]) -> Option<&'a Carried>
    ensures { option_map (λ one. one.now) result ≡ due line.now (map entry_of rest.now) }
{
    match line {
        Line::Carried(one) => {
            if is_accepted(&one.reply) && !withdraws(rest) {
                Some(one)
            } else {
                None
            }
        }
        Line::Withdrawn(_) => None,
    }
}

/// Whether the next line withdraws.
fn withdraws(lines: &[Line]) -> bool
    ensures { result ≡ withdraws (map entry_of lines.now) }
{
    match lines.first() {
        Some(Line::Withdrawn(_)) => true,
        _ => false,
    }
}
