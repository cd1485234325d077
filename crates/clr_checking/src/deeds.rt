//! Deeds are carried out over a register that is kept nowhere, and their replies looked at.
ghost use Rattle.std.specs.Prelude.{◌≡◌, if◌then◌else◌, IfErr, IfOk, OnOk};
ghost use Rattle.serde_json.specs.View.{view};
ghost use Rattle.clr_checking.specs.Brief.{DecidesDeed, DecidesTaken};
ghost use Rattle.clr_changes.specs.Deeds.{after_deed, archive, command as of_command, deed_of};
ghost use Rattle.clr_changes.specs.Deeds.{update};
ghost use Rattle.clr_journal.specs.Answered.{deed_reply, not_done};
ghost use Rattle.clr_journal.specs.Line.{done};
ghost use Rattle.clr_rules.specs.Answer.{Answer, answer};
ghost use Rattle.clr_rules.specs.Good.{IsGood};
ghost use Rattle.clr_update.specs.Shown.{as_changes};
ghost use Rattle.clr_verify.specs.Replies.{DecidesReply};

use crate::brief::is_taken;
use crate::fault::CheckFault;
use clr_book::own::answer;
use clr_changes::made_of;
use clr_desk::{Desk, DeskBook, Unkept};
use clr_journal::{Changes, Deed};
use clr_rules::{Command, Moment};
use clr_verify::{is_done, is_not_done, is_reply};
use serde_json::Value;
use std::alloc::{AllocError, Global};

/// Carries out a deed. Whether it is answered with this reply.
pub(crate) fn carry_out(
    alloc: Global,
    desk: &mut Desk<Unkept>,
    deed: Deed,
    reply: &Value,
) -> Result<bool, CheckFault>
    requires { IsGood desk.old.book.register }
    ensures good { OnOk result (IsGood desk.new.book.register) }
    ensures register { OnOk result
        (desk.new.book.register ≡ after_deed desk.old.book.register (deed_of deed)) }
    ensures reply { IfOk result
        (DecidesReply (view reply.now) (deed_reply desk.old.book.register (deed_of deed))) }
    ensures fault { IfErr result (λ fault. fault ≡ CheckFault.NoMemory) }
{
    match deed {
        Deed::Command(command) => carry_command(alloc, desk, command, reply),
        Deed::Update(changes) => carry_update(alloc, desk, &changes, reply),
        Deed::Archive(before) => carry_archive(alloc, desk, before, reply),
    }
}

/// Carries out a command. Whether it is answered with this reply.
fn carry_command(
    alloc: Global,
    desk: &mut Desk<Unkept>,
    command: Command,
    reply: &Value,
) -> Result<bool, CheckFault>
    requires { IsGood desk.old.book.register }
    ensures register { OnOk result
        (desk.new.book.register ≡ after_deed desk.old.book.register (of_command command)) }
    ensures reply { IfOk result
        (DecidesReply (view reply.now) (deed_reply desk.old.book.register (of_command command))) }
    ensures fault { IfErr result (λ fault. fault ≡ CheckFault.NoMemory) }
{
    let Ok(own) = desk.one(command) else {
        return Err(CheckFault::NoMemory);
    };
    let is_own = is_reply(alloc, reply, &own)?;
    Ok(is_own)
}

/// Makes changes of network and staff, where they can be made. Whether this is the reply.
fn carry_update(
    alloc: Global,
    desk: &mut Desk<Unkept>,
    changes: &Changes,
    reply: &Value,
) -> Result<bool, CheckFault>
    ensures register { OnOk result (desk.new.book.register
        ≡ after_deed desk.old.book.register (update (as_changes changes.now))) }
    ensures reply { IfOk result (DecidesReply (view reply.now)
        (deed_reply desk.old.book.register (update (as_changes changes.now)))) }
    ensures fault { IfErr result (λ fault. fault ≡ CheckFault.NoMemory) }
{
    let made = made_of(alloc, desk.book(), changes)?;
    let Some(after) = made else {
        let is_own = is_not_done(alloc, reply)?;
        return Ok(is_own);
    };
    desk.renew(alloc, after)?;
    let is_own = is_done(alloc, reply)?;
    Ok(is_own)
}

/// Archives the records that were closed before a moment. Whether this is the reply.
fn carry_archive(
    alloc: Global,
    desk: &mut Desk<Unkept>,
    before: Moment,
    reply: &Value,
) -> Result<bool, CheckFault>
    requires { IsGood desk.old.book.register }
    ensures register { OnOk result
        (desk.new.book.register ≡ after_deed desk.old.book.register (archive before)) }
    ensures reply { IfOk result
        (DecidesReply (view reply.now) (deed_reply desk.old.book.register (archive before))) }
    ensures fault { IfErr result (λ fault. fault ≡ CheckFault.NoMemory) }
{
    desk.archive_here(alloc, before)?;
    let is_own = is_done(alloc, reply)?;
    Ok(is_own)
}

/// Whether the line of a refused deed is taken over a book: it has the reply that is due, or may be
/// in brief.
pub(crate) fn is_due(
    alloc: Global,
    book: &DeskBook,
    deed: &Deed,
    reply: &Value,
) -> Result<bool, AllocError>
    requires { IsGood book.now.register }
    ensures { IfOk result (DecidesDeed book.now.register (deed_of deed.now) (view reply.now)) }
{
    match deed {
        Deed::Command(command) => is_command_due(alloc, book, command, reply),
        Deed::Update(changes) => is_update_answer(alloc, book, changes, reply),
        Deed::Archive(_) => is_done(alloc, reply),
    }
}

fn is_command_due(
    alloc: Global,
    book: &DeskBook,
    command: &Command,
    reply: &Value,
) -> Result<bool, AllocError>
    requires { IsGood book.now.register }
    ensures { IfOk result (DecidesTaken command.now (view reply.now)
        (Answer.reply (answer book.now.register command.now))) }
{
    match answer(book, command) {
        Ok(decision) => is_taken(alloc, command, reply, &decision.reply),
        Err(error) => Err(error),
    }
}

fn is_update_answer(
    alloc: Global,
    book: &DeskBook,
    changes: &Changes,
    reply: &Value,
) -> Result<bool, AllocError>
    ensures { IfOk result (DecidesReply (view reply.now)
        (deed_reply book.now.register (update (as_changes changes.now)))) }
{
    let made = made_of(alloc, book, changes)?;
    is_outcome(alloc, made.is_some(), reply)
}

/// Whether this is the reply of changes that can be made, or of such as cannot.
fn is_outcome(alloc: Global, made: bool, reply: &Value) -> Result<bool, AllocError>
    ensures { IfOk result (DecidesReply (view reply.now) (if made then done else not_done)) }
{
    if made {
        is_done(alloc, reply)
    } else {
        is_not_done(alloc, reply)
    }
}
