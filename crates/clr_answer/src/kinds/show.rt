//! Anyone of the staff asks for the state of a clearance.
ghost use Rattle.std.specs.Prelude.{◌≡◌, IfOk, None, Some};
ghost use Rattle.clr_rules.specs.Answer.{reply_of};
ghost use Rattle.clr_rules.specs.Records.{record_of};
ghost use Rattle.clr_rules.specs.declared.command.Kind.TheVariants as kinds;
ghost use Rattle.clr_answer.specs.Begins.{asked_refusal};
ghost use Rattle.clr_rules.specs.declared.reply.Reply.TheVariants.{Shown};

use crate::checks::begins::Ask;
use crate::checks::callers::unknown_caller;
use crate::checks::clearances::{record, unknown_clearance};
use crate::checks::first_of;
use crate::near::Near;
use crate::view::view_of;
use clr_rules::{Refusal, View};
use std::alloc::AllocError;

pub(crate) fn refusal_of(near: &Near, asked: Ask) -> Option<Refusal>
    ensures { result ≡ asked_refusal near.now asked (kinds.Show asked.id) }
{
    first_of(&[
        unknown_caller(near, asked.by),
        unknown_clearance(near, asked.id),
    ])
}

/// What is shown. Nothing changes.
pub(crate) fn view(near: &Near, asked: Ask) -> Result<View, AllocError>
    requires { asked_refusal near.now asked (kinds.Show asked.id) ≡ None }
    ensures { IfOk result
        (λ view. reply_of near.now.known near.now.rows (kinds.Show asked.id)
        (record_of near.now.rows.records asked.id) ≡ Shown view) }
{
    let Some(found) = record(near, asked.id) else {
        unreachable!()
    };
    view_of(near, found)
}
