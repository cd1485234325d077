//! The answer to each kind of command: its checks, then what it changes.
ghost use Rattle.std.specs.Prelude.{◌≡◌, ◌+◌, false, IfOk, None, Some};
ghost use Rattle.clr_rules.specs.Answer.{answer, answer_with, reply_clearance};
ghost use Rattle.clr_rules.specs.Command.{named_clearance};
ghost use Rattle.clr_rules.specs.Good.{IsGoodAsSaid, OnlySwitchOrdersSwitch};
ghost use Rattle.clr_rules.specs.Near.{near_of};
ghost use Rattle.clr_rules.specs.Register.{Register};
ghost use Rattle.clr_answer.specs.Begins.{asked_edits, asked_refusal};
ghost use Rattle.clr_answer.specs.Decision.{ChangesIfAccepted, answer_of_decision, has_no_record};
ghost use Rattle.clr_answer.specs.Decision.{near_edits, near_refusal};
ghost use Rattle.clr_answer.specs.Effect.{IsOf, edits_in};

mod amend;
mod cancel;
mod grant;
mod ground;
mod instruct;
mod jumper;
mod new_record;
mod new_steps;
mod order;
mod release;
mod repeat;
mod report;
mod request;
mod restore;
mod show;
mod sign_off;
mod sign_on;
mod step_moves;
mod switch;
mod test;
mod transfer;
mod unground;

use crate::checks::begins::Ask;
use crate::decision::{Decision, accept, refused, shown};
use crate::effect::Effect;
use crate::kinds::jumper::Jumper;
use crate::near::Near;
use clr_net::Name;
use clr_rules::{Command, Kind, Moment, Refusal};
use std::alloc::AllocError;

/// What a command is answered, and what it changes. Of a good register the near part is enough.
///
/// Independence: good registers with the same near part give the same reply and the same change,
/// whatever else is in them (law `near_is_enough` of clr_rules, a part of what a holder may
/// rely on).
pub fn decide(near: &Near, command: &Command) -> Result<Decision, AllocError>
    ensures lent { IfOk result (λ d.
        answer_with near.now.known near.now.rows command.now ≡ answer_of_decision d) }
    ensures whole { (R : Register) → IsGoodAsSaid R → OnlySwitchOrdersSwitch R
        → near_of R command.now ≡ near.now
        → IfOk result (λ d. answer R command.now ≡ answer_of_decision d) }
    ensures nothing { IfOk result ChangesIfAccepted }
{
    let decision = decision_of(near, command)?;
    Ok(decision)
}

/// The checks refuse a command, or it is shown what it asks for, or its point is laid, or it is
/// carried out.
fn decision_of(near: &Near, command: &Command) -> Result<Decision, AllocError>
    ensures answer { IfOk result (λ d.
        answer_with near.now.known near.now.rows command.now ≡ answer_of_decision d) }
    ensures nothing { IfOk result ChangesIfAccepted }
{
    if let Some(refusal) = refusal_of(near, command)? {
        return Ok(refused(near.alloc, refusal));
    }
    if let Kind::Show { clearance } = &command.kind {
        let asked = Ask {
            by: command.caller,
            at: command.moment,
            id: *clearance,
        };
        let view = show::view(near, asked)?;
        return Ok(shown(near.alloc, view));
    }
    if let Kind::Jumper {
        point,
        from,
        to,
        lockable,
        remote,
    } = &command.kind
    {
        let laid = Jumper {
            point: *point,
            from: *from,
            to: *to,
            lockable: *lockable,
            remote: *remote,
        };
        let decision = jumper::added(near, laid)?;
        return Ok(decision);
    }
    let effect = effect_of(near, command)?;
    let decision = accept(near, effect)?;
    Ok(decision)
}

/// The first check of a command that refuses it.
fn refusal_of(near: &Near, command: &Command) -> Result<Option<Refusal>, AllocError>
    ensures { IfOk result (λ refusal. refusal
        ≡ near_refusal near.now command.now.caller command.now.moment command.now.kind) }
{
    let (by, at) = (command.caller, command.moment);
    match command.kind.clearance() {
        Some(id) => asked_refusal(near, Ask { by, at, id }, &command.kind),
        None => Ok(new_refusal(near, by, at, &command.kind)),
    }
}

/// The same of a command that names a clearance.
fn asked_refusal(near: &Near, asked: Ask, kind: &Kind) -> Result<Option<Refusal>, AllocError>
    requires { named_clearance kind.now ≡ Some asked.id }
    ensures { IfOk result (λ refusal. refusal ≡ asked_refusal near.now asked kind.now) }
{
    let refusal = match kind {
        Kind::Order { points, steps, .. } => order::refusal_of(
            near,
            asked,
            points.as_slice(),
            steps,
        )?,
        Kind::Instruct { step, .. } => instruct::refusal_of(near, asked, *step),
        Kind::Repeat { step, text, .. } => repeat::refusal_of(near, asked, *step, text)?,
        Kind::Report { step, .. } => report::refusal_of(near, asked, *step),
        Kind::Grant { .. } => grant::refusal_of(near, asked),
        Kind::Test { section, dead, .. } => test::refusal_of(near, asked, *section, *dead),
        Kind::Ground { section, .. } => ground::refusal_of(near, asked, *section),
        Kind::Unground { section, .. } => unground::refusal_of(near, asked, *section),
        Kind::SignOn { crew, .. } => sign_on::refusal_of(near, asked, *crew),
        Kind::SignOff { crew, .. } => sign_off::refusal_of(near, asked, *crew),
        Kind::Transfer { to, emergency, .. } => transfer::refusal_of(near, asked, *to, *emergency),
        Kind::Release {
            notified,
            clear,
            ..
        } => release::refusal_of(near, asked, *notified, *clear),
        Kind::Cancel { .. } => cancel::refusal_of(near, asked),
        Kind::Restore { steps, .. } => restore::refusal_of(near, asked, steps)?,
        Kind::Amend { step, .. } => amend::refusal_of(near, asked, *step),
        Kind::Show { .. } => show::refusal_of(near, asked),
        Kind::Request { .. } | Kind::Switch { .. } | Kind::Jumper { .. } => unreachable!(),
    };
    Ok(refusal)
}

/// The same of a command that names none.
fn new_refusal(near: &Near, by: Name, at: Moment, kind: &Kind) -> Option<Refusal>
    requires { named_clearance kind.now ≡ None }
    ensures { result ≡ near_refusal near.now by at kind.now }
{
    match kind {
        Kind::Request { section } => request::refusal_of(near, by, at, *section),
        Kind::Switch { steps } => switch::refusal_of(near, by, at, steps),
        Kind::Jumper {
            point,
            from,
            to,
            ..
        } => jumper::refusal_of(near, by, at, *point, *from, *to),
        _ => unreachable!(),
    }
}

/// What a command changes that no check refuses.
fn effect_of(near: &Near, command: &Command) -> Result<Effect, AllocError>
    requires passes { near_refusal near.now command.now.caller command.now.moment command.now.kind
        ≡ None }
    requires changes { has_no_record command.now.kind ≡ false }
    ensures edits { IfOk result
        (λ effect. near_edits near.now command.now.caller command.now.moment command.now.kind
        ≡ edits_in effect) }
    ensures of { IfOk result
        (IsOf (reply_clearance near.now.known.greatest command.now.caller
        (named_clearance command.now.kind))) }
{
    let (by, at) = (command.caller, command.moment);
    match command.kind.clearance() {
        Some(id) => asked_effect(near, Ask { by, at, id }, &command.kind),
        None => new_effect(near, by, at, &command.kind),
    }
}

/// The same of a command that names a clearance.
fn asked_effect(near: &Near, asked: Ask, kind: &Kind) -> Result<Effect, AllocError>
    requires named { named_clearance kind.now ≡ Some asked.id }
    requires passes { asked_refusal near.now asked kind.now ≡ None }
    requires changes { has_no_record kind.now ≡ false }
    ensures edits { IfOk result (λ effect. asked_edits near.now asked kind.now ≡ edits_in effect) }
    ensures of { IfOk result (IsOf asked.id) }
{
    match kind {
        Kind::Order { points, steps, .. } => order::effect(near, asked, points.as_slice(), steps),
        Kind::Instruct { step, .. } => instruct::effect(near, asked, *step),
        Kind::Repeat { step, text, .. } => repeat::effect(near, asked, *step, text),
        Kind::Report { step, done, .. } => report::effect(near, asked, *step, *done),
        Kind::Grant { .. } => Ok(grant::effect(near, asked)),
        Kind::Test { section, dead, .. } => test::effect(near, asked, *section, *dead),
        Kind::Ground { section, .. } => ground::effect(near, asked, *section),
        Kind::Unground { section, .. } => unground::effect(near, asked, *section),
        Kind::SignOn { crew, .. } => sign_on::effect(near, asked, *crew),
        Kind::SignOff { crew, .. } => sign_off::effect(near, asked, *crew),
        Kind::Transfer { to, emergency, .. } => Ok(transfer::effect(near, asked, *to, *emergency)),
        Kind::Release {
            notified,
            clear,
            ..
        } => release::effect(near, asked, *notified, *clear),
        Kind::Cancel { .. } => Ok(cancel::effect(near, asked)),
        Kind::Restore { steps, .. } => restore::effect(near, asked, steps),
        Kind::Amend { step, .. } => amend::effect(near, asked, *step),
        _ => unreachable!(),
    }
}

/// The same of a command that names none.
fn new_effect(near: &Near, by: Name, at: Moment, kind: &Kind) -> Result<Effect, AllocError>
    requires named { named_clearance kind.now ≡ None }
    requires passes { near_refusal near.now by at kind.now ≡ None }
    requires changes { has_no_record kind.now ≡ false }
    ensures edits { IfOk result (λ effect. near_edits near.now by at kind.now ≡ edits_in effect) }
    ensures of { IfOk result
        (IsOf (record { requester = by; number = near.now.known.greatest + 1 })) }
{
    match kind {
        Kind::Request { section } => Ok(request::effect(near, by, at, *section)),
        Kind::Switch { steps } => switch::effect(near, by, at, steps),
        _ => unreachable!(),
    }
}
