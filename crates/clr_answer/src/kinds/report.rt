//! The reader of a step reports that it was done, or that it was not.
ghost use Rattle.std.specs.Prelude.{◌≡◌, ◌++◌, true, IfOk, [], ◌∷◌, None};
ghost use Rattle.clr_rules.specs.Changes.{done_edits, phase_after, point_edits, step_moved};
ghost use Rattle.clr_rules.specs.Changes.{undone_edits};
ghost use Rattle.clr_rules.specs.Records.{is_switch_order};
ghost use Rattle.clr_order.specs.declared.step.StepState.TheVariants.{Done};
ghost use Rattle.clr_rules.specs.declared.command.Kind.TheVariants as kinds;
ghost use Rattle.clr_answer.specs.Begins.{asked_edits, asked_refusal};
ghost use Rattle.clr_answer.specs.Effect.{IsOf, edits_in};

use crate::card::progress_with;
use crate::checks::begins::{Ask, by_field};
use crate::checks::clearances::{PhaseTest, record};
use crate::checks::steps::{StateTest, no_step, step, wrong_reporter, wrong_state};
use crate::effect::Effect;
use crate::kinds::step_moves::step_moved;
use crate::near::Near;
use clr_net::{Name, Position};
use clr_order::{Action, StepState};
use clr_rules::{ClearanceId, Edit, Hold, HoldKind, Moment, Phase, Record, Refusal, StepRow};
use std::alloc::{AllocError, Global};

/// The checks of a report are the same, whether it says that the step was done or that it was not.
pub(crate) fn refusal_of(near: &Near, asked: Ask, number: u16) -> Option<Refusal>
    ensures { result ≡ asked_refusal near.now asked (kinds.Report asked.id number true) }
{
    let own = [
        no_step(near, asked.id, number),
        wrong_state(near, asked.id, number, StateTest::Repeated),
        wrong_reporter(near, asked.id, number, asked.by),
    ];
    by_field(near, &asked, PhaseTest::Running, &own)
}

/// What an action that was done changes at its point. A switch order holds nothing open.
fn point_edits(
    alloc: Global,
    switching: bool,
    id: ClearanceId,
    action: Action,
    point: Name,
) -> Result<Vec<Edit>, AllocError>
    ensures { IfOk result (λ edits. edits.items ≡ point_edits switching id action point) }
{
    let opened = Edit::SetPosition {
        point,
        position: Position::Opened,
    };
    let closed = Edit::SetPosition {
        point,
        position: Position::Closed,
    };
    let free = Edit::SetHand { point, hand: None };
    let hold = |kind: HoldKind| Hold {
        kind,
        place: point,
        id,
    };
    let edits = match action {
        Action::Open if switching => vec![in alloc; opened, free]?,
        Action::Open => vec![in alloc; opened, free, Edit::PutHold(hold(HoldKind::HeldOpen))]?,
        Action::Block => vec![in alloc; free, Edit::PutHold(hold(HoldKind::Block))]?,
        Action::Control => vec![in alloc; free, Edit::PutHold(hold(HoldKind::Control))]?,
        Action::Tag => vec![in alloc; free, Edit::PutHold(hold(HoldKind::Tag))]?,
        Action::Untag => vec![in alloc; free, Edit::TakeHold(hold(HoldKind::Tag))]?,
        Action::Uncontrol => vec![in alloc; free, Edit::TakeHold(hold(HoldKind::Control))]?,
        Action::Unblock => vec![in alloc; free, Edit::TakeHold(hold(HoldKind::Block))]?,
        Action::Close => vec![in alloc; closed, free, Edit::TakeHold(hold(HoldKind::HeldOpen))]?,
        Action::Leave => vec![in alloc; free, Edit::TakeHold(hold(HoldKind::HeldOpen))]?,
    };
    Ok(edits)
}

/// A step that was done.
fn done(row: &StepRow) -> StepRow
    ensures { result ≡ step_moved Done row.now.step.reader row.now }
{
    step_moved(row, StepState::Done, row.step.reader)
}

/// The phase after a step is done.
fn phase_after(near: &Near, clearance: &Record, done: StepRow) -> Phase
    ensures { result ≡ phase_after near.now.rows.steps clearance.now done }
{
    if !clearance.phase.ends_with_steps() {
        return clearance.phase;
    }
    let progress = progress_with(near, &[done], clearance.id);
    if progress.done == progress.steps {
        return Phase::Closed;
    }
    clearance.phase
}

/// What changes where the step was done.
fn done_effect(
    near: &Near,
    at: Moment,
    clearance: &Record,
    row: &StepRow,
) -> Result<Effect, AllocError>
    ensures edits { IfOk result (λ effect. done_edits near.now.rows at clearance.now row.now
        ≡ edits_in effect) }
    ensures of { IfOk result (IsOf clearance.now.id) }
{
    let after = Record {
        phase: phase_after(near, clearance, done(row)),
        last: at,
        ..*clearance
    };
    let switching = clearance.is_switch_order();
    let step = row.step;
    let lead = point_edits(near.alloc, switching, clearance.id, step.action, step.point)?;
    let steps = vec![in near.alloc; done(row)]?;
    Ok(Effect {
        lead,
        clearance: after,
        steps,
    })
}

/// What changes where the step was not done: it waits again.
fn undone_effect(
    alloc: Global,
    at: Moment,
    clearance: &Record,
    row: &StepRow,
) -> Result<Effect, AllocError>
    ensures edits { IfOk result (λ effect. undone_edits at clearance.now row.now
        ≡ edits_in effect) }
    ensures of { IfOk result (IsOf clearance.now.id) }
{
    let freed = Edit::SetHand {
        point: row.step.point,
        hand: None,
    };
    let waiting = step_moved(row, StepState::Waiting, None);
    let after = Record {
        last: at,
        ..*clearance
    };
    let lead = vec![in alloc; freed]?;
    let steps = vec![in alloc; waiting]?;
    Ok(Effect {
        lead,
        clearance: after,
        steps,
    })
}

pub(crate) fn effect(near: &Near, asked: Ask, number: u16, done: bool) -> Result<Effect, AllocError>
    requires { asked_refusal near.now asked (kinds.Report asked.id number done) ≡ None }
    ensures edits { IfOk result
        (λ effect. asked_edits near.now asked (kinds.Report asked.id number done)
        ≡ edits_in effect) }
    ensures of { IfOk result (IsOf asked.id) }
{
    let Ask { at, id, .. } = asked;
    let Some(found) = record(near, id) else {
        unreachable!()
    };
    let Some(row) = step(near, id, number) else {
        unreachable!()
    };
    if done {
        done_effect(near, at, found, row)
    } else {
        undone_effect(near.alloc, at, found, row)
    }
}
