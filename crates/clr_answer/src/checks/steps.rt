//! Checks of the step that is named.
ghost use Rattle.std.specs.Prelude.{◌≡◌, IfOk, option_copied};
ghost use Rattle.clr_rules.specs.Checks.{hold_hinders, in_hand, no_step, not_a_waiting_close};
ghost use Rattle.clr_rules.specs.Checks.{step_given_out, out_of_turn, repeat_differs, steps_left};
ghost use Rattle.clr_rules.specs.Checks.{wrong_reporter, wrong_state};
ghost use Rattle.clr_rules.specs.Holds.{earlier_hold, hinders, hindering_hold, stands_before};
ghost use Rattle.clr_rules.specs.States.{hand_of};
ghost use Rattle.clr_rules.specs.Steps.{all_done, is_in_turn, is_some_step, present_steps};
ghost use Rattle.clr_rules.specs.Steps.{some_active, step_at, steps_in, steps_of};
ghost use Rattle.clr_answer.specs.Begins.{state_fits};

use crate::checks::refuse;
use crate::checks::rows::find_row;
use crate::near::Near;
use clr_net::Name;
use clr_order::{Action, step_text};
use clr_rules::{ClearanceId, Hold, HoldKind, Refusal, StepRow, Text};
use std::alloc::AllocError;

/// Whether a clearance has steps in a round.
#[tactic(auto, unfolding(clr_rules::specs::Steps::steps_in))]
fn has_round(near: &Near, id: ClearanceId, round: u8) -> bool
    ensures { result ≡ is_some_step (steps_in near.now.rows.steps id round) }
{
    for row in &near.steps {
        if row.is_of_round(id, round) {
            return true;
        }
    }
    false
}

/// The round whose steps are the present ones.
pub(crate) fn last_round(near: &Near, id: ClearanceId) -> u8
    ensures { present_steps near.now.rows.steps id ≡ steps_in near.now.rows.steps id result }
{
    if has_round(near, id, 2) { 2 } else { 1 }
}

/// The step of a number in a round.
#[tactic(auto, unfolding(clr_rules::specs::Steps::steps_in))]
fn step_in<'a>(near: &Near<'a>, id: ClearanceId, round: u8, number: u16) -> Option<&'a StepRow>
    ensures { option_copied result ≡ step_at (steps_in near.now.rows.steps id round) number }
{
    for row in &near.steps {
        if row.is_of_round(id, round) && row.ordinal == number {
            return Some(*row);
        }
    }
    None
}

/// The step of a number in the present round.
pub(crate) fn step<'a>(near: &Near<'a>, id: ClearanceId, number: u16) -> Option<&'a StepRow>
    ensures { option_copied result ≡ step_at (present_steps near.now.rows.steps id) number }
{
    let round = last_round(near, id);
    step_in(near, id, round, number)
}

/// Whether all steps of a round before this number are done.
#[tactic(auto, unfolding(clr_rules::specs::Steps::steps_in))]
fn is_in_turn(near: &Near, id: ClearanceId, round: u8, number: u16) -> bool
    ensures { result ≡ is_in_turn (steps_in near.now.rows.steps id round) number }
{
    for row in &near.steps {
        if row.is_of_round(id, round) && row.ordinal < number && !row.is_done() {
            return false;
        }
    }
    true
}

/// Whether all steps of a round are done.
#[tactic(auto, unfolding(clr_rules::specs::Steps::steps_in))]
fn all_done(near: &Near, id: ClearanceId, round: u8) -> bool
    ensures { result ≡ all_done (steps_in near.now.rows.steps id round) }
{
    for row in &near.steps {
        if row.is_of_round(id, round) && !row.is_done() {
            return false;
        }
    }
    true
}

/// Whether an isolating step is not done.
pub(crate) fn steps_left(near: &Near, id: ClearanceId) -> Option<Refusal>
    ensures { result ≡ steps_left near.now.rows id }
{
    if all_done(near, id, 1) {
        return None;
    }
    Some(Refusal::StepsLeft)
}

/// Whether the present round has no step of this number.
pub(crate) fn no_step(near: &Near, id: ClearanceId, number: u16) -> Option<Refusal>
    ensures { result ≡ no_step near.now.rows id number }
{
    match step(near, id, number) {
        Some(_) => None,
        None => Some(Refusal::NoStep),
    }
}

/// Whether an earlier step of the present round is not done.
pub(crate) fn out_of_turn(near: &Near, id: ClearanceId, number: u16) -> Option<Refusal>
    ensures { result ≡ out_of_turn near.now.rows id number }
{
    let round = last_round(near, id);
    if is_in_turn(near, id, round, number) {
        return None;
    }
    Some(Refusal::OutOfTurn)
}

/// In which states of its step a command may come.
#[derive(Clone, Copy)]
pub(crate) enum StateTest {
    Waiting,
    Active,
    Repeated,
}

impl StateTest {
    fn fits(self, row: &StepRow) -> bool
        ensures { result ≡ state_fits self row.now.step.state }
    {
        match self {
            StateTest::Waiting => row.is_waiting(),
            StateTest::Active => row.is_active(),
            StateTest::Repeated => row.is_repeated(),
        }
    }
}

/// Whether the step is in another state.
pub(crate) fn wrong_state(
    near: &Near,
    id: ClearanceId,
    number: u16,
    states: StateTest,
) -> Option<Refusal>
    ensures { result ≡ wrong_state near.now.rows id number (state_fits states) }
{
    let row = step(near, id, number)?;
    refuse(!states.fits(row), Refusal::StepState)
}

/// Whether the step is no Close, or was given out already.
pub(crate) fn not_a_waiting_close(near: &Near, id: ClearanceId, number: u16) -> Option<Refusal>
    ensures { result ≡ not_a_waiting_close near.now.rows id number }
{
    let row = step(near, id, number)?;
    let is_close = matches!(row.step.action, Action::Close);
    refuse(!(row.is_waiting() && is_close), Refusal::StepState)
}

/// Whether a step of the clearance, of whichever round, is given out and not reported.
#[tactic(auto, unfolding(clr_rules::specs::Steps::steps_of))]
fn some_active(near: &Near, id: ClearanceId) -> bool
    ensures { result ≡ some_active (steps_of near.now.rows.steps id) }
{
    for row in &near.steps {
        if id == row.id && row.is_active() {
            return true;
        }
    }
    false
}

/// Whether a step is given out and not reported.
pub(crate) fn step_given_out(near: &Near, id: ClearanceId) -> Option<Refusal>
    ensures { result ≡ step_given_out near.now.rows id }
{
    let active = some_active(near, id);
    refuse(active, Refusal::StepState)
}

/// The clearance that has a point in hand.
fn hand_of(near: &Near, point: Name) -> Option<ClearanceId>
    ensures { result ≡ hand_of near.now.rows.states point }
{
    match find_row(&near.states, &point) {
        Some(state) => state.hand,
        None => None,
    }
}

/// Whether another clearance has the step's point in hand.
pub(crate) fn in_hand(near: &Near, id: ClearanceId, number: u16) -> Option<Refusal>
    ensures { result ≡ in_hand near.now.rows id number }
{
    let Some(row) = step(near, id, number) else {
        return None;
    };
    match hand_of(near, row.step.point) {
        Some(by) if id != by => Some(Refusal::InHand(by)),
        _ => None,
    }
}

/// Whether a hold keeps a clearance from closing a point: any but its own HeldOpen.
pub fn hinders(hold: &Hold, id: ClearanceId, point: Name) -> bool
    ensures { result ≡ hinders id point hold.now }
{
    let stands_there = hold.kind.stands_at_point() && point == hold.place;
    let holds_open = id == hold.id && HoldKind::HeldOpen.compare_own(hold.kind).is_eq();
    stands_there && !holds_open
}

/// Whether a hold comes before another: by its clearance, then by its kind in the kinds' own
/// order.
fn stands_before(hold: &Hold, other: &Hold) -> bool
    ensures { result ≡ stands_before hold.now other.now }
{
    hold.id
        .cmp(&other.id)
        .then(hold.kind.compare_own(other.kind))
        .is_lt()
}

fn earlier_hold(first: Option<Hold>, hold: &Hold) -> Option<Hold>
    ensures { result ≡ earlier_hold first hold.now }
{
    match first {
        Some(first) if !stands_before(hold, &first) => Some(first),
        _ => Some(*hold),
    }
}

/// The first hold that keeps a clearance from closing a point.
#[tactic(auto, unfolding(clr_rules::specs::Holds::hindering_hold))]
fn hindering_hold(near: &Near, id: ClearanceId, point: Name) -> Option<Hold>
    ensures { result ≡ hindering_hold near.now.rows.holds id point }
{
    let mut first = None;
    for hold in &near.holds {
        if hinders(hold, id, point) {
            first = earlier_hold(first, hold);
        }
    }
    first
}

/// Whether the step would close a point at which a hold forbids it.
pub(crate) fn hold_hinders(near: &Near, id: ClearanceId, number: u16) -> Option<Refusal>
    ensures { result ≡ hold_hinders near.now.rows id number }
{
    let Some(row) = step(near, id, number) else {
        return None;
    };
    if !matches!(row.step.action, Action::Close) {
        return None;
    }
    match hindering_hold(near, id, row.step.point) {
        Some(hold) => Some(Refusal::Held(hold.id, hold.kind)),
        None => None,
    }
}

/// Whether the text is not that of the step.
pub(crate) fn repeat_differs(
    near: &Near,
    id: ClearanceId,
    number: u16,
    text: &Text,
) -> Result<Option<Refusal>, AllocError>
    ensures { IfOk result (λ refusal. refusal ≡ repeat_differs near.now.rows id number text.now) }
{
    let Some(row) = step(near, id, number) else {
        return Ok(None);
    };
    let spoken = step_text(near.alloc, &row.step)?;
    if spoken.as_str() == text.as_str() {
        return Ok(None);
    }
    Ok(Some(Refusal::RepeatDiffers))
}

/// Whether the caller is not the one who read the step last.
pub(crate) fn wrong_reporter(near: &Near, id: ClearanceId, number: u16, by: Name) -> Option<Refusal>
    ensures { result ≡ wrong_reporter near.now.rows id number by }
{
    let Some(row) = step(near, id, number) else {
        return None;
    };
    match row.step.reader {
        Some(reader) if by == reader => None,
        _ => Some(Refusal::WrongReporter),
    }
}
