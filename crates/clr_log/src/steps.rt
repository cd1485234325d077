//! What a step of a clearance is, by the lines before.
ghost use Rattle.std.specs.Prelude.{◌≡◌, map, option_map, reverse};
ghost use Rattle.serde_json.specs.View.{view};
ghost use Rattle.clr_order.specs.Step.{task};
ghost use Rattle.clr_journal.specs.Line.{entry_of};
ghost use Rattle.clr_changes.specs.Deeds.{deed_of};
ghost use Rattle.clr_log.specs.Steps.{amended_by, deed_steps, given_by, is_amend, is_amend_deed};
ghost use Rattle.clr_log.specs.Steps.{is_done_for};
ghost use Rattle.clr_log.specs.Steps.{is_withdrawn, left_if, step_at, step_known, steps_ordered};

use crate::about::{carried_clearance, is_wanted};
use clr_journal::{Carried, Deed, Line, is_accepted};
use clr_order::{Action, Step};
use clr_rules::{ClearanceId, Kind, Tasks};

/// The step of a number of a clearance, if one of the lines before gave an order that has it.
pub(crate) fn step_known(before: &[Line], clearance: ClearanceId, number: u16) -> Option<Step>
    ensures { option_map task result
        ≡ step_known (reverse (map entry_of before.now)) clearance number }
{
    let mut withdraws = false;
    let mut amended = false;
    let mut rest = before;
    while let Some((line, older)) = rest.split_last() {
        if let Some(steps) = given(withdraws, line, clearance) {
            return step_given(steps, number, amended);
        }
        amended = amended || is_amended(withdraws, line, clearance, number);
        withdraws = is_withdrawn(line);
        rest = older;
    }
    None
}

/// The steps that a line gave a clearance, unless the next line withdraws it.
fn given(withdraws: bool, line: &Line, clearance: ClearanceId) -> Option<&Tasks>
    ensures { option_map (λ steps. steps.now) result
        ≡ given_by withdraws clearance (entry_of line.now) }
{
    match line {
        Line::Carried(carried) => {
            if !withdraws && is_done_for(carried, clearance) {
                deed_steps(&carried.deed)
            } else {
                None
            }
        }
        Line::Withdrawn(_) => None,
    }
}

/// Whether a line turned a step into a Leave, unless the next line withdraws it.
fn is_amended(withdraws: bool, line: &Line, clearance: ClearanceId, number: u16) -> bool
    ensures { result ≡ amended_by withdraws clearance number (entry_of line.now) }
{
    match line {
        Line::Carried(carried) => {
            let amends = is_amend_deed(&carried.deed, number);
            !withdraws && (is_done_for(carried, clearance) && amends)
        }
        Line::Withdrawn(_) => false,
    }
}

/// Whether a line withdraws.
fn is_withdrawn(line: &Line) -> bool
    ensures { result ≡ is_withdrawn (entry_of line.now) }
{
    match line {
        Line::Carried(_) => false,
        Line::Withdrawn(_) => true,
    }
}

/// Whether a deed was carried out and is about a clearance.
fn is_done_for(carried: &Carried, clearance: ClearanceId) -> bool
    ensures { result
        ≡ is_done_for clearance (deed_of carried.now.deed) (view carried.now.reply) }
{
    let found = carried_clearance(carried);
    is_accepted(&carried.reply) && is_wanted(&Some(clearance), found)
}

/// The steps that a deed orders.
pub(crate) fn deed_steps(deed: &Deed) -> Option<&Tasks>
    ensures { option_map (λ steps. steps.now) result ≡ deed_steps (deed_of deed.now) }
{
    match deed {
        Deed::Command(command) => steps_ordered(&command.kind),
        Deed::Update(_) | Deed::Archive(_) => None,
    }
}

/// The steps that a command orders.
fn steps_ordered(kind: &Kind) -> Option<&Tasks>
    ensures { option_map (λ steps. steps.now) result ≡ steps_ordered kind.now }
{
    match kind {
        Kind::Order { steps, .. } | Kind::Restore { steps, .. } | Kind::Switch { steps } => {
            Some(steps)
        }
        _ => None,
    }
}

/// Whether a deed turns a step of this number into a Leave.
fn is_amend_deed(deed: &Deed, number: u16) -> bool
    ensures { result ≡ is_amend_deed number (deed_of deed.now) }
{
    match deed {
        Deed::Command(command) => is_amend(&command.kind, number),
        Deed::Update(_) | Deed::Archive(_) => false,
    }
}

/// Whether a command turns a step of this number into a Leave.
fn is_amend(kind: &Kind, number: u16) -> bool
    ensures { result ≡ is_amend number kind.now }
{
    match kind {
        Kind::Amend { step, .. } => number == *step,
        _ => false,
    }
}

/// The step of a number among those of an order.
fn step_given(steps: &Tasks, number: u16, amended: bool) -> Option<Step>
    ensures { option_map task result ≡ option_map (left_if amended) (step_at number steps.now) }
{
    if number == 0 {
        return None;
    }
    match steps.as_slice().get(usize::from(number - 1)) {
        Some(step) => Some(left_if(*step, amended)),
        None => None,
    }
}

/// A step, which is a Leave where it was amended.
fn left_if(step: Step, amended: bool) -> Step
    ensures { task result ≡ left_if amended (task step) }
{
    if amended {
        Step {
            action: Action::Leave,
            ..step
        }
    } else {
        step
    }
}
