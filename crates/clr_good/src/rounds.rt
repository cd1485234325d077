//! Tests of the steps of one clearance, round by round.
ghost use Rattle.std.specs.Prelude.{◌≡◌, ◌&&◌, IfOk, map};
ghost use Rattle.std.specs.List.{list_all};
ghost use Rattle.clr_order.specs.Action.{is_switching};
ghost use Rattle.clr_rules.specs.GoodByPhase.{of_round};
ghost use Rattle.clr_rules.specs.Steps.{all_done, is_active, is_close, is_some_step, some_active};
ghost use Rattle.clr_good.specs.Steps.{active_within, round_waits, rounds_go_in_turn};

use clr_order::Action;
use clr_rules::StepRow;
use std::alloc::{AllocError, Global};

/// The steps of a round.
#[tactic(auto, unfolding(clr_rules::specs::GoodByPhase::of_round))]
pub(crate) fn of_round<'a>(
    alloc: Global,
    steps: &[&'a StepRow],
    round: u8,
) -> Result<Vec<&'a StepRow>, AllocError>
    ensures { IfOk result (λ kept. map (λ row. row.now) kept.items
        ≡ of_round (map (λ row. row.now) steps.now) round) }
{
    let mut kept = Vec::new(alloc);
    for row in steps {
        if row.round == round {
            kept.push(*row)?;
        }
    }
    Ok(kept)
}

/// Whether there is a step among these.
pub(crate) fn has_steps(steps: &[&StepRow]) -> bool
    ensures { result ≡ is_some_step (map (λ row. row.now) steps.now) }
{
    !steps.is_empty()
}

/// Whether all of these steps are Done.
pub(crate) fn all_done(steps: &[&StepRow]) -> bool
    ensures { result ≡ all_done (map (λ row. row.now) steps.now) }
{
    for row in steps {
        if !row.is_done() {
            return false;
        }
    }
    true
}

/// Whether one of these steps is given out and not reported.
pub(crate) fn some_active(steps: &[&StepRow]) -> bool
    ensures { result ≡ some_active (map (λ row. row.now) steps.now) }
{
    for row in steps {
        if row.is_active() {
            return true;
        }
    }
    false
}

/// Whether a step is a Close that is given out.
pub(crate) fn is_closing(row: &StepRow) -> bool
    ensures { result ≡ (is_active row.now.step.state && is_close row.now.step.action) }
{
    row.is_active() && matches!(row.step.action, Action::Close)
}

/// Whether the steps that are given out and not reported are all in one round.
pub(crate) fn active_within(round: u8, steps: &[&StepRow]) -> bool
    ensures { result ≡ active_within round (map (λ row. row.now) steps.now) }
{
    for row in steps {
        if row.is_active() && row.round != round {
            return false;
        }
    }
    true
}

/// Whether these steps only open and close.
pub(crate) fn only_switch(steps: &[&StepRow]) -> bool
    ensures { result ≡ list_all (λ row. is_switching row.step.action)
        (map (λ row. row.now) steps.now) }
{
    for row in steps {
        if !matches!(row.step.action, Action::Open | Action::Close) {
            return false;
        }
    }
    true
}

/// Whether the steps of a round wait.
fn round_waits(round: u8, steps: &[&StepRow]) -> bool
    ensures { result ≡ round_waits round (map (λ row. row.now) steps.now) }
{
    for row in steps {
        if row.round == round && !row.is_waiting() {
            return false;
        }
    }
    true
}

/// Whether in each round the steps go in turn.
pub(crate) fn rounds_go_in_turn(steps: &[&StepRow]) -> bool
    ensures { result ≡ rounds_go_in_turn (map (λ row. row.now) steps.now) }
{
    for (place, row) in steps.iter().enumerate() {
        if !row.is_done() && !round_waits(row.round, &steps[place + 1..]) {
            return false;
        }
    }
    true
}
