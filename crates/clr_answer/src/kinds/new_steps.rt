//! The steps of a new round.
ghost use Rattle.std.specs.Prelude.{◌≡◌, ◌≤◌, true, IfOk, length};
ghost use Rattle.clr_rules.specs.Changes.{new_steps};
ghost use Rattle.clr_rules.specs.StepKey.{step_key, step_key_cmp};
ghost use Rattle.clr_shelf.specs.Rows.{in_key_order};

use clr_order::{Step, StepState};
use clr_rules::{ClearanceId, StepRow, Tasks};
use std::alloc::{AllocError, Global};

/// The steps of a round, numbered from 1, each waiting and without a reader.
pub(crate) fn new_steps(
    alloc: Global,
    id: ClearanceId,
    round: u8,
    tasks: &Tasks,
) -> Result<Vec<StepRow>, AllocError>
    requires { length tasks.now ≤ 256 }
    ensures rows { IfOk result (λ rows. rows.items ≡ new_steps id round 1 tasks.now) }
    ensures rising { IfOk result (λ rows. in_key_order step_key_cmp step_key rows.items ≡ true) }
{
    let rows = numbered(alloc, id, round, tasks)?;
    Ok(rows)
}

/// The steps of a round, numbered from 1.
#[tactic(auto, unfolding(clr_rules::specs::Changes::new_steps))]
fn numbered(
    alloc: Global,
    id: ClearanceId,
    round: u8,
    tasks: &Tasks,
) -> Result<Vec<StepRow>, AllocError>
    requires { length tasks.now ≤ 256 }
    ensures { IfOk result (λ rows. rows.items ≡ new_steps id round 1 tasks.now) }
{
    let mut rows = Vec::new(alloc);
    let mut ordinal: u16 = 1;
    for step in tasks.as_slice() {
        rows.push(StepRow {
            id,
            round,
            ordinal,
            step: Step {
                action: step.action,
                point: step.point,
                state: StepState::Waiting,
                reader: None,
            },
        })?;
        ordinal += 1;
    }
    Ok(rows)
}
