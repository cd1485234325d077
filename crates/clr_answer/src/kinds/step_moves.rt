//! A step that moves to another state.
ghost use Rattle.std.specs.Prelude.{◌≡◌};
ghost use Rattle.clr_rules.specs.Changes.{step_moved};

use clr_net::Name;
use clr_order::{Step, StepState};
use clr_rules::StepRow;

/// The step in another state, with its reader.
pub(crate) fn step_moved(row: &StepRow, state: StepState, reader: Option<Name>) -> StepRow
    ensures { result ≡ step_moved state reader row.now }
{
    StepRow {
        step: Step {
            state,
            reader,
            ..row.step
        },
        ..*row
    }
}
