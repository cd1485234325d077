//! What steps undo at a point.
ghost use Rattle.std.specs.Prelude.{◌≡◌, map};
ghost use Rattle.clr_order.specs.HoldsLeft.{are_undone};
ghost use Rattle.clr_order.specs.Step.{actions_at};
ghost use Rattle.clr_rules.specs.Good.{steps_left_of};
ghost use Rattle.clr_rules.specs.Steps.{tasks_of};

use clr_net::Name;
use clr_order::HoldsLeft;
use clr_rules::StepRow;

/// Whether the steps at a point that are not Done undo what is there, and do no more.
pub(crate) fn undo(held: HoldsLeft, steps: &[&StepRow], point: Name) -> bool
    ensures { result ≡ are_undone held
        (actions_at (tasks_of (steps_left_of (map (λ row. row.now) steps.now))) point) }
{
    let mut left = held;
    for row in steps {
        if !row.is_done() && point == row.step.point {
            if !left.take(row.step.action) {
                return false;
            }
        }
    }
    left.is_empty()
}
