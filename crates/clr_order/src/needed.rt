//! The steps that a point needs before it isolates.
ghost use Rattle.std.specs.Prelude.{◌≡◌};
ghost use Rattle.clr_order.specs.Needed.{needed};

use crate::action::Action;
use clr_net::PointRow;

/// The steps that an isolating order needs at a point.
pub(crate) fn needed(point: &PointRow) -> &'static [Action]
    ensures { result.now ≡ needed point.now }
{
    match (point.lockable, point.remote) {
        (false, false) => &[Action::Open, Action::Tag],
        (true, false) => &[Action::Open, Action::Block, Action::Tag],
        (false, true) => &[Action::Open, Action::Control, Action::Tag],
        (true, true) => &[Action::Open, Action::Block, Action::Control, Action::Tag],
    }
}
