//! The states of switching points on their shelf.
ghost use Rattle.std.specs.Prelude.{◌≡◌, true, IfOk, map};
ghost use Rattle.clr_net.specs.Name.{name_cmp};
ghost use Rattle.clr_rules.specs.Register.{first_state};
ghost use Rattle.clr_rules.specs.States.{change_state, state_key};
ghost use Rattle.clr_shelf.specs.Rows.{in_key_order};

use clr_net::{Name, PointRow, Position};
use clr_rules::{ClearanceId, PointState};
use clr_shelf::Shelf;
use std::alloc::{AllocError, Global};

/// The states of points that are in the order of their names, before the first command.
pub(crate) fn opening_states<P: Shelf<PointState>>(
    alloc: Global,
    points: &[PointRow],
) -> Result<P, AllocError>
    requires { in_key_order name_cmp state_key (map first_state points.now) ≡ true }
    ensures { IfOk result (λ states. P.rows states ≡ map first_state points.now) }
{
    let mut states = P::empty(alloc);
    states.reserve(points.len())?;
    for point in points {
        states.put(PointState {
            point: point.name,
            position: point.position,
            hand: None,
        });
    }
    Ok(states)
}

/// Sets the position of a point, if it has a state.
pub(crate) fn set_position<P: Shelf<PointState>>(states: &mut P, point: &Name, position: Position)
    ensures rows { P.rows states.new
        ≡ change_state (P.rows states.old) point.now
        (λ state. record state { position = position }) }
    ensures room { P.room states.new ≡ P.room states.old }
{
    if let Some(state) = states.get(point) {
        let state = PointState { position, ..*state };
        let _ = states.replace(state);
    }
}

/// Sets or clears the hand of a point, if it has a state.
pub(crate) fn set_hand<P: Shelf<PointState>>(
    states: &mut P,
    point: &Name,
    hand: Option<ClearanceId>,
)
    ensures rows { P.rows states.new
        ≡ change_state (P.rows states.old) point.now (λ state. record state { hand = hand }) }
    ensures room { P.room states.new ≡ P.room states.old }
{
    if let Some(state) = states.get(point) {
        let state = PointState { hand, ..*state };
        let _ = states.replace(state);
    }
}
