//! The states of points after an update.
ghost use Rattle.std.specs.Prelude.{◌≡◌, IfOk, map, option_map};
ghost use Rattle.clr_rules.specs.Register.{first_state};
ghost use Rattle.clr_rules.specs.States.{position_of};
ghost use Rattle.clr_update.specs.Changes.{in_position};
ghost use Rattle.clr_update.specs.Update.{kept_state};

use clr_book::Book;
use clr_net::{Name, PointRow, Position};
use clr_rules::{Hold, PointState, Record, StepRow};
use clr_shelf::Shelf;
use std::alloc::{AllocError, Global};

/// The states of points: of one that is in the book its own, of a new one that of its row.
pub(crate) fn states_after<P, C, T, H>(
    alloc: Global,
    book: &Book<P, C, T, H>,
    points: &[PointRow],
) -> Result<Vec<PointState>, AllocError>
where
    P: Shelf<PointState>,
    C: Shelf<Record>,
    T: Shelf<StepRow>,
    H: Shelf<Hold>,
    ensures { IfOk result (λ states. states.items
        ≡ map (kept_state book.now.register.states) (map first_state points.now)) }
{
    let mut states = Vec::with_capacity(alloc, points.len())?;
    for point in points {
        states.push(state_after(book, point))?;
    }
    Ok(states)
}

/// The state of a point after an update.
fn state_after<P, C, T, H>(book: &Book<P, C, T, H>, point: &PointRow) -> PointState
where
    P: Shelf<PointState>,
    C: Shelf<Record>,
    T: Shelf<StepRow>,
    H: Shelf<Hold>,
    ensures { result ≡ kept_state book.now.register.states (first_state point.now) }
{
    match book.state(&point.name) {
        Some(state) => *state,
        None => PointState {
            point: point.name,
            position: point.position,
            hand: None,
        },
    }
}

/// These points, each in the position that it has in the states.
pub(crate) fn placed(
    alloc: Global,
    states: &[PointState],
    points: &[PointRow],
) -> Result<Vec<PointRow>, AllocError>
    ensures { IfOk result (λ rows. rows.items ≡ map (in_position states.now) points.now) }
{
    let mut rows = Vec::with_capacity(alloc, points.len())?;
    for point in points {
        rows.push(in_position(states, point))?;
    }
    Ok(rows)
}

/// A point in the position that it has in the states.
fn in_position(states: &[PointState], point: &PointRow) -> PointRow
    ensures { result ≡ in_position states.now point.now }
{
    match position_of(states, point.name) {
        Some(position) => PointRow { position, ..*point },
        None => *point,
    }
}

/// The position of a point in the states.
#[tactic(auto, unfolding(clr_shelf::specs::Rows::row_of))]
fn position_of(states: &[PointState], point: Name) -> Option<Position>
    ensures { result ≡ position_of states.now point }
{
    for state in states {
        if state.point.cmp(&point).is_eq() {
            return Some(state.position);
        }
    }
    None
}
