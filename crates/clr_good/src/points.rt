//! Whether the list of points fits.
ghost use Rattle.std.specs.Prelude.{◌≡◌, IfOk, map};
ghost use Rattle.std.specs.List.{list_all};
ghost use Rattle.clr_net.specs.Grid.{point_names};
ghost use Rattle.clr_rules.specs.GoodByPhase.{active_at};
ghost use Rattle.clr_rules.specs.States.{state_key};
ghost use Rattle.clr_good.specs.Points.{points_fit, same_names, state_fits};

use crate::shelves::Shelves;
use clr_book::all_rows;
use clr_net::{Name, PointRow};
use clr_rules::{Hold, PointState, Record, StepRow};
use clr_shelf::Shelf;
use std::alloc::{AllocError, Global};

impl<'a, P: Shelf<PointState>, C: Shelf<Record>, T: Shelf<StepRow>, H: Shelf<Hold>> Shelves<
    'a,
    P,
    C,
    T,
    H,
> {
    /// Whether each point of the network has a state, and no other name, and whoever has a point
    /// in hand a step there that is given out.
    pub(crate) fn points_fit(&self) -> Result<bool, AllocError>
        ensures { IfOk result (λ fit. fit ≡ points_fit self.now) }
    {
        let states: Vec<&PointState> = all_rows(self.alloc, self.states)?;
        if !self.states_known(&states)? {
            return Ok(false);
        }
        let fit = self.states_fit(&states)?;
        Ok(fit)
    }

    /// Whether these are the states of the network's points, in the same order.
    fn states_known(&self, states: &[&PointState]) -> Result<bool, AllocError>
        ensures { IfOk result (λ known. known
            ≡ same_names (map state_key (map (λ state. state.now) states.now))
            (point_names self.now.net.points)) }
    {
        let known = has_points(self.alloc, states, self.network.points())?;
        Ok(known)
    }

    fn states_fit(&self, states: &[&PointState]) -> Result<bool, AllocError>
        ensures { IfOk result (λ fit. fit
            ≡ list_all (state_fits self.now.steps) (map (λ state. state.now) states.now)) }
    {
        for state in states {
            if !self.state_fits(state)? {
                return Ok(false);
            }
        }
        Ok(true)
    }

    /// Whether whoever has a point in hand has a step there that is given out.
    #[tactic(auto, unfolding(clr_rules::specs::Steps::steps_of))]
    fn state_fits(&self, state: &PointState) -> Result<bool, AllocError>
        ensures { IfOk result (λ fits. fits ≡ state_fits self.now.steps state.now) }
    {
        let Some(id) = state.hand else {
            return Ok(true);
        };
        let steps = self.steps.group(&id)?;
        Ok(is_active_at(&steps, state.point))
    }
}

/// Whether a step at a point is given out and not reported.
fn is_active_at(steps: &[&StepRow], point: Name) -> bool
    ensures { result ≡ active_at (map (λ row. row.now) steps.now) point }
{
    for row in steps {
        if row.is_active() && point == row.step.point {
            return true;
        }
    }
    false
}

/// Whether these are the states of these points, in the same order.
fn has_points(
    alloc: Global,
    states: &[&PointState],
    points: &[PointRow],
) -> Result<bool, AllocError>
    ensures { IfOk result (λ same. same
        ≡ same_names (map state_key (map (λ state. state.now) states.now))
        (point_names points.now)) }
{
    let stated = stated_points(alloc, states)?;
    let named = names_of(alloc, points)?;
    Ok(stated == named)
}

/// The points that have these states.
fn stated_points(alloc: Global, states: &[&PointState]) -> Result<Vec<Name>, AllocError>
    ensures { IfOk result (λ names. names.items ≡ map (λ state. state.now.point) states.now) }
{
    states.iter().map(|state| state.point).collect(alloc)
}

/// The names of these points.
fn names_of(alloc: Global, points: &[PointRow]) -> Result<Vec<Name>, AllocError>
    ensures { IfOk result (λ names. names.items ≡ point_names points.now) }
{
    points.iter().map(|row| row.name).collect(alloc)
}
