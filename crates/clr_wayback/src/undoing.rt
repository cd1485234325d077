//! The steps that undo what a clearance holds at points, and leave each point open.
ghost use Rattle.std.specs.Prelude.{◌≡◌, ◌==◌, IfOk, None, map, filter};
ghost use Rattle.std.specs.List.{flat_map};
ghost use Rattle.clr_order.specs.Needed.{undoing};
ghost use Rattle.clr_order.specs.Step.{task};
ghost use Rattle.clr_order.specs.declared.action.Action.TheVariants as actions;
ghost use Rattle.clr_rules.specs.Holds.{has_hold, held_among, held_at};
ghost use Rattle.clr_rules.specs.Steps.{points_of, steps_in};
ghost use Rattle.clr_order.specs.declared.step.StepState.TheVariants.{Waiting};
ghost use Rattle.clr_rules.specs.WayBack.{undoing_steps};
ghost use Rattle.clr_wayback.specs.Undoing.{leaving};
ghost use Rattle.clr_rules.specs.declared.hold_kind.HoldKind.TheVariants.{HeldOpen};

use crate::rows::Rows;
use clr_answer::each_once;
use clr_net::Name;
use clr_order::{Action, Held, Step, StepState};
use clr_rules::{ClearanceId, Hold, HoldKind, PointState, Record, StepRow};
use clr_shelf::Shelf;
use std::alloc::{AllocError, Global};

impl<'a, P: Shelf<PointState>, C: Shelf<Record>, T: Shelf<StepRow>, H: Shelf<Hold>> Rows<
    'a,
    P,
    C,
    T,
    H,
> {
    /// The steps that undo what a clearance holds at the points of its first round.
    pub(crate) fn undoing_steps(&self, id: ClearanceId) -> Result<Vec<Step>, AllocError>
        ensures { IfOk result (λ steps. map task steps.items ≡ undoing_steps
            (held_among self.now.holds id (points_of (steps_in self.now.steps id 1)))) }
    {
        let rows = self.book.steps(&id)?;
        let points = first_points(self.alloc, &rows)?;
        let points = each_once(self.alloc, &points)?;
        let held = self.held_among(id, &points)?;
        let steps = steps_undoing(self.alloc, &held)?;
        Ok(steps)
    }

    /// What a clearance has at those of the points that it holds open.
    fn held_among(&self, id: ClearanceId, points: &[Name]) -> Result<Vec<Held>, AllocError>
        ensures { IfOk result (λ held. held.items ≡ map (held_at self.now.holds id)
            (filter (has_hold self.now.holds id HeldOpen) points.now)) }
    {
        points
            .iter()
            .copied()
            .filter(|point| self.has_hold(id, HoldKind::HeldOpen, *point))
            .map(|point| self.held_at(id, point))
            .collect(self.alloc)
    }

    /// What a clearance has at a point that it holds open.
    fn held_at(&self, id: ClearanceId, point: Name) -> Held
        ensures { result ≡ held_at self.now.holds id point }
    {
        Held {
            point,
            block: self.has_hold(id, HoldKind::Block, point),
            control: self.has_hold(id, HoldKind::Control, point),
            tag: self.has_hold(id, HoldKind::Tag, point),
        }
    }
}

/// The points of the first round of these steps.
#[tactic(auto, using(clr_book::proofs::NearFacts::filter_shown))]
fn first_points(alloc: Global, steps: &[&StepRow]) -> Result<Vec<Name>, AllocError>
    ensures { IfOk result (λ points. points.items ≡ map (λ row. row.now.step.point)
        (filter (λ row. row.now.round == 1) steps.now)) }
{
    steps
        .iter()
        .copied()
        .filter(|row| row.round == 1)
        .map(|row| row.step.point)
        .collect(alloc)
}

/// The steps that undo what is held at these points.
fn steps_undoing(alloc: Global, held: &[Held]) -> Result<Vec<Step>, AllocError>
    ensures { IfOk result (λ steps. steps.items ≡ flat_map leaving held.now) }
{
    let mut steps = Vec::new(alloc);
    for point in held {
        let more = leaving(alloc, point)?;
        steps.extend_from_slice(&more)?;
    }
    Ok(steps)
}

/// The steps that undo what is held at a point, and leave it open.
fn leaving(alloc: Global, held: &Held) -> Result<Vec<Step>, AllocError>
    ensures { IfOk result (λ steps. steps.items ≡ map (λ action. record {
      action = action;
      point = held.now.point;
      state = Waiting;
      reader = None;
    }) (undoing held.now actions.Leave)) }
{
    let point = held.point;
    undoing(held)
        .iter()
        .map(|action| Step {
            action: *action,
            point,
            state: StepState::Waiting,
            reader: None,
        })
        .collect(alloc)
}

/// The actions that undo what is held at a point, and leave it open.
fn undoing(held: &Held) -> &'static [Action]
    ensures { result.now ≡ undoing held.now actions.Leave }
{
    match (held.tag, held.control, held.block) {
        (false, false, false) => &[Action::Leave],
        (false, false, true) => &[Action::Unblock, Action::Leave],
        (false, true, false) => &[Action::Uncontrol, Action::Leave],
        (false, true, true) => &[Action::Uncontrol, Action::Unblock, Action::Leave],
        (true, false, false) => &[Action::Untag, Action::Leave],
        (true, false, true) => &[Action::Untag, Action::Unblock, Action::Leave],
        (true, true, false) => &[Action::Untag, Action::Uncontrol, Action::Leave],
        (true, true, true) => &[
            Action::Untag,
            Action::Uncontrol,
            Action::Unblock,
            Action::Leave,
        ],
    }
}
