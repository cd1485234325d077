//! Whether the list of holds fits.
ghost use Rattle.std.specs.Prelude.{◌≡◌, Bool, IfOk, IfSome, map, true, false};
ghost use Rattle.std.specs.List.{list_all};
ghost use Rattle.clr_net.specs.Names.{has_name};
ghost use Rattle.clr_rules.specs.Fences.{work_fence};
ghost use Rattle.clr_rules.specs.Good.{put_by, puts, works_on};
ghost use Rattle.clr_rules.specs.GoodByPhase.{of_round};
ghost use Rattle.clr_rules.specs.Holds.{has_hold};
ghost use Rattle.clr_rules.specs.States.{position_of};
ghost use Rattle.clr_rules.specs.Steps.{points_of, steps_of};
ghost use Rattle.clr_rules.specs.declared.hold.Hold.{Hold};
ghost use Rattle.clr_rules.specs.declared.hold_kind.HoldKind.TheVariants.{Ground};
ghost use Rattle.clr_good.specs.Around.{IsAround};
ghost use Rattle.clr_good.specs.Holds.{all_put_stands, hold_fits, holds_fit, holds_suit};
ghost use Rattle.clr_good.specs.Holds.{is_opened, is_undone_at, kind_suits, put_stands};
ghost use Rattle.clr_good.specs.Holds.{record_holds_fit};

use crate::around::Around;
use crate::rounds::of_round;
use crate::shelves::Shelves;
use crate::undoing::undo;
use clr_book::all_rows;
use clr_net::{Name, Position};
use clr_order::{Action, HoldsLeft};
use clr_rules::{ClearanceId, Hold, HoldKind, Phase, PointState, Record, StepRow};
use clr_shelf::Shelf;
use std::alloc::AllocError;

impl<'a, P: Shelf<PointState>, C: Shelf<Record>, T: Shelf<StepRow>, H: Shelf<Hold>> Shelves<
    'a,
    P,
    C,
    T,
    H,
> {
    /// Whether each hold has a record whose phase and steps put it there, at an open point
    /// if it is at one, and each record has the holds that its phase and steps want.
    pub(crate) fn holds_fit(&self) -> Result<bool, AllocError>
        ensures { IfOk result (λ fit. fit ≡ holds_fit self.now) }
    {
        let holds: Vec<&Hold> = all_rows(self.alloc, self.holds)?;
        let holds = by_clearance(holds);
        if !self.each_hold_fits(&holds)? {
            return Ok(false);
        }
        let records: Vec<&Record> = all_rows(self.alloc, self.records)?;
        let fit = self.each_is_held(&records)?;
        Ok(fit)
    }

    /// Where the holds of a clearance are side by side, its fence is searched once.
    fn each_hold_fits(&self, holds: &[&Hold]) -> Result<bool, AllocError>
        ensures { IfOk result (λ fit. fit
            ≡ list_all (hold_fits self.now) (map (λ hold. hold.now) holds.now)) }
    {
        let mut last = None;
        for hold in holds {
            if !self.hold_fits(hold, &mut last)? {
                return Ok(false);
            }
        }
        Ok(true)
    }

    fn hold_fits(&self, hold: &Hold, last: &mut Option<Around<'a>>) -> Result<bool, AllocError>
        requires { IfSome last.old (IsAround self.now) }
        ensures fits { IfOk result (λ fits. fits ≡ hold_fits self.now hold.now) }
        ensures last { IfSome last.new (IsAround self.now) }
    {
        let Some(record) = self.records.get(&hold.id) else {
            return Ok(false);
        };
        if hold.kind.stands_at_point() {
            let suits = self.stands_at_point(record.phase, record.work, hold)?;
            Ok(suits)
        } else {
            let suits = self.stands_at_work(record.phase, record.work, hold, last)?;
            Ok(suits)
        }
    }

    /// Whether a hold at a point may be there.
    #[tactic(auto, unfolding(clr_rules::specs::Steps::steps_of))]
    fn stands_at_point(
        &self,
        phase: Phase,
        work: Option<Name>,
        hold: &Hold,
    ) -> Result<bool, AllocError>
        ensures { IfOk result (λ suits. suits ≡ kind_suits self.now phase work hold.now true) }
    {
        if !self.is_open(hold.place) {
            return Ok(false);
        }
        let steps = self.steps.group(&hold.id)?;
        let first = of_round(self.alloc, &steps, 1)?;
        match phase {
            Phase::Ordered | Phase::Granted | Phase::Released => Ok(put_by(
                &first, hold.kind, hold.place,
            )),
            Phase::Restoring => {
                let open = self.has_hold(hold.id, HoldKind::HeldOpen, hold.place);
                Ok(open && stands_there(&first, hold.place))
            }
            Phase::Requested | Phase::Switching | Phase::Closed => Ok(false),
        }
    }

    fn is_open(&self, point: Name) -> bool
        ensures { result ≡ is_opened (position_of self.now.states point) }
    {
        match self.states.get(&point) {
            Some(state) => matches!(state.position, Position::Opened),
            None => false,
        }
    }

    pub(crate) fn has_hold(&self, id: ClearanceId, kind: HoldKind, place: Name) -> bool
        ensures { result ≡ has_hold self.now.holds id kind place }
    {
        self.holds.get(&Hold { kind, place, id }).is_some()
    }

    /// Whether a test, a ground or a crew may be there.
    fn stands_at_work(
        &self,
        phase: Phase,
        work: Option<Name>,
        hold: &Hold,
        last: &mut Option<Around<'a>>,
    ) -> Result<bool, AllocError>
        requires { IfSome last.old (IsAround self.now) }
        ensures suits { IfOk result (λ suits. suits
            ≡ kind_suits self.now phase work hold.now false) }
        ensures last { IfSome last.new (IsAround self.now) }
    {
        if !phase.is_granted() {
            return Ok(false);
        }
        match hold.kind {
            HoldKind::Tested | HoldKind::Ground => {
                let inside = self.is_inside(hold.id, work, hold.place, last)?;
                Ok(inside)
            }
            HoldKind::Crew => Ok(self.is_grounded(hold.id, work)),
            HoldKind::HeldOpen | HoldKind::Block | HoldKind::Control | HoldKind::Tag => Ok(false),
        }
    }

    /// Whether a section lies in the fence that the first round cuts out around a work section.
    fn is_inside(
        &self,
        id: ClearanceId,
        work: Option<Name>,
        section: Name,
        last: &mut Option<Around<'a>>,
    ) -> Result<bool, AllocError>
        requires { IfSome last.old (IsAround self.now) }
        ensures inside { IfOk result (λ inside. inside
            ≡ has_name (work_fence self.now.net work
            (points_of (of_round (steps_of self.now.steps id) 1))) section) }
        ensures last { IfSome last.new (IsAround self.now) }
    {
        let Some(work) = work else {
            return Ok(false);
        };
        let around = self.around(last.take(), id, work)?;
        let inside = around.fence.has(&section);
        *last = Some(around);
        Ok(inside)
    }

    /// Whether the work section bears the clearance's ground.
    fn is_grounded(&self, id: ClearanceId, work: Option<Name>) -> bool
        ensures { result ≡ works_on self.now.holds id Ground work }
    {
        match work {
            Some(work) => self.has_hold(id, HoldKind::Ground, work),
            None => false,
        }
    }

    fn each_is_held(&self, records: &[&Record]) -> Result<bool, AllocError>
        ensures { IfOk result (λ fit. fit
            ≡ list_all (record_holds_fit self.now) (map (λ r. r.now) records.now)) }
    {
        for record in records {
            if !self.is_held(record.id, record.phase)? {
                return Ok(false);
            }
        }
        Ok(true)
    }

    /// Whether a clearance has the holds that its phase and its steps want.
    #[tactic(auto, unfolding(clr_rules::specs::Steps::steps_of))]
    fn is_held(&self, id: ClearanceId, phase: Phase) -> Result<bool, AllocError>
        ensures { IfOk result (λ suit. suit
            ≡ holds_suit self.now.holds id phase (steps_of self.now.steps id)) }
    {
        match phase {
            Phase::Ordered | Phase::Granted | Phase::Released => {
                let steps = self.steps.group(&id)?;
                let first = of_round(self.alloc, &steps, 1)?;
                Ok(self.all_put_stands(id, &first))
            }
            Phase::Restoring => {
                let steps = self.steps.group(&id)?;
                let second = of_round(self.alloc, &steps, 2)?;
                Ok(self.all_undone(id, &second, &steps))
            }
            Phase::Requested | Phase::Switching | Phase::Closed => Ok(true),
        }
    }

    /// Whether all that the Done steps put is there.
    fn all_put_stands(&self, id: ClearanceId, steps: &[&StepRow]) -> bool
        ensures { result ≡ all_put_stands self.now.holds id (map (λ row. row.now) steps.now) }
    {
        for row in steps {
            if row.is_done() && !self.put_stands(id, row.step.action, row.step.point) {
                return false;
            }
        }
        true
    }

    /// Whether what an action puts at its point is there.
    fn put_stands(&self, id: ClearanceId, action: Action, point: Name) -> bool
        ensures { result ≡ put_stands self.now.holds id action point }
    {
        match action {
            Action::Open => self.has_hold(id, HoldKind::HeldOpen, point),
            Action::Block => self.has_hold(id, HoldKind::Block, point),
            Action::Control => self.has_hold(id, HoldKind::Control, point),
            Action::Tag => self.has_hold(id, HoldKind::Tag, point),
            Action::Untag | Action::Uncontrol | Action::Unblock | Action::Close | Action::Leave =>
                true,
        }
    }

    /// Whether what is left of the second round undoes what is held at the points of these steps.
    fn all_undone(&self, id: ClearanceId, second: &[&StepRow], steps: &[&StepRow]) -> bool
        ensures { result
            ≡ list_all (is_undone_at self.now.holds id (map (λ row. row.now) second.now))
            (points_of (map (λ row. row.now) steps.now)) }
    {
        for row in steps {
            if !self.is_undone_at(id, second, row.step.point) {
                return false;
            }
        }
        true
    }

    /// Whether what is left of the second round undoes what is held at a point.
    fn is_undone_at(&self, id: ClearanceId, second: &[&StepRow], point: Name) -> bool
        ensures { result
            ≡ is_undone_at self.now.holds id (map (λ row. row.now) second.now) point }
    {
        let held = HoldsLeft {
            tag: self.has_hold(id, HoldKind::Tag, point),
            control: self.has_hold(id, HoldKind::Control, point),
            block: self.has_hold(id, HoldKind::Block, point),
            held: self.has_hold(id, HoldKind::HeldOpen, point),
        };
        undo(held, second, point)
    }
}

/// These holds, those of a clearance side by side.
fn by_clearance(holds: Vec<&Hold>) -> Vec<&Hold>
    ensures { (test : Hold → Bool) → list_all test (map (λ hold. hold.now) result.items)
        ≡ list_all test (map (λ hold. hold.now) holds.entry.items) }
{
    let mut ordered = holds;
    ordered.sort_unstable_by_key(|hold| hold.id);
    ordered
}

/// Whether the Done steps put a hold of this kind at a point.
fn put_by(steps: &[&StepRow], kind: HoldKind, point: Name) -> bool
    ensures { result ≡ put_by (map (λ row. row.now) steps.now) kind point }
{
    for row in steps {
        if row.is_done() && puts(row.step.action, kind) && point == row.step.point {
            return true;
        }
    }
    false
}

/// Whether an action puts a hold of this kind.
fn puts(action: Action, kind: HoldKind) -> bool
    ensures { result ≡ puts action kind }
{
    match action {
        Action::Open => matches!(kind, HoldKind::HeldOpen),
        Action::Block => matches!(kind, HoldKind::Block),
        Action::Control => matches!(kind, HoldKind::Control),
        Action::Tag => matches!(kind, HoldKind::Tag),
        Action::Untag | Action::Uncontrol | Action::Unblock | Action::Close | Action::Leave =>
            false,
    }
}

/// Whether one of these steps is at a point.
fn stands_there(steps: &[&StepRow], point: Name) -> bool
    ensures { result ≡ has_name (points_of (map (λ row. row.now) steps.now)) point }
{
    for row in steps {
        if point == row.step.point {
            return true;
        }
    }
    false
}
