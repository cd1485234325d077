//! What is read of a book on the way back of a clearance.
ghost use Rattle.std.specs.Prelude.{◌≡◌, ◌&&◌, IfOk, IfSome, find, map, not, option_copied};
ghost use Rattle.std.specs.Prelude.{option_map};
ghost use Rattle.clr_net.specs.Name.{same_name};
ghost use Rattle.clr_rules.specs.Checks.{is_field, is_operator};
ghost use Rattle.clr_rules.specs.Holds.{has_hold, same_kind};
ghost use Rattle.clr_rules.specs.Id.{same_id};
ghost use Rattle.clr_rules.specs.States.{hand_of};
ghost use Rattle.clr_rules.specs.Steps.{is_active, is_done, is_of_round};
ghost use Rattle.clr_rules.specs.WayBack.{given_out_at, one_of_role};
ghost use Rattle.clr_rules.specs.Steps.{steps_in, steps_of};
ghost use Rattle.clr_rules.specs.Staffed.{has_some_role};
ghost use Rattle.clr_wayback.specs.Answer.{first_place, or_nobody};
ghost use Rattle.std.specs.Option.{is_some};

use clr_book::{Book, all_rows};
use clr_net::Name;
use clr_rules::{ClearanceId, Hold, HoldKind, PointState, Record, StepRow};
use clr_shelf::Shelf;
use clr_staff::{Role, StaffRow};
use std::alloc::{AllocError, Global};
use std::marker::Model;

/// The rows of a book. A contract sees them as its register.
#[derive(Drop)]
pub(crate) struct Rows<
    'a,
    P: Shelf<PointState>,
    C: Shelf<Record>,
    T: Shelf<StepRow>,
    H: Shelf<Hold>,
> {
    pub(crate) alloc: Global,
    pub(crate) book: &'a Book<P, C, T, H>,
}

impl<'a, P: Shelf<PointState>, C: Shelf<Record>, T: Shelf<StepRow>, H: Shelf<Hold>> Model
    for Rows<'a, P, C, T, H> {
    ghost use Rattle.clr_rules.specs.Register.{Register};

    ghost Value = { Register };

    ghost view = { λ rows. rows.book.now.register };
}

impl<'a, P: Shelf<PointState>, C: Shelf<Record>, T: Shelf<StepRow>, H: Shelf<Hold>> Rows<
    'a,
    P,
    C,
    T,
    H,
> {
    /// The first employee in the field.
    pub(crate) fn field_employee(&self) -> Option<Name>
        ensures name { or_nobody result ≡ one_of_role self.now is_field }
        ensures found { is_some result ≡ has_some_role self.now.staff is_field }
    {
        let staff = self.book.staff();
        match first_field(staff.rows()) {
            Some(row) => Some(row.name),
            None => None,
        }
    }

    /// The first operator.
    pub(crate) fn operator(&self) -> Option<Name>
        ensures { or_nobody result ≡ one_of_role self.now is_operator }
    {
        let staff = self.book.staff();
        match first_operator(staff.rows()) {
            Some(row) => Some(row.name),
            None => None,
        }
    }

    /// The first step of a clearance that is given out.
    pub(crate) fn given_out(&self, id: ClearanceId) -> Result<Option<&'a StepRow>, AllocError>
        ensures { IfOk result (λ found. option_copied found
            ≡ find (λ row. is_active row.step.state) (steps_of self.now.steps id)) }
    {
        let steps = self.book.steps(&id)?;
        Ok(first_given_out(&steps))
    }

    /// The first step of a clearance at a point that is given out.
    pub(crate) fn given_out_at(
        &self,
        id: ClearanceId,
        point: Name,
    ) -> Result<Option<&'a StepRow>, AllocError>
        ensures { IfOk result (λ found. option_copied found
            ≡ given_out_at self.now.steps id point) }
    {
        let steps = self.book.steps(&id)?;
        Ok(first_given_out_at(&steps, point))
    }

    /// The first step of the second round that is not done.
    pub(crate) fn step_left(&self, id: ClearanceId) -> Result<Option<&'a StepRow>, AllocError>
        ensures { IfOk result (λ found. option_copied found
            ≡ find (λ row. not (is_done row.step.state)) (steps_in self.now.steps id 2)) }
    {
        let steps = self.book.steps(&id)?;
        Ok(first_left(&steps, id))
    }

    /// Which clearance has a point in hand.
    pub(crate) fn hand_of(&self, point: Name) -> Option<ClearanceId>
        ensures { result ≡ hand_of self.now.states point }
    {
        match self.book.state(&point) {
            Some(state) => state.hand,
            None => None,
        }
    }

    /// The first place where a clearance has a hold of a kind.
    pub(crate) fn first_place(
        &self,
        id: ClearanceId,
        kind: HoldKind,
    ) -> Result<Option<Name>, AllocError>
        ensures { IfOk result (λ place. place ≡ first_place self.now.holds id kind) }
    {
        let (_, _, _, holds) = self.book.shelves();
        let rows: Vec<&Hold> = all_rows(self.alloc, holds)?;
        match first_hold(&rows, id, kind) {
            Some(hold) => Ok(Some(hold.place)),
            None => Ok(None),
        }
    }

    /// Whether a clearance has a hold of a kind at a place.
    pub(crate) fn has_hold(&self, id: ClearanceId, kind: HoldKind, place: Name) -> bool
        ensures { result ≡ has_hold self.now.holds id kind place }
    {
        let (_, _, _, holds) = self.book.shelves();
        let hold = Hold { kind, place, id };
        holds.get(&hold).is_some()
    }
}

fn is_field(row: &StaffRow) -> bool
    ensures { result ≡ is_field row.now.role }
{
    matches!(row.role, Role::Field)
}

fn is_operator(row: &StaffRow) -> bool
    ensures { result ≡ is_operator row.now.role }
{
    matches!(row.role, Role::Operator)
}

fn first_field(staff: &[StaffRow]) -> Option<StaffRow>
    ensures { result ≡ find (λ row. is_field row.role) staff.now }
{
    staff.iter().copied().find(|row| is_field(row))
}

fn first_operator(staff: &[StaffRow]) -> Option<StaffRow>
    ensures { result ≡ find (λ row. is_operator row.role) staff.now }
{
    staff.iter().copied().find(|row| is_operator(row))
}

/// The first of these steps that is given out.
fn first_given_out<'a>(steps: &[&'a StepRow]) -> Option<&'a StepRow>
    ensures { result ≡ find (λ row. is_active row.now.step.state) steps.now }
{
    steps.iter().copied().find(|row| row.is_active())
}

/// The first of these steps at a point that is given out.
fn first_given_out_at<'a>(steps: &[&'a StepRow], point: Name) -> Option<&'a StepRow>
    ensures { result ≡ find (λ row. is_active row.now.step.state
        && same_name point row.now.step.point) steps.now }
{
    steps
        .iter()
        .copied()
        .find(|row| row.is_active() && point == row.step.point)
}

/// The first of these steps that is of a clearance's second round and not done.
fn first_left<'a>(steps: &[&'a StepRow], id: ClearanceId) -> Option<&'a StepRow>
    ensures { result ≡ find (λ row. is_of_round id 2 row.now
        && not (is_done row.now.step.state)) steps.now }
{
    steps
        .iter()
        .copied()
        .find(|row| row.is_of_round(id, 2) && !row.is_done())
}

/// The first of these holds that is a clearance's, and of a kind.
fn first_hold<'a>(holds: &[&'a Hold], id: ClearanceId, kind: HoldKind) -> Option<&'a Hold>
    ensures { result ≡ find (λ hold. same_id id hold.now.id
        && same_kind kind hold.now.kind) holds.now }
{
    holds
        .iter()
        .copied()
        .find(|hold| id == hold.id && kind == hold.kind)
}
