//! The next commands of the way back of a clearance, by the phase of its record.
ghost use Rattle.std.specs.Prelude.{◌≡◌, ◌∷◌, [], false, IfOk, find, not};
ghost use Rattle.clr_rules.specs.Holds.{places_of};
ghost use Rattle.clr_rules.specs.Records.{record_of};
ghost use Rattle.clr_rules.specs.States.{hand_of};
ghost use Rattle.clr_rules.specs.Steps.{is_active, is_close, is_done, steps_in, steps_of};
ghost use Rattle.clr_rules.specs.WayBack.{begun, cancelled, given_out, given_out_at, given_up};
ghost use Rattle.clr_rules.specs.WayBack.{ask, moves_in, next_moves, reported_back};
ghost use Rattle.clr_rules.specs.WayBack.{reported_undone, restored, stepped};
ghost use Rattle.clr_rules.specs.declared.hold_kind.HoldKind.TheVariants.{Crew, Ground};
ghost use Rattle.clr_wayback.specs.Answer.{given, is_by_nobody, items_of};

use crate::rows::Rows;
use clr_book::Book;
use clr_net::Name;
use clr_order::{Action, step_text};
use clr_rules::{
    ClearanceId, Command, Hold, HoldKind, Kind, Phase, PointState, Record, StepRow, Tasks, Text,
};
use clr_shelf::Shelf;
use std::alloc::{AllocError, Global};

/// The next commands on the way back of a clearance; none where it is Closed, or there is no such
/// clearance. There is no list where the staff has nobody who gives one of them.
pub fn next_moves<P, C, T, H>(
    alloc: Global,
    book: &Book<P, C, T, H>,
    id: &ClearanceId,
) -> Result<Option<Vec<Command>>, AllocError>
where
    P: Shelf<PointState>,
    C: Shelf<Record>,
    T: Shelf<StepRow>,
    H: Shelf<Hold>,
    ensures { IfOk result (λ moves. items_of moves ≡ given (next_moves book.now.register id.now)) }
{
    let rows = Rows { alloc, book };
    match book.record(id) {
        Some(record) => rows.moves_in(record),
        None => Ok(Some(Vec::new(alloc))),
    }
}

/// A command about a record, at its last moment.
fn ask(own: &Record, by: Name, kind: Kind) -> Command
    ensures command { result ≡ ask own.now by kind }
    ensures given { is_by_nobody result ≡ false }
{
    let _name = by.as_str();
    Command {
        caller: by,
        moment: own.last,
        kind,
    }
}

/// One command.
fn one(alloc: Global, command: Command) -> Result<Option<Vec<Command>>, AllocError>
    requires { is_by_nobody command ≡ false }
    ensures { IfOk result (λ moves. items_of moves ≡ given (command ∷ [])) }
{
    let moves = vec![in alloc; command]?;
    Ok(Some(moves))
}

impl<'a, P: Shelf<PointState>, C: Shelf<Record>, T: Shelf<StepRow>, H: Shelf<Hold>> Rows<
    'a,
    P,
    C,
    T,
    H,
> {
    /// The next commands, by the phase of the record.
    fn moves_in(&self, own: &Record) -> Result<Option<Vec<Command>>, AllocError>
        ensures { IfOk result (λ moves. items_of moves
            ≡ given (moves_in self.now own.now own.now.phase)) }
    {
        match own.phase {
            Phase::Requested | Phase::Ordered | Phase::Switching => self.cancelled(own),
            Phase::Granted => self.given_up(own),
            Phase::Released => self.restored(own),
            Phase::Restoring => self.stepped(own),
            Phase::Closed => Ok(Some(Vec::new(self.alloc))),
        }
    }

    /// A record is cancelled by its holder; a step of it that is given out comes back first.
    fn cancelled(&self, own: &Record) -> Result<Option<Vec<Command>>, AllocError>
        ensures { IfOk result (λ moves. items_of moves ≡ given (cancelled self.now own.now
            (find (λ row. is_active row.step.state) (steps_of self.now.steps own.now.id)))) }
    {
        let clearance = own.id;
        match self.given_out(clearance)? {
            Some(row) => self.reported_back(own, row, false),
            None => one(self.alloc, ask(own, own.holder, Kind::Cancel { clearance })),
        }
    }

    /// A step that is given out is repeated, and reported as done or not done.
    fn reported_back(
        &self,
        own: &Record,
        row: &StepRow,
        done: bool,
    ) -> Result<Option<Vec<Command>>, AllocError>
        ensures { IfOk result (λ moves. items_of moves
            ≡ given (reported_back self.now own.now row.now done)) }
    {
        let Some(by) = self.field_employee() else {
            return Ok(None);
        };
        let clearance = own.id;
        let step = row.ordinal;
        let text = Text::new(step_text(self.alloc, &row.step)?);
        let repeat = Kind::Repeat {
            clearance,
            step,
            text,
        };
        let report = Kind::Report {
            clearance,
            step,
            done,
        };
        let moves = vec![in self.alloc; ask(own, by, repeat), ask(own, by, report)]?;
        Ok(Some(moves))
    }

    /// The holder signs off a crew, takes a ground off, or releases the clearance.
    fn given_up(&self, own: &Record) -> Result<Option<Vec<Command>>, AllocError>
        ensures { IfOk result (λ moves. items_of moves ≡ given (given_up own.now
            (places_of self.now.holds own.now.id Crew)
            (places_of self.now.holds own.now.id Ground))) }
    {
        let clearance = own.id;
        let crew = self.first_place(clearance, HoldKind::Crew)?;
        let ground = self.first_place(clearance, HoldKind::Ground)?;
        let kind = match (crew, ground) {
            (Some(crew), _) => Kind::SignOff { clearance, crew },
            (None, Some(section)) => Kind::Unground { clearance, section },
            (None, None) => Kind::Release {
                clearance,
                notified: true,
                clear: true,
            },
        };
        one(self.alloc, ask(own, own.holder, kind))
    }

    /// An operator orders what undoes the holds at the points of a clearance.
    fn restored(&self, own: &Record) -> Result<Option<Vec<Command>>, AllocError>
        ensures { IfOk result (λ moves. items_of moves
            ≡ given (restored self.now own.now)) }
    {
        let Some(by) = self.operator() else {
            return Ok(None);
        };
        let clearance = own.id;
        let steps = Tasks::new(self.undoing_steps(clearance)?);
        one(self.alloc, ask(own, by, Kind::Restore { clearance, steps }))
    }

    /// The first step of a restoring order that is left is given out, or reported.
    fn stepped(&self, own: &Record) -> Result<Option<Vec<Command>>, AllocError>
        ensures { IfOk result (λ moves. items_of moves ≡ given (stepped self.now own.now
            (find (λ row. not (is_done row.step.state))
            (steps_in self.now.steps own.now.id 2)))) }
    {
        let Some(row) = self.step_left(own.id)? else {
            return Ok(Some(Vec::new(self.alloc)));
        };
        if row.is_active() {
            self.reported_back(own, row, row.step.action != Action::Close)
        } else {
            self.begun(own, row)
        }
    }

    /// A step that waits is given out; a Close becomes a Leave first.
    fn begun(&self, own: &Record, row: &StepRow) -> Result<Option<Vec<Command>>, AllocError>
        ensures { IfOk result (λ moves. items_of moves
            ≡ given (begun self.now own.now row.now (is_close row.now.step.action))) }
    {
        if row.step.action != Action::Close {
            return self.instructed(own, row);
        }
        let Some(by) = self.operator() else {
            return Ok(None);
        };
        let kind = Kind::Amend {
            clearance: own.id,
            step: row.ordinal,
        };
        one(self.alloc, ask(own, by, kind))
    }

    /// A step is given out, once no other clearance has its point in hand.
    fn instructed(&self, own: &Record, row: &StepRow) -> Result<Option<Vec<Command>>, AllocError>
        ensures { IfOk result (λ moves. items_of moves ≡ given (given_out self.now own.now row.now
            (hand_of self.now.states row.now.step.point))) }
    {
        let point = row.step.point;
        if let Some(other) = self.hand_of(point) {
            if own.id != other {
                return self.reported_undone(other, point);
            }
        }
        let Some(by) = self.operator() else {
            return Ok(None);
        };
        let kind = Kind::Instruct {
            clearance: own.id,
            step: row.ordinal,
        };
        one(self.alloc, ask(own, by, kind))
    }

    /// The step of a clearance at a point that is given out comes back undone.
    fn reported_undone(
        &self,
        id: ClearanceId,
        point: Name,
    ) -> Result<Option<Vec<Command>>, AllocError>
        ensures { IfOk result (λ moves. items_of moves
            ≡ given (reported_undone self.now (record_of self.now.records id)
            (given_out_at self.now.steps id point))) }
    {
        let Some(other) = self.book.record(&id) else {
            return Ok(Some(Vec::new(self.alloc)));
        };
        match self.given_out_at(id, point)? {
            Some(row) => self.reported_back(other, row, false),
            None => Ok(Some(Vec::new(self.alloc))),
        }
    }
}
