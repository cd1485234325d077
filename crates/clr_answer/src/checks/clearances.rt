//! Checks of the clearance that is named.
ghost use Rattle.std.specs.Prelude.{◌≡◌, ◌≤◌, IfSome, option_copied};
ghost use Rattle.clr_rules.specs.Checks.{bad_transfer, earlier_moment, is_charge, is_in_charge};
ghost use Rattle.clr_rules.specs.Checks.{is_supervisor, may_not_transfer, not_holder};
ghost use Rattle.clr_rules.specs.Checks.{too_many_clearances, unknown_clearance, wrong_phase};
ghost use Rattle.clr_rules.specs.Checks.{employee};
ghost use Rattle.clr_rules.specs.Records.{record_of};
ghost use Rattle.clr_answer.specs.Begins.{phase_fits};

use crate::checks::refuse;
use crate::checks::rows::find_row;
use crate::near::Near;
use clr_net::Name;
use clr_rules::{ClearanceId, MAX_CLEARANCE_NUMBER, Moment, Phase, Record, Refusal};
use clr_staff::Role;

/// The record of a clearance.
pub(crate) fn record<'a>(near: &Near<'a>, id: ClearanceId) -> Option<&'a Record>
    ensures row { option_copied result ≡ record_of near.now.rows.records id }
    ensures own { IfSome result (λ r. r.now.id ≡ id) }
{
    find_row(&near.records, &id)
}

/// The greatest number of the requester's clearances.
pub(crate) fn greatest(near: &Near) -> u16
    ensures value { result ≡ near.now.known.greatest }
    ensures range { result ≤ 9999 }
{
    near.greatest
}

/// Whether the last number was given.
pub(crate) fn too_many_clearances(near: &Near) -> Option<Refusal>
    ensures { result ≡ too_many_clearances near.now.known.greatest }
{
    refuse(
        near.greatest == MAX_CLEARANCE_NUMBER,
        Refusal::TooManyClearances,
    )
}

/// Whether there is no such clearance.
pub(crate) fn unknown_clearance(near: &Near, id: ClearanceId) -> Option<Refusal>
    ensures { result ≡ unknown_clearance near.now.rows id }
{
    match record(near, id) {
        Some(_) => None,
        None => Some(Refusal::UnknownClearance),
    }
}

/// Whether the caller is not the employee in charge.
pub(crate) fn not_holder(near: &Near, id: ClearanceId, by: Name) -> Option<Refusal>
    ensures { result ≡ not_holder near.now.rows id by }
{
    let record = record(near, id)?;
    refuse(by != record.holder, Refusal::NotHolder)
}

/// Whether a caller is the supervisor of an employee.
fn is_supervisor(near: &Near, of: Name, by: Name) -> bool
    ensures { result ≡ is_supervisor (employee near.now.rows.staff of) by }
{
    let Some(row) = near.staff.find(&of) else {
        return false;
    };
    match row.supervisor {
        Some(supervisor) => by == supervisor,
        None => false,
    }
}

/// Whether the caller is neither the employee in charge nor, in an emergency, that employee's
/// supervisor.
pub(crate) fn may_not_transfer(
    near: &Near,
    id: ClearanceId,
    by: Name,
    emergency: bool,
) -> Option<Refusal>
    ensures { result ≡ may_not_transfer near.now.rows id by emergency }
{
    let record = record(near, id)?;
    let supervises = is_supervisor(near, record.holder, by);
    refuse(
        !(by == record.holder || (emergency && supervises)),
        Refusal::NotHolder,
    )
}

/// Whether an employee may be in charge.
fn is_in_charge(near: &Near, name: Name) -> bool
    ensures { result ≡ is_in_charge (employee near.now.rows.staff name) }
{
    match near.staff.find(&name) {
        Some(row) => matches!(row.role, Role::Charge),
        None => false,
    }
}

/// Whether a clearance cannot go to this employee, who may not be in charge or has it already.
pub(crate) fn bad_transfer(near: &Near, id: ClearanceId, to: Name) -> Option<Refusal>
    ensures { result ≡ bad_transfer near.now.rows id to }
{
    let record = record(near, id)?;
    let in_charge = is_in_charge(near, to);
    refuse(!in_charge || to == record.holder, Refusal::BadTransfer)
}

/// Whether something later is written down of the clearance.
pub(crate) fn earlier_moment(near: &Near, id: ClearanceId, at: Moment) -> Option<Refusal>
    ensures { result ≡ earlier_moment near.now.rows id at }
{
    let record = record(near, id)?;
    refuse(at < record.last, Refusal::Earlier)
}

/// In which phases a command may come.
#[derive(Clone, Copy)]
pub(crate) enum PhaseTest {
    Requested,
    Ordered,
    Running,
    Granted,
    Released,
    Restoring,
    Transferable,
    Cancellable,
}

impl PhaseTest {
    fn fits(self, phase: Phase) -> bool
        ensures { result ≡ phase_fits self phase }
    {
        match self {
            PhaseTest::Requested => phase.is_requested(),
            PhaseTest::Ordered => phase.is_ordered(),
            PhaseTest::Running => phase.is_running(),
            PhaseTest::Granted => phase.is_granted(),
            PhaseTest::Released => phase.is_released(),
            PhaseTest::Restoring => phase.is_restoring(),
            PhaseTest::Transferable => phase.is_transferable(),
            PhaseTest::Cancellable => phase.is_cancellable(),
        }
    }
}

/// Whether the clearance is in another phase.
pub(crate) fn wrong_phase(near: &Near, id: ClearanceId, phases: PhaseTest) -> Option<Refusal>
    ensures { result ≡ wrong_phase near.now.rows id (phase_fits phases) }
{
    let record = record(near, id)?;
    refuse(!phases.fits(record.phase), Refusal::WrongPhase)
}
