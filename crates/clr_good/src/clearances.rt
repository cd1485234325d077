//! Whether the list of clearances fits.
ghost use Rattle.std.specs.Prelude.{◌≡◌, ◌≤◌, IfOk, None, map};
ghost use Rattle.std.specs.List.{list_all};
ghost use Rattle.clr_net.specs.Grid.{section_names};
ghost use Rattle.clr_net.specs.Names.{has_name};
ghost use Rattle.clr_rules.specs.Good.{is_known_work, is_operators};
ghost use Rattle.clr_good.specs.Clearances.{answers_alike, clearances_fit, number_after};
ghost use Rattle.clr_rules.specs.Records.{is_closed};
ghost use Rattle.clr_good.specs.Clearances.{names_fit, numbers_fit, record_fits, work_fits};

use crate::shelves::Shelves;
use clr_book::all_rows;
use clr_net::Name;
use clr_rules::{ClearanceId, Hold, Phase, PointState, Record, StepRow};
use clr_shelf::Shelf;
use clr_staff::Role;
use std::alloc::AllocError;

impl<'a, P: Shelf<PointState>, C: Shelf<Record>, T: Shelf<StepRow>, H: Shelf<Hold>> Shelves<
    'a,
    P,
    C,
    T,
    H,
> {
    /// Whether clearances are numbered without gaps, the work sections of open records are the
    /// network's, and records without one are Switching, of an operator, or Closed.
    pub(crate) fn clearances_fit(&self) -> Result<bool, AllocError>
        ensures { IfOk result (λ fit. fit ≡ clearances_fit self.now) }
    {
        let records: Vec<&Record> = all_rows(self.alloc, self.records)?;
        Ok(numbers_fit(&records) && self.records_fit(&records))
    }

    fn records_fit(&self, records: &[&Record]) -> bool
        ensures { result ≡ list_all (record_fits self.now) (map (λ r. r.now) records.now) }
    {
        for record in records {
            if !self.record_fits(record) {
                return false;
            }
        }
        true
    }

    fn record_fits(&self, clearance: &Record) -> bool
        ensures { result ≡ record_fits self.now clearance.now }
    {
        let works = work_fits(clearance.phase, clearance.work);
        works && (is_closed(clearance.phase) || self.names_fit(clearance))
    }

    /// Whether the network has the work section of a record, and the staff its requester's role.
    fn names_fit(&self, clearance: &Record) -> bool
        ensures { result ≡ names_fit self.now clearance.now }
    {
        let switches = clearance.is_switch_order();
        let operator = self.is_operator(clearance.id.requester());
        self.is_known(clearance.work) && alike(switches, operator)
    }

    /// Whether a work section, if there is one, is the network's.
    fn is_known(&self, work: Option<Name>) -> bool
        ensures { result ≡ is_known_work (section_names self.now.net.sections) work }
    {
        match work {
            Some(work) => self.has_section(work),
            None => true,
        }
    }

    fn has_section(&self, name: Name) -> bool
        ensures { result ≡ has_name (section_names self.now.net.sections) name }
    {
        self.network.section(&name).is_some()
    }

    fn is_operator(&self, name: Name) -> bool
        ensures { result ≡ is_operators self.now name }
    {
        match self.staff.find(&name) {
            Some(row) => matches!(row.role, Role::Operator),
            None => false,
        }
    }
}

pub(crate) fn is_closed(phase: Phase) -> bool
    ensures { result ≡ is_closed phase }
{
    matches!(phase, Phase::Closed)
}

fn alike(a: bool, b: bool) -> bool
    ensures { result ≡ answers_alike a b }
{
    if a { b } else { !b }
}

/// Whether a record of this phase may have this work section, or none.
fn work_fits(phase: Phase, work: Option<Name>) -> bool
    ensures { result ≡ work_fits phase work }
{
    match phase {
        Phase::Requested | Phase::Ordered | Phase::Granted | Phase::Released | Phase::Restoring =>
            work.is_some(),
        Phase::Switching => work.is_none(),
        Phase::Closed => true,
    }
}

/// The number that comes after a clearance, for a clearance of this requester.
fn number_after(before: Option<ClearanceId>, requester: Name) -> u16
    ensures { result ≡ number_after before requester }
{
    let Some(id) = before else {
        return 1;
    };
    if requester == id.requester() {
        id.number() + 1
    } else {
        1
    }
}

/// Whether these records are numbered without gaps.
fn numbers_fit(records: &[&Record]) -> bool
    ensures { result ≡ numbers_fit None (map (λ r. r.now) records.now) }
{
    let mut before = None;
    for record in records {
        let id = record.id;
        if id.number() != number_after(before, id.requester()) {
            return false;
        }
        before = Some(id);
    }
    true
}
