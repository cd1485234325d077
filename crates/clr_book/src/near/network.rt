//! What a jumper looks at: the network, all records, and the steps of all first rounds.
ghost use Rattle.std.specs.Prelude.{◌≡◌, ◌==◌, [], IfOk, map, filter};
ghost use Rattle.std.specs.List.Sorted.{IsStrictlySortedBy};
ghost use Rattle.std.specs.Option.{option_map};
ghost use Rattle.clr_net.specs.Name.{name_cmp};
ghost use Rattle.clr_rules.specs.Answer.{requester_for};
ghost use Rattle.clr_rules.specs.Command.{named_clearance};
ghost use Rattle.clr_rules.specs.Fences.{crossed_by, crossed_record, crosses, record_fence};
ghost use Rattle.clr_rules.specs.Near.{network_part};
ghost use Rattle.clr_rules.specs.Records.{greatest_number};

use crate::book::Book;
use crate::book::rows::all_rows;
use clr_answer::{Near, is_among};
use clr_net::Name;
use clr_rules::{ClearanceId, Command, Hold, PointState, Record, StepRow};
use clr_shelf::Shelf;
use std::alloc::{AllocError, Global};

impl<P: Shelf<PointState>, C: Shelf<Record>, T: Shelf<StepRow>, H: Shelf<Hold>> Book<P, C, T, H> {
    /// What a point between these sections looks at, and no other row.
    pub(crate) fn network_near(
        &self,
        command: &Command,
        from: Name,
        to: Name,
    ) -> Result<Near<'_>, AllocError>
        ensures { IfOk result (λ near. near ≡ record {
          known = record {
            greatest = greatest_number self.now.register.records
                (requester_for command.now.caller (named_clearance command.now.kind));
            fence = [];
            crossed = crossed_by self.now.register from to;
          };
          rows = network_part self.now.register;
        }) }
    {
        let near = self.network_alone(command, from, to)?;
        let records = all_rows(self.alloc, &self.records)?;
        let steps = self.first_rounds()?;
        Ok(Near {
            records,
            steps,
            ..near
        })
    }

    /// The same without records and steps: of all clearances the answer hangs only on the least one
    /// whose fence is crossed, and that one is open.
    pub(crate) fn network_alone(
        &self,
        command: &Command,
        from: Name,
        to: Name,
    ) -> Result<Near<'_>, AllocError>
        ensures { IfOk result (λ near. near ≡ record {
          known = record {
            greatest = greatest_number self.now.register.records
                (requester_for command.now.caller (named_clearance command.now.kind));
            fence = [];
            crossed = crossed_by self.now.register from to;
          };
          rows = record (network_part self.now.register) {
            records = [];
            steps = [];
          };
        }) }
    {
        let open_records = self.open_records()?;
        let crossed = self.crossed_by(&open_records, from, to)?;
        let sections = each_row(self.alloc, self.network.sections())?;
        let points = each_row(self.alloc, self.network.points())?;
        Ok(Near {
            alloc: self.alloc,
            greatest: self.greatest_for(command),
            fence: Vec::new(self.alloc),
            crossed,
            sections,
            points,
            staff: &self.staff,
            states: Vec::new(self.alloc),
            records: Vec::new(self.alloc),
            steps: Vec::new(self.alloc),
            holds: Vec::new(self.alloc),
        })
    }

    /// The first of these clearances whose fence a point between these sections would cross. A
    /// fence is forgotten before the next one is made.
    #[tactic(auto, unfolding(clr_rules::specs::Fences::crossed_record))]
    fn crossed_by(
        &self,
        records: &[&Record],
        from: Name,
        to: Name,
    ) -> Result<Option<ClearanceId>, AllocError>
        ensures { IfOk result (λ crossed. crossed ≡ option_map (λ r. r.id)
            (crossed_record self.now.register.net self.now.register.steps
            (map (λ r. r.now) records.now) from to)) }
    {
        for record in records {
            if self.crosses(record, from, to)? {
                return Ok(Some(record.id));
            }
        }
        Ok(None)
    }

    /// Whether a point between these sections would cross the fence of a clearance.
    fn crosses(&self, clearance: &Record, from: Name, to: Name) -> Result<bool, AllocError>
        ensures { IfOk result (λ across. across ≡ crosses
            (record_fence self.now.register.net self.now.register.steps clearance.now) from to) }
    {
        let fence = self.record_fence(clearance)?;
        Ok(crosses(&fence.sections, from, to))
    }

    /// The steps of all first rounds, in key order.
    fn first_rounds(&self) -> Result<Vec<&StepRow>, AllocError>
        ensures { IfOk result (λ found. map (λ row. row.now) found.items
            ≡ filter (λ row. row.round == 1) self.now.register.steps) }
    {
        let rows = all_rows(self.alloc, &self.steps)?;
        let found = of_first_rounds(self.alloc, &rows)?;
        Ok(found)
    }
}

/// Whether exactly one of two sections is among those of a fence.
fn crosses(fence: &[Name], from: Name, to: Name) -> bool
    requires { IsStrictlySortedBy name_cmp fence.now }
    ensures { result ≡ crosses fence.now from to }
{
    if is_among(fence, from) {
        !is_among(fence, to)
    } else {
        is_among(fence, to)
    }
}

/// The steps among these that are in first rounds.
fn of_first_rounds<'a>(alloc: Global, rows: &[&'a StepRow]) -> Result<Vec<&'a StepRow>, AllocError>
    ensures { IfOk result (λ found. found.items ≡ filter (λ row. row.now.round == 1) rows.now) }
{
    rows.iter()
        .copied()
        .filter(|row| row.round == 1)
        .collect(alloc)
}

/// Each of these rows.
fn each_row<R>(alloc: Global, rows: &[R]) -> Result<Vec<&R>, AllocError>
    ensures { IfOk result (λ found. map (λ row. row.now) found.items ≡ rows.now) }
{
    rows.iter().collect(alloc)
}
