//! The steps of clearances, by round and ordinal.
ghost use Rattle.std.specs.Prelude.{◌≡◌};
ghost use Rattle.clr_rules.specs.Steps.{is_active, is_done, is_of_round, is_repeated, is_waiting};

use crate::clearance_id::ClearanceId;
use clr_order::{Step, StepState};
use clr_shelf::Row;
use std::cmp::Ordering;

/// What distinguishes step rows. Keys are in the order of the clearance, then the round, then the
/// ordinal.
#[derive(Clone, Copy, Debug, PartialEq, Eq)]
pub struct StepKey {
    pub id: ClearanceId,
    pub round: u8,
    pub ordinal: u16,
}

/// One step of a clearance or a switch order, in its place.
///
/// Its group is its clearance.
#[derive(Clone, Copy, Debug, PartialEq, Eq)]
pub struct StepRow {
    pub id: ClearanceId,
    /// 1 for isolating steps and those of a switch order, 2 for restoring steps.
    pub round: u8,
    /// The step's place in its round, counted from 1. Steps are done in this order: 29 CFR
    /// 1910.269(m)(2)(i).
    pub ordinal: u16,
    pub step: Step,
}

impl StepRow {
    /// Whether it is a step of a clearance in a round.
    pub fn is_of_round(&self, id: ClearanceId, round: u8) -> bool
        ensures { result ≡ is_of_round id round self.now }
    {
        id == self.id && self.round == round
    }

    pub fn is_waiting(&self) -> bool
        ensures { result ≡ is_waiting self.now.step.state }
    {
        matches!(self.step.state, StepState::Waiting)
    }

    /// Whether it was given out, and is not reported yet.
    pub fn is_active(&self) -> bool
        ensures { result ≡ is_active self.now.step.state }
    {
        matches!(self.step.state, StepState::Instructed | StepState::Repeated)
    }

    pub fn is_repeated(&self) -> bool
        ensures { result ≡ is_repeated self.now.step.state }
    {
        matches!(self.step.state, StepState::Repeated)
    }

    pub fn is_done(&self) -> bool
        ensures { result ≡ is_done self.now.step.state }
    {
        matches!(self.step.state, StepState::Done)
    }
}

impl Row for StepRow {
    ghost use Rattle.clr_rules.specs.StepKey.{same_step_key, step_key, step_key_cmp};
    ghost use Rattle.clr_rules.specs.StepKey.{step_key_cmp_total};
    ghost use Rattle.clr_rules.specs.Id.{id_cmp, id_cmp_total, same_id, same_id_ties_back};

    type Key = StepKey;

    type Group = ClearanceId;

    ghost key_of = { step_key };

    ghost key_cmp = { step_key_cmp };

    ghost group_of = { λ key. key.id };

    ghost group_cmp = { id_cmp };

    ghost is_in = { λ id row. same_id id row.id };

    fn key(&self) -> StepKey {
        StepKey {
            id: self.id,
            round: self.round,
            ordinal: self.ordinal,
        }
    }

    fn compare_key(&self, key: &StepKey) -> Ordering {
        let places = self
            .round
            .cmp(&key.round)
            .then(self.ordinal.cmp(&key.ordinal));
        self.id.cmp(&key.id).then(places)
    }

    fn group_of(key: &StepKey) -> ClearanceId {
        key.id
    }

    fn compare_group(&self, id: &ClearanceId) -> Ordering {
        self.id.cmp(id)
    }

    fn belongs_to(&self, id: &ClearanceId) -> bool {
        *id == self.id
    }

    ghost key_order = { step_key_cmp_total };

    ghost same_key = { same_step_key };

    ghost group_order = { id_cmp_total };

    ghost in_one_group = { λ id row. same_id_ties_back id row.id };
}
