//! The record of a clearance.
ghost use Rattle.std.specs.Prelude.{◌≡◌};
ghost use Rattle.std.proofs.lemmas.Cmp.{nat_list_cmp_total};
ghost use Rattle.clr_net.specs.Name.{name_cmp, same_name};
ghost use Rattle.clr_rules.specs.Id.{id_cmp, id_cmp_total, same_id_from_tie, same_name_ties_back};
ghost use Rattle.clr_rules.specs.Records.{is_switch_order};

use crate::clearance_id::ClearanceId;
use crate::moment::Moment;
use crate::phase::Phase;
use clr_net::Name;
use clr_shelf::Row;
use std::cmp::Ordering;

/// What the register keeps of a clearance or a switch order. Records are never deleted.
///
/// Its key is its id, and its group is its requester.
#[derive(Clone, Copy, Debug, PartialEq, Eq)]
pub struct Record {
    pub id: ClearanceId,
    /// The employee in charge, of a switch order its operator: 29 CFR 1910.269(m)(2)(i), (3)(ix).
    pub holder: Name,
    /// The section to be worked on. A switch order has none.
    pub work: Option<Name>,
    pub phase: Phase,
    /// The moment of the last command that was accepted about it, `show` aside.
    pub last: Moment,
}

impl Record {
    /// Whether it is a switch order's.
    pub fn is_switch_order(&self) -> bool
        ensures { result ≡ is_switch_order self.now }
    {
        self.work.is_none()
    }
}

impl Row for Record {
    type Key = ClearanceId;

    type Group = Name;

    ghost key_of = { λ row. row.id };

    ghost key_cmp = { id_cmp };

    ghost group_of = { λ id. id.requester };

    ghost group_cmp = { name_cmp };

    ghost is_in = { λ requester row. same_name requester row.id.requester };

    fn key(&self) -> ClearanceId {
        self.id
    }

    fn compare_key(&self, id: &ClearanceId) -> Ordering {
        self.id.cmp(id)
    }

    fn group_of(id: &ClearanceId) -> Name {
        id.requester()
    }

    fn compare_group(&self, requester: &Name) -> Ordering {
        self.id.requester().cmp(requester)
    }

    fn belongs_to(&self, requester: &Name) -> bool {
        *requester == self.id.requester()
    }

    ghost key_order = { id_cmp_total };

    ghost same_key = { same_id_from_tie };

    ghost group_order = { nat_list_cmp_total };

    ghost in_one_group = { λ requester row. same_name_ties_back requester row.id.requester };
}
