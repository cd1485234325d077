//! The state of a switching point: its position, and whose order is at work on it.
ghost use Rattle.std.proofs.lemmas.Cmp.{nat_list_cmp_total};
ghost use Rattle.clr_net.specs.Name.{name_cmp, same_name};
ghost use Rattle.clr_rules.specs.Id.{same_name_ties_back};
ghost use Rattle.clr_shelf.proofs.Keys.{same_text};

use crate::clearance_id::ClearanceId;
use clr_net::{Name, Position};
use clr_shelf::Row;
use std::cmp::Ordering;

/// The state of a switching point, as it was last reported.
///
/// Its key and its group are the point.
#[derive(Clone, Copy, Debug, PartialEq, Eq)]
pub struct PointState {
    pub point: Name,
    pub position: Position,
    /// The clearance of which a step at this point is instructed or repeated and not yet reported.
    /// While it has the point in hand no other is instructed there: the project's own.
    pub hand: Option<ClearanceId>,
}

impl Row for PointState {
    type Key = Name;

    type Group = Name;

    ghost key_of = { λ row. row.point };

    ghost key_cmp = { name_cmp };

    ghost group_of = { λ point. point };

    ghost group_cmp = { name_cmp };

    ghost is_in = { λ point row. same_name point row.point };

    fn key(&self) -> Name {
        self.point
    }

    fn compare_key(&self, point: &Name) -> Ordering {
        self.point.cmp(point)
    }

    fn group_of(point: &Name) -> Name {
        *point
    }

    fn compare_group(&self, point: &Name) -> Ordering {
        self.point.cmp(point)
    }

    fn belongs_to(&self, point: &Name) -> bool {
        *point == self.point
    }

    ghost key_order = { nat_list_cmp_total };

    ghost same_key = { same_text };

    ghost group_order = { nat_list_cmp_total };

    ghost in_one_group = { λ point row. same_name_ties_back point row.point };
}
