//! Holds: what is at a point or a section for a clearance, and which crews are signed on to it.
use crate::clearance_id::ClearanceId;
use crate::hold_kind::HoldKind;
use clr_net::Name;
use clr_shelf::Row;
use std::cmp::Ordering;

/// What a clearance holds at a place. It holds one of a kind at a place.
///
/// It is its own key: holds are in the order of their kinds' texts, then the place, then the
/// clearance. Its group is its place.
#[derive(Clone, Copy, Debug, PartialEq, Eq)]
pub struct Hold {
    pub kind: HoldKind,
    /// A switching point, a section or a crew, by the kind; these are named apart from each other.
    pub place: Name,
    pub id: ClearanceId,
}

/// Where holds are: at a switching point, at a section, or, of a clearance's crews, at neither.
#[derive(Clone, Copy, Debug, PartialEq, Eq)]
pub enum HoldGroup {
    /// The holds of any clearance at this switching point.
    AtPoint(Name),
    /// The holds of any clearance at this section.
    AtSection(Name),
    /// The crews that are signed on to this clearance.
    CrewsOf(ClearanceId),
}

impl HoldGroup {
    ghost use Rattle.std.specs.Prelude.{◌≡◌};
    ghost use Rattle.clr_rules.specs.Hold.{group_name, group_number, group_rank, hold_group_cmp};

    /// What groups are distinguished by, in the order in which it is compared.
    fn parts(&self) -> (u8, Name, u16)
        ensures rank { result.0 ≡ group_rank self.now }
        ensures name { result.1 ≡ group_name self.now }
        ensures number { result.2 ≡ group_number self.now }
    {
        match self {
            HoldGroup::AtPoint(point) => (0, *point, 0),
            HoldGroup::AtSection(section) => (1, *section, 0),
            HoldGroup::CrewsOf(id) => (2, id.requester(), id.number()),
        }
    }

    /// How the group compares to another: points, sections, crews; of each by name.
    fn compare(&self, other: &HoldGroup) -> Ordering
        ensures { result ≡ hold_group_cmp self.now other.now }
    {
        let (rank, name, number) = self.parts();
        let (other_rank, other_name, other_number) = other.parts();
        let rest = name.cmp(&other_name).then(number.cmp(&other_number));
        rank.cmp(&other_rank).then(rest)
    }
}

impl Row for Hold {
    ghost use Rattle.clr_rules.specs.Hold.{hold_cmp, hold_cmp_total, hold_group, hold_group_cmp};
    ghost use Rattle.clr_rules.specs.Hold.{hold_group_cmp_total, in_hold_group, is_in_hold_group};
    ghost use Rattle.clr_rules.specs.Hold.{same_hold};

    type Key = Hold;

    type Group = HoldGroup;

    ghost key_of = { λ hold. hold };

    ghost key_cmp = { hold_cmp };

    ghost group_of = { hold_group };

    ghost group_cmp = { hold_group_cmp };

    ghost is_in = { is_in_hold_group };

    fn key(&self) -> Hold {
        *self
    }

    fn compare_key(&self, key: &Hold) -> Ordering {
        let rest = self.place.cmp(&key.place).then(self.id.cmp(&key.id));
        self.kind.compare_text(key.kind).then(rest)
    }

    fn group_of(hold: &Hold) -> HoldGroup {
        if hold.kind.stands_at_point() {
            HoldGroup::AtPoint(hold.place)
        } else if hold.kind.stands_at_section() {
            HoldGroup::AtSection(hold.place)
        } else {
            HoldGroup::CrewsOf(hold.id)
        }
    }

    fn compare_group(&self, group: &HoldGroup) -> Ordering {
        Hold::group_of(self).compare(group)
    }

    fn belongs_to(&self, group: &HoldGroup) -> bool {
        match group {
            HoldGroup::AtPoint(point) => self.kind.stands_at_point() && *point == self.place,
            HoldGroup::AtSection(section) => self.kind.stands_at_section()
                && *section == self.place,
            HoldGroup::CrewsOf(id) => self.kind.is_crew() && *id == self.id,
        }
    }

    ghost key_order = { hold_cmp_total };

    ghost same_key = { same_hold };

    ghost group_order = { hold_group_cmp_total };

    ghost in_one_group = { in_hold_group };
}
