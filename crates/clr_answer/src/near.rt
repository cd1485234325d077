//! What a command looks at: rows of the book, and what is known of it beside them.
use clr_net::{Name, PointRow, SectionRow};
use clr_rules::{ClearanceId, Hold, PointState, Record, StepRow};
use clr_staff::Staff;
use std::alloc::Global;
use std::marker::Model;

/// What a decision is given: rows, each list in the order of its keys, and the greatest number of
/// the requester.
///
/// Every field but the allocator is in its view. A field that the view left out could give any
/// row, and no clause would show it; so each field that comes is to be there.
///
/// Numbers go up to 9,999, so that there is one more for a new clearance wherever the caller has
/// not used them all.
#[derive(Drop)]
pub struct Near<'a> {
    pub alloc: Global,
    /// The greatest number of the requester's clearances, 0 where there is none.
    pub greatest: u16,
    /// The sections of the clearance's fence, or of the fence that the order would make.
    pub fence: Vec<Name>,
    /// The least clearance whose fence a jumper would cross. Other commands cross none.
    pub crossed: Option<ClearanceId>,
    pub sections: Vec<&'a SectionRow>,
    pub points: Vec<&'a PointRow>,
    pub staff: &'a Staff,
    pub states: Vec<&'a PointState>,
    pub records: Vec<&'a Record>,
    pub steps: Vec<&'a StepRow>,
    pub holds: Vec<&'a Hold>,
}

impl<'a> Model for Near<'a> {
    ghost use Rattle.std.specs.Prelude.{◌≡◌, ◌≤◌, true, map};
    ghost use Rattle.std.specs.List.Sorted.{IsStrictlySortedBy};
    ghost use Rattle.clr_net.specs.Grid.{point_names, section_names, unplaced};
    ghost use Rattle.clr_net.specs.Name.{name_cmp};
    ghost use Rattle.clr_rules.specs.Hold.{hold_cmp};
    ghost use Rattle.clr_rules.specs.Holds.{hold_key};
    ghost use Rattle.clr_rules.specs.Id.{id_cmp};
    ghost use Rattle.clr_rules.specs.Near.{Near};
    ghost use Rattle.clr_rules.specs.Records.{record_key};
    ghost use Rattle.clr_rules.specs.States.{state_key};
    ghost use Rattle.clr_shelf.specs.Rows.{in_key_order};

    ghost Value = { Near };

    ghost view = { λ n. record {
      known = record { greatest = n.greatest; fence = n.fence.items; crossed = n.crossed };
      rows = record {
        net = record {
          sections = map (λ row. row.now) n.sections.items;
          points = map (λ row. unplaced row.now) n.points.items;
        };
        staff = n.staff.now;
        states = map (λ row. row.now) n.states.items;
        records = map (λ row. row.now) n.records.items;
        steps = map (λ row. row.now) n.steps.items;
        holds = map (λ row. row.now) n.holds.items;
      };
    } };

    ghost invariant = { λ n. (n.greatest ≤ 9999)
        × IsStrictlySortedBy name_cmp (section_names (map (λ row. row.now) n.sections.items))
        × IsStrictlySortedBy name_cmp (point_names (map (λ row. row.now) n.points.items))
        × IsStrictlySortedBy name_cmp n.fence.items
        × (in_key_order name_cmp state_key (map (λ row. row.now) n.states.items) ≡ true)
        × (in_key_order id_cmp record_key (map (λ row. row.now) n.records.items) ≡ true)
        × (in_key_order hold_cmp hold_key (map (λ row. row.now) n.holds.items) ≡ true) };
}
