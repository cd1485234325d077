//! The network as a page draws it, as JSON.
ghost use Rattle.std.specs.Prelude.{◌≡◌, [], IfOk, OnOk, string_bytes};
ghost use Rattle.json.specs.Print.{print};
ghost use Rattle.clr_text.specs.Json.{list_data};
ghost use Rattle.clr_rules.specs.Live.{is_live};
ghost use Rattle.clr_rules.specs.States.{hand_of, position_of};
ghost use Rattle.clr_view.specs.Tokens.{Adds, data_tokens, member_tokens};
ghost use Rattle.clr_view.specs.View.{holders_data, network_data, network_text, point_data};
ghost use Rattle.clr_view.specs.View.{employee_data, section_data};

use crate::live::{live_marks, section_mark};
use crate::values::{
    begin, begin_list, end, end_list, push_clearance_or_null, push_flag, push_holders, push_name,
    push_position_or_null, push_staff,
};
use clr_book::Book;
use clr_net::{Name, PointRow, Position, SectionRow};
use clr_rules::{ClearanceId, Hold, HoldGroup, PointState, Record, StepRow};
use clr_shelf::Shelf;
use json::Writer;
use std::alloc::{AllocError, Global};
use std::marker::Model;

/// What a page draws, as one JSON object without blanks and without a line feed: each switching
/// point with its ends, its position, whose order is at work on it and what holds it; each section
/// with what holds it, and whether it is live; and the staff. Each list is in the order of names,
/// each object's keys in the order of their bytes.
pub fn network_text<P, C, T, H>(
    alloc: Global,
    book: &Book<P, C, T, H>,
) -> Result<String, AllocError>
where
    P: Shelf<PointState>,
    C: Shelf<Record>,
    T: Shelf<StepRow>,
    H: Shelf<Hold>,
    ensures { IfOk result (λ text. string_bytes text ≡ network_text book.now.register) }
{
    let drawing = Drawing {
        alloc,
        book,
        live: live_marks(alloc, book)?,
    };
    let mut out = Writer::new(Vec::new(alloc));
    drawing.push_network(&mut out)?;
    Ok(text_of(out))
}

/// The text of what was written.
fn text_of(out: Writer) -> String
    requires { out.before ≡ [] }
    ensures { string_bytes result ≡ print out.tokens }
{
    let Ok(text) = String::from_utf8(out.into_inner()) else {
        unreachable!()
    };
    text
}

/// A book that is drawn, with the marks of its live sections. A contract sees its register.
#[derive(Drop)]
struct Drawing<'a, P: Shelf<PointState>, C: Shelf<Record>, T: Shelf<StepRow>, H: Shelf<Hold>> {
    alloc: Global,
    book: &'a Book<P, C, T, H>,
    live: Vec<bool>,
}

impl<'a, P: Shelf<PointState>, C: Shelf<Record>, T: Shelf<StepRow>, H: Shelf<Hold>> Model
    for Drawing<'a, P, C, T, H> {
    ghost use Rattle.clr_rules.specs.Live.{is_live};
    ghost use Rattle.clr_rules.specs.Register.{Register};
    ghost use Rattle.clr_view.specs.Live.{AreMarksOf};

    ghost Value = { Register };

    ghost view = { λ d. d.book.now.register };

    ghost invariant = { λ d. AreMarksOf
        (is_live d.book.now.register.net d.book.now.register.states)
        d.book.now.register.net.sections d.live.items };
}

impl<'a, P: Shelf<PointState>, C: Shelf<Record>, T: Shelf<StepRow>, H: Shelf<Hold>> Drawing<
    'a,
    P,
    C,
    T,
    H,
> {
    fn push_network(&self, out: &mut Writer) -> Result<(), AllocError>
        ensures { OnOk result (Adds (data_tokens (network_data self.now)) out.old out.new) }
    {
        begin(out)?;
        self.push_points(out, "points")?;
        self.push_sections(out, "sections")?;
        self.push_staff(out, "staff")?;
        end(out)
    }

    fn push_points(&self, out: &mut Writer, key: &str) -> Result<(), AllocError>
        ensures { OnOk result (Adds (member_tokens key.now
            (list_data (point_data self.now) self.now.net.points)) out.old out.new) }
    {
        let network = self.book.network();
        self.push_point_list(out, key, network.points())
    }

    fn push_sections(&self, out: &mut Writer, key: &str) -> Result<(), AllocError>
        ensures { OnOk result (Adds (member_tokens key.now
            (list_data (section_data self.now) self.now.net.sections)) out.old out.new) }
    {
        let network = self.book.network();
        self.push_section_list(out, key, network.sections())
    }

    fn push_staff(&self, out: &mut Writer, key: &str) -> Result<(), AllocError>
        ensures { OnOk result (Adds (member_tokens key.now
            (list_data employee_data self.now.staff)) out.old out.new) }
    {
        let staff = self.book.staff();
        push_staff(out, key, staff.rows())
    }

    fn push_point_list(
        &self,
        out: &mut Writer,
        key: &str,
        points: &[PointRow],
    ) -> Result<(), AllocError>
        ensures { OnOk result (Adds (member_tokens key.now
            (list_data (point_data self.now) points.now)) out.old out.new) }
    {
        begin_list(out, key)?;
        for point in points {
            self.push_point(out, point)?;
        }
        end_list(out)
    }

    fn push_section_list(
        &self,
        out: &mut Writer,
        key: &str,
        sections: &[SectionRow],
    ) -> Result<(), AllocError>
        ensures { OnOk result (Adds (member_tokens key.now
            (list_data (section_data self.now) sections.now)) out.old out.new) }
    {
        begin_list(out, key)?;
        for section in sections {
            self.push_section(out, section)?;
        }
        end_list(out)
    }

    fn push_point(&self, out: &mut Writer, point: &PointRow) -> Result<(), AllocError>
        ensures { OnOk result
            (Adds (data_tokens (point_data self.now point.now)) out.old out.new) }
    {
        begin(out)?;
        push_name(out, "from", &point.from_end)?;
        push_clearance_or_null(self.alloc, out, "hand", self.hand(&point.name))?;
        self.push_holders(out, "holds", HoldGroup::AtPoint(point.name))?;
        push_flag(out, "jumper", point.jumper)?;
        push_flag(out, "lockable", point.lockable)?;
        push_name(out, "point", &point.name)?;
        push_position_or_null(out, "position", self.position(&point.name))?;
        push_flag(out, "remote", point.remote)?;
        push_name(out, "to", &point.to_end)?;
        end(out)
    }

    fn push_section(&self, out: &mut Writer, section: &SectionRow) -> Result<(), AllocError>
        ensures { OnOk result
            (Adds (data_tokens (section_data self.now section.now)) out.old out.new) }
    {
        begin(out)?;
        self.push_holders(out, "holds", HoldGroup::AtSection(section.name))?;
        push_flag(out, "live", self.is_live(&section.name))?;
        push_name(out, "section", &section.name)?;
        push_flag(out, "source", section.source)?;
        end(out)
    }

    fn is_live(&self, section: &Name) -> bool
        ensures { result ≡ is_live self.now.net self.now.states section.now }
    {
        let network = self.book.network();
        section_mark(network.sections(), &self.live, section)
    }

    fn hand(&self, point: &Name) -> Option<ClearanceId>
        ensures { result ≡ hand_of self.now.states point.now }
    {
        match self.book.state(point) {
            Some(state) => state.hand,
            None => None,
        }
    }

    fn position(&self, point: &Name) -> Option<Position>
        ensures { result ≡ position_of self.now.states point.now }
    {
        match self.book.state(point) {
            Some(state) => Some(state.position),
            None => None,
        }
    }

    fn push_holders(&self, out: &mut Writer, key: &str, group: HoldGroup) -> Result<(), AllocError>
        ensures { OnOk result (Adds (member_tokens key.now
            (holders_data self.now.holds group)) out.old out.new) }
    {
        let (_, _, _, holds) = self.book.shelves();
        let rows = holds.group(&group)?;
        push_holders(self.alloc, out, key, &rows)
    }
}
