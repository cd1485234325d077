//! The kinds of holds, their texts and their two orders.
ghost use Rattle.std.specs.Prelude.{◌≡◌, Some};
ghost use Rattle.std.specs.Fmt.{padded};
ghost use Rattle.clr_rules.specs.HoldKind.{hold_kind_named, hold_kind_text, is_crew, is_point_kind};
ghost use Rattle.clr_rules.specs.HoldKind.{is_section_kind, kind_cmp, kind_place, kind_text_cmp};

use std::cmp::Ordering;
use std::fmt;

/// What a clearance may hold, and where.
///
/// The kinds have two orders, and so no `<`. Their own, in which they are declared here, is that of
/// views and of the refusal that names a hold. That of their texts is that of keys: Block, Control,
/// Crew, Ground, HeldOpen, Tag, Tested.
#[derive(Clone, Copy, Debug, PartialEq, Eq)]
pub enum HoldKind {
    /// A switching point is open for the clearance: 29 CFR 1910.269(m)(3)(ii).
    HeldOpen,
    /// A switching point was made inoperable: (m)(3)(ii).
    Block,
    /// The control of a switching point was tagged and made inoperable: (m)(3)(iii).
    Control,
    /// A switching point is tagged: (m)(3)(ii), (v).
    Tag,
    /// A section was tested and is dead: (m)(3)(vi).
    Tested,
    /// A section bears a protective ground: (m)(3)(vii), (n)(5).
    Ground,
    /// A crew is signed on to the clearance: (m)(2)(iv).
    Crew,
}

impl HoldKind {
    /// All kinds, in their own order.
    const ALL: [HoldKind; 7] = [
        HoldKind::HeldOpen,
        HoldKind::Block,
        HoldKind::Control,
        HoldKind::Tag,
        HoldKind::Tested,
        HoldKind::Ground,
        HoldKind::Crew,
    ];

    /// The kind that a text names.
    pub fn named(text: &str) -> Option<HoldKind>
        ensures { result ≡ hold_kind_named text.now }
    {
        HoldKind::ALL
            .iter()
            .copied()
            .find(|kind| kind.text() == text)
    }

    /// The kind as a text.
    pub fn text(self) -> &'static str
        ensures { result.now ≡ hold_kind_text self }
    {
        match self {
            HoldKind::HeldOpen => "HeldOpen",
            HoldKind::Block => "Block",
            HoldKind::Control => "Control",
            HoldKind::Tag => "Tag",
            HoldKind::Tested => "Tested",
            HoldKind::Ground => "Ground",
            HoldKind::Crew => "Crew",
        }
    }

    /// Where the kind is among the kinds as they are declared, counted from 0.
    fn place(self) -> u8
        ensures { result ≡ kind_place self }
    {
        match self {
            HoldKind::HeldOpen => 0,
            HoldKind::Block => 1,
            HoldKind::Control => 2,
            HoldKind::Tag => 3,
            HoldKind::Tested => 4,
            HoldKind::Ground => 5,
            HoldKind::Crew => 6,
        }
    }

    /// How the kind compares to another in their own order, which is that of views.
    pub fn compare_own(self, other: HoldKind) -> Ordering
        ensures { result ≡ kind_cmp self other }
    {
        self.place().cmp(&other.place())
    }

    /// How the kind compares to another in the order of their texts, which is that of keys.
    pub fn compare_text(self, other: HoldKind) -> Ordering
        ensures { result ≡ kind_text_cmp self other }
    {
        self.text().as_bytes().cmp(other.text().as_bytes())
    }

    /// Whether it is at a switching point, where it keeps the point from being closed.
    pub fn stands_at_point(self) -> bool
        ensures { result ≡ is_point_kind self }
    {
        match self {
            HoldKind::HeldOpen | HoldKind::Block | HoldKind::Control | HoldKind::Tag => true,
            HoldKind::Tested | HoldKind::Ground | HoldKind::Crew => false,
        }
    }

    /// Whether it is at a section.
    pub fn stands_at_section(self) -> bool
        ensures { result ≡ is_section_kind self }
    {
        match self {
            HoldKind::Tested | HoldKind::Ground => true,
            HoldKind::HeldOpen
            | HoldKind::Block
            | HoldKind::Control
            | HoldKind::Tag
            | HoldKind::Crew => false,
        }
    }

    /// Whether it is a crew's, which is at neither.
    pub fn is_crew(self) -> bool
        ensures { result ≡ is_crew self }
    {
        matches!(self, HoldKind::Crew)
    }
}

impl fmt::Display for HoldKind {
    ghost output = { λ kind. Some (hold_kind_text kind) };

    ghost styled_output = { λ kind spec. Some (padded spec (hold_kind_text kind)) };

    fn fmt<W: fmt::Write>(&self, f: &mut fmt::Formatter<W>) -> fmt::Result {
        f.pad(self.text())
    }
}
