//! Replies: what a command is answered.
use crate::clearance_id::ClearanceId;
use crate::items::{Holds, Names, PointStates, Steps};
use crate::phase::Phase;
use crate::refusal::Refusal;
use clr_net::Name;

/// The answer to a command.
#[derive(Debug, PartialEq, Drop)]
pub enum Reply {
    /// The command was carried out. The card is as it is after it.
    Accepted(Card),
    /// The clearance was to be shown.
    Shown(View),
    /// The first check that applied. Nothing was changed.
    Refused(Refusal),
    /// The network has this point now, open and in nobody's hand.
    Added(Name),
}

/// The state of a clearance, in short.
#[derive(Clone, Copy, Debug, PartialEq, Eq)]
pub struct Card {
    pub clearance: ClearanceId,
    pub phase: Phase,
    pub holder: Name,
    /// The present round: 0 without steps, 2 where there are restoring steps, otherwise 1.
    pub round: u8,
    /// How many steps of the present round are done.
    pub done: usize,
    /// How many steps the present round has.
    pub steps: usize,
}

/// The state of a clearance, and all that is at its fence.
#[derive(Debug, PartialEq, Drop)]
pub struct View {
    pub card: Card,
    /// The crews that are signed on, by name.
    pub crews: Names,
    /// The sections of the fence, by name. A requested or closed record and a switch order have
    /// none.
    pub fence: Names,
    /// The holds of any clearance at the fence's sections and at the points that touch it, in the
    /// order of the kinds themselves, then the place, then the clearance.
    pub holds: Holds,
    /// The points that touch the fence, by name.
    pub points: PointStates,
    /// The steps of the present round, in their order.
    pub steps: Steps,
    /// The section to be worked on. A switch order has none.
    pub work: Option<Name>,
}
