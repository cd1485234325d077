//! Why a command is refused.
ghost use Rattle.std.specs.Prelude.{◌≡◌};
ghost use Rattle.clr_rules.specs.Refusal.{number_of, refusal_name};

use crate::clearance_id::ClearanceId;
use crate::hold_kind::HoldKind;
use clr_net::Name;

/// Why a command is refused. A refusal changes nothing.
///
/// Their numbers count from 1. Which of them a command asks about, and in which order, is said with
/// the command.
#[derive(Clone, Copy, Debug, PartialEq, Eq)]
pub enum Refusal {
    /// The caller is not in the staff.
    UnknownCaller,
    /// The caller's role is not the one that the command asks for.
    WrongRole,
    /// The network has no such section.
    UnknownSection,
    /// The caller has made a clearance of the greatest number, 9,999.
    TooManyClearances,
    /// The register has no record of this clearance.
    UnknownClearance,
    /// The caller is not the holder: 29 CFR 1910.269(m)(3)(ix) to (xi). A transfer that is named an
    /// emergency is open to the holder's supervisor too.
    NotHolder,
    /// The command's moment is before the record's last.
    Earlier,
    /// The clearance's phase is not one in which the command may be given.
    WrongPhase,
    /// An isolating order has no points, or a restoring or switching one no steps.
    EmptyOrder,
    /// The order has more than 64 points or more than 256 steps.
    LongOrder,
    /// A point comes twice among the points.
    PointTwice,
    /// A source lies inside the fence, of which this is the least in the order of names:
    /// (m)(3)(ii).
    SourceInside(Name),
    /// The first of the points that is not on the border of the fence: it is unknown, elsewhere or
    /// inside.
    NotOnFence(Name),
    /// The first point whose steps are not those that it has to have, otherwise the point of the
    /// first step elsewhere; of a switch order the point of the first step that neither opens nor
    /// closes: (m)(3)(ii), (iii), (xii), (xiii).
    StepsWrong(Name),
    /// The point of the first step whose point the network lacks, in a switch order alone.
    UnknownPoint(Name),
    /// The present round has no step of this number.
    NoStep,
    /// An earlier step of the round is not done: (m)(2)(i).
    OutOfTurn,
    /// The step is not in the state that the command asks for, a cancel finds one given out and not
    /// yet reported, or the step to amend is no Close.
    StepState,
    /// Another clearance has the point in hand: this one.
    InHand(ClearanceId),
    /// The point is to be closed, and bears a hold that forbids it: (m)(3)(v), (xiii). The least
    /// clearance, then the first kind in the kinds' own order.
    Held(ClearanceId, HoldKind),
    /// The text is not the step's.
    RepeatDiffers,
    /// The caller is not the one who repeated the step last.
    WrongReporter,
    /// An isolating step is not done: (m)(3)(vi).
    StepsLeft,
    /// The section is not in the clearance's fence, or unknown.
    OutsideFence,
    /// The clearance has not tested the section and found it dead: (m)(3)(vi), (n)(5).
    NotTested,
    /// The clearance's ground is on: there, or anywhere where it is released, (m)(3)(x), (xi).
    Grounded,
    /// The clearance's ground is not on there: (m)(3)(vii), (viii).
    NotGrounded,
    /// A crew is signed on: (m)(3)(x), (xi). A ground may be taken all the same, but not that of
    /// the work section.
    CrewsOn,
    /// The crew is on already, or is not on.
    CrewState,
    /// The new holder is unknown, may not be in charge, or is the holder already.
    BadTransfer,
    /// It is not attested that all employees are notified and clear: (m)(3)(x), (xi).
    NotAttested,
    /// The network has a point of this name.
    PointExists,
    /// Exactly one end of the point would lie in the fence of this clearance, the least:
    /// (m)(3)(ii). A new section lies in no fence.
    CrossesFence(ClearanceId),
    /// With the point there would be more than 10,000 points, or with the section more than 5,000
    /// sections.
    NetworkFull,
    /// Both ends of the point are one section.
    SameEnds,
}

impl Refusal {
    /// The refusal's number; they count from 1.
    pub fn number(self) -> u8
        ensures { result ≡ number_of self }
    {
        match self {
            Refusal::UnknownCaller => 1,
            Refusal::WrongRole => 2,
            Refusal::UnknownSection => 3,
            Refusal::TooManyClearances => 4,
            Refusal::UnknownClearance => 5,
            Refusal::NotHolder => 6,
            Refusal::Earlier => 7,
            Refusal::WrongPhase => 8,
            Refusal::EmptyOrder => 9,
            Refusal::LongOrder => 10,
            Refusal::PointTwice => 11,
            Refusal::SourceInside(_) => 12,
            Refusal::NotOnFence(_) => 13,
            Refusal::StepsWrong(_) => 14,
            Refusal::UnknownPoint(_) => 15,
            Refusal::NoStep => 16,
            Refusal::OutOfTurn => 17,
            Refusal::StepState => 18,
            Refusal::InHand(_) => 19,
            Refusal::Held(_, _) => 20,
            Refusal::RepeatDiffers => 21,
            Refusal::WrongReporter => 22,
            Refusal::StepsLeft => 23,
            Refusal::OutsideFence => 24,
            Refusal::NotTested => 25,
            Refusal::Grounded => 26,
            Refusal::NotGrounded => 27,
            Refusal::CrewsOn => 28,
            Refusal::CrewState => 29,
            Refusal::BadTransfer => 30,
            Refusal::NotAttested => 31,
            Refusal::PointExists => 32,
            Refusal::CrossesFence(_) => 33,
            Refusal::NetworkFull => 34,
            Refusal::SameEnds => 35,
        }
    }

    /// The refusal's name, in capitals.
    pub fn name(self) -> &'static str
        ensures { result.now ≡ refusal_name self }
    {
        match self {
            Refusal::UnknownCaller => "UNKNOWN_CALLER",
            Refusal::WrongRole => "WRONG_ROLE",
            Refusal::UnknownSection => "UNKNOWN_SECTION",
            Refusal::TooManyClearances => "TOO_MANY_CLEARANCES",
            Refusal::UnknownClearance => "UNKNOWN_CLEARANCE",
            Refusal::NotHolder => "NOT_HOLDER",
            Refusal::Earlier => "EARLIER",
            Refusal::WrongPhase => "WRONG_PHASE",
            Refusal::EmptyOrder => "EMPTY_ORDER",
            Refusal::LongOrder => "LONG_ORDER",
            Refusal::PointTwice => "POINT_TWICE",
            Refusal::SourceInside(_) => "SOURCE_INSIDE",
            Refusal::NotOnFence(_) => "NOT_ON_FENCE",
            Refusal::StepsWrong(_) => "STEPS_WRONG",
            Refusal::UnknownPoint(_) => "UNKNOWN_POINT",
            Refusal::NoStep => "NO_STEP",
            Refusal::OutOfTurn => "OUT_OF_TURN",
            Refusal::StepState => "STEP_STATE",
            Refusal::InHand(_) => "IN_HAND",
            Refusal::Held(_, _) => "HELD",
            Refusal::RepeatDiffers => "REPEAT_DIFFERS",
            Refusal::WrongReporter => "WRONG_REPORTER",
            Refusal::StepsLeft => "STEPS_LEFT",
            Refusal::OutsideFence => "OUTSIDE_FENCE",
            Refusal::NotTested => "NOT_TESTED",
            Refusal::Grounded => "GROUNDED",
            Refusal::NotGrounded => "NOT_GROUNDED",
            Refusal::CrewsOn => "CREWS_ON",
            Refusal::CrewState => "CREW_STATE",
            Refusal::BadTransfer => "BAD_TRANSFER",
            Refusal::NotAttested => "NOT_ATTESTED",
            Refusal::PointExists => "POINT_EXISTS",
            Refusal::CrossesFence(_) => "CROSSES_FENCE",
            Refusal::NetworkFull => "NETWORK_FULL",
            Refusal::SameEnds => "SAME_ENDS",
        }
    }
}
