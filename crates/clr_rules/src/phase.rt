//! The phases of a clearance.
ghost use Rattle.std.specs.Prelude.{◌≡◌, Some};
ghost use Rattle.std.specs.Fmt.{padded};
ghost use Rattle.clr_rules.specs.Phase.{phase_named, phase_text};
ghost use Rattle.clr_rules.specs.Records.{ends_with_steps, is_cancellable, is_fenced, is_granted};
ghost use Rattle.clr_rules.specs.Records.{is_ordered, is_released, is_requested, is_restoring};
ghost use Rattle.clr_rules.specs.Records.{is_running, is_transferable};

use std::fmt;

/// Where a clearance is in its life.
///
/// A clearance on a work section goes from `Requested` to `Ordered`, `Granted`, `Released`,
/// `Restoring` and `Closed`, the steps of 29 CFR 1910.269(m)(3) in their order; one that is
/// cancelled goes from `Ordered` to `Released`, or at once to `Closed` where it holds nothing, as
/// one that is cancelled while it is `Requested` does. A switch order is `Switching` until it is
/// `Closed`.
#[derive(Clone, Copy, Debug, PartialEq, Eq)]
pub enum Phase {
    /// The employee in charge has asked for the section: (m)(3)(i).
    Requested,
    /// The isolating steps are written and being done: (m)(3)(ii), (iii).
    Ordered,
    /// The operator has given the clearance: tests, grounds and work, (m)(3)(vi) to (viii).
    Granted,
    /// The employee in charge has given it back: (m)(3)(x), (xi).
    Released,
    /// The restoring steps are written and being done: (m)(3)(xii), (xiii).
    Restoring,
    /// A switch order whose steps are being done. It holds nothing: the project's own.
    Switching,
    /// Nothing is left to do, and nothing is held.
    Closed,
}

impl Phase {
    /// All phases, in the order in which they are declared.
    const ALL: [Phase; 7] = [
        Phase::Requested,
        Phase::Ordered,
        Phase::Granted,
        Phase::Released,
        Phase::Restoring,
        Phase::Switching,
        Phase::Closed,
    ];

    /// The phase as a text.
    pub fn text(self) -> &'static str
        ensures { result.now ≡ phase_text self }
    {
        match self {
            Phase::Requested => "Requested",
            Phase::Ordered => "Ordered",
            Phase::Granted => "Granted",
            Phase::Released => "Released",
            Phase::Restoring => "Restoring",
            Phase::Switching => "Switching",
            Phase::Closed => "Closed",
        }
    }

    /// The phase that a text names.
    pub fn named(text: &str) -> Option<Phase>
        ensures { result ≡ phase_named text.now }
    {
        Phase::ALL
            .iter()
            .copied()
            .find(|phase| phase.text() == text)
    }

    pub fn is_requested(self) -> bool
        ensures { result ≡ is_requested self }
    {
        matches!(self, Phase::Requested)
    }

    pub fn is_ordered(self) -> bool
        ensures { result ≡ is_ordered self }
    {
        matches!(self, Phase::Ordered)
    }

    pub fn is_granted(self) -> bool
        ensures { result ≡ is_granted self }
    {
        matches!(self, Phase::Granted)
    }

    pub fn is_released(self) -> bool
        ensures { result ≡ is_released self }
    {
        matches!(self, Phase::Released)
    }

    pub fn is_restoring(self) -> bool
        ensures { result ≡ is_restoring self }
    {
        matches!(self, Phase::Restoring)
    }

    /// Whether steps are given out, repeated and reported.
    pub fn is_running(self) -> bool
        ensures { result ≡ is_running self }
    {
        matches!(self, Phase::Ordered | Phase::Restoring | Phase::Switching)
    }

    /// Whether a clearance on a work section has a fence.
    pub fn is_fenced(self) -> bool
        ensures { result ≡ is_fenced self }
    {
        !matches!(self, Phase::Requested | Phase::Closed)
    }

    /// Whether the phase ends with the last step of its order.
    pub fn ends_with_steps(self) -> bool
        ensures { result ≡ ends_with_steps self }
    {
        matches!(self, Phase::Restoring | Phase::Switching)
    }

    /// Whether the holder may hand the clearance on: it is asked for, and not yet released.
    pub fn is_transferable(self) -> bool
        ensures { result ≡ is_transferable self }
    {
        matches!(self, Phase::Requested | Phase::Ordered | Phase::Granted)
    }

    /// Whether the holder may give it up: it was not granted.
    pub fn is_cancellable(self) -> bool
        ensures { result ≡ is_cancellable self }
    {
        matches!(self, Phase::Requested | Phase::Ordered | Phase::Switching)
    }
}

impl fmt::Display for Phase {
    ghost output = { λ phase. Some (phase_text phase) };

    ghost styled_output = { λ phase spec. Some (padded spec (phase_text phase)) };

    fn fmt<W: fmt::Write>(&self, f: &mut fmt::Formatter<W>) -> fmt::Result {
        f.pad(self.text())
    }
}
