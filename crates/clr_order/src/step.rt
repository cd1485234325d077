//! A step of an order, and how far it has come.
ghost use Rattle.std.specs.Prelude.{◌≡◌, Some, map};
ghost use Rattle.std.specs.Fmt.{padded};
ghost use Rattle.clr_order.specs.Step.{actions_at, same_actions, state_named, state_text, task};

use crate::action::Action;
use clr_net::Name;
use std::fmt;

/// The most steps of an order.
pub(crate) const MAX_STEPS: usize = 256;

/// How far a step has come.
#[derive(Clone, Copy, Debug, PartialEq, Eq)]
pub enum StepState {
    /// Nobody was told to do it.
    Waiting,
    /// The operator has given it out.
    Instructed,
    /// Its reader has repeated it back.
    Repeated,
    /// It was reported as done.
    Done,
}

impl StepState {
    /// All states, in the order in which a step passes through them.
    const ALL: [StepState; 4] = [
        StepState::Waiting,
        StepState::Instructed,
        StepState::Repeated,
        StepState::Done,
    ];

    /// The state as a text.
    pub fn text(self) -> &'static str
        ensures { result.now ≡ state_text self }
    {
        match self {
            StepState::Waiting => "Waiting",
            StepState::Instructed => "Instructed",
            StepState::Repeated => "Repeated",
            StepState::Done => "Done",
        }
    }

    /// The state that a text names.
    pub fn named(text: &str) -> Option<StepState>
        ensures { result ≡ state_named text.now }
    {
        StepState::ALL
            .iter()
            .copied()
            .find(|state| state.text() == text)
    }
}

impl fmt::Display for StepState {
    ghost output = { λ state. Some (state_text state) };

    ghost styled_output = { λ state spec. Some (padded spec (state_text state)) };

    fn fmt<W: fmt::Write>(&self, f: &mut fmt::Formatter<W>) -> fmt::Result {
        f.pad(self.text())
    }
}

/// One step of an order: an action at a switching point.
#[derive(Clone, Copy, Debug, PartialEq, Eq)]
pub struct Step {
    pub action: Action,
    pub point: Name,
    pub state: StepState,
    /// Who repeated the step's text back last.
    pub reader: Option<Name>,
}

/// Whether the steps at a point do exactly these actions, in this order.
pub(crate) fn does_at(steps: &[Step], point: Name, actions: &[Action]) -> bool
    ensures { result ≡ same_actions (actions_at (map task steps.now) point) actions.now }
{
    let mut left = actions;
    for step in steps {
        if point == step.point {
            let Some((next, others)) = left.split_first() else {
                return false;
            };
            if step.action != *next {
                return false;
            }
            left = others;
        }
    }
    left.is_empty()
}
