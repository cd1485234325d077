//! The texts of steps: what is read to the field, and repeated back.
ghost use Rattle.std.specs.Prelude.{◌≡◌, IfOk, string_bytes};
ghost use Rattle.std.specs.List.{after_first, before_first};
ghost use Rattle.clr_order.specs.Step.{task};
ghost use Rattle.clr_order.specs.Texts.{is_blank, read_step_text, step_fault, step_text};

use crate::action::Action;
use crate::step::{Step, StepState};
use clr_net::{Name, NameFault};
use std::alloc::{AllocError, Global};
use thiserror::Error;

/// Why a text is no step.
#[derive(Clone, Copy, Debug, PartialEq, Eq, Error)]
pub enum StepFault {
    /// The text up to the first blank is no action in capitals.
    #[error("the text does not begin with an action")]
    BadAction,
    /// What follows the first blank is no name.
    #[error("the action is not followed by one blank and the name of a point")]
    BadPoint,
    /// Memory ran out. A step is stored in place, so no call answers this today.
    #[error("out of memory")]
    NoMemory,
}

/// The text of a step: its action in capitals, one blank, its point, as `OPEN S2`.
pub fn step_text(alloc: Global, step: &Step) -> Result<String, AllocError>
    ensures { IfOk result (λ text. string_bytes text ≡ step_text (task step.now)) }
{
    let action = step.action;
    let point = step.point;
    format!(in alloc; "{action} {point}")
}

/// Reads the text of a step, as one that waits and has no reader.
pub fn read_step_text(text: &str) -> Result<Step, StepFault>
    ensures { result ≡ read_step_text text.now }
{
    let (word, name) = halves(text);
    let Some(action) = Action::named(word) else {
        return Err(StepFault::BadAction);
    };
    match Name::read(name) {
        Ok(point) => Ok(Step {
            action,
            point,
            state: StepState::Waiting,
            reader: None,
        }),
        Err(fault) => Err(step_fault(fault)),
    }
}

/// What comes before the first blank and what comes after it; where there is none, the text and
/// nothing.
fn halves(text: &str) -> (&str, &str)
    ensures word { result.0.now ≡ before_first is_blank text.now }
    ensures name { result.1.now ≡ after_first is_blank text.now }
{
    match text.split_once(' ') {
        Some(parts) => parts,
        None => (text, ""),
    }
}

/// The fault of a step whose point's name has this fault.
fn step_fault(fault: NameFault) -> StepFault
    ensures { result ≡ step_fault fault }
{
    match fault {
        NameFault::NoMemory => StepFault::NoMemory,
        NameFault::Empty | NameFault::TooLong | NameFault::BadByte(_) => StepFault::BadPoint,
    }
}
