//! Why a text is no command.
ghost use Rattle.std.specs.Prelude.{◌≡◌};
ghost use Rattle.clr_text.specs.declared.fault.TextFault.TheVariants.{NoMemory};

use crate::key::Key;
use std::alloc::{AllocError, AllocFailed};
use thiserror::Error;

/// Why a text is no command: the first of its faults, in the order in which they are declared, but
/// that a value of `do` that is no text comes before `UnknownCommand`, and that before
/// `UnknownKey`.
#[derive(Clone, Copy, Debug, PartialEq, Eq, Error)]
pub enum TextFault {
    /// The bytes are not UTF-8, or not one JSON value.
    #[error("the text is not one JSON value")]
    NotJson,
    /// The value is no object.
    #[error("the value is no object")]
    NotObject,
    /// The object has no value at `do`; or none at this key, the least of those that the command
    /// lacks.
    #[error("a key is missing")]
    MissingKey(Key),
    /// The object has a key that the command does not have.
    #[error("the command has no such key")]
    UnknownKey,
    /// The value at `do` is no text; or the value at this key, the least of those whose values do
    /// not fit.
    #[error("the value does not fit its key")]
    BadValue(Key),
    /// The text at `do` names no command.
    #[error("there is no such command")]
    UnknownCommand,
    /// Memory ran out.
    #[error("out of memory")]
    NoMemory,
}

impl From<AllocError> for TextFault {
    ghost from_gives = { λ _ fault. fault ≡ NoMemory };

    fn from(_error: AllocError) -> TextFault {
        TextFault::NoMemory
    }
}

impl<T: Drop> From<AllocFailed<T>> for TextFault {
    ghost from_gives = { λ _ fault. fault ≡ NoMemory };

    fn from(_error: AllocFailed<T>) -> TextFault {
        TextFault::NoMemory
    }
}
