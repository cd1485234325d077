//! The faults of texts as JSON.
ghost use Rattle.std.specs.Prelude.{◌≡◌, IfOk, string_bytes};
ghost use Rattle.serde_json.specs.View.{view};
ghost use Rattle.clr_text.specs.FaultText.{fault_data, fault_name, fault_text};

use crate::fault::TextFault;
use crate::objects::object_of_two;
use serde_json::{Value, json};
use std::alloc::{AllocError, Global};

/// The text of a fault: one JSON object without blanks and without a line feed, as
/// `{"fault":"BadValue","key":"at"}`. Those with a key name it.
pub fn fault_text(alloc: Global, fault: &TextFault) -> Result<String, AllocError>
    ensures { IfOk result (λ text. string_bytes text ≡ fault_text fault.now) }
{
    let value = fault_value(alloc, *fault)?;
    value.to_string(alloc)
}

fn fault_value(alloc: Global, fault: TextFault) -> Result<Value, AllocError>
    ensures { IfOk result (λ value. view value ≡ fault_data fault) }
{
    let name = fault_name(fault);
    match fault {
        TextFault::MissingKey(key) | TextFault::BadValue(key) => object_of_two(
            alloc,
            "fault",
            &name,
            "key",
            &key.text(),
        ),
        TextFault::NotJson
        | TextFault::NotObject
        | TextFault::UnknownKey
        | TextFault::UnknownCommand
        | TextFault::NoMemory => json!(in alloc; {"fault": name}),
    }
}

fn fault_name(fault: TextFault) -> &'static str
    ensures { result.now ≡ fault_name fault }
{
    match fault {
        TextFault::NotJson => "NotJson",
        TextFault::NotObject => "NotObject",
        TextFault::MissingKey(_) => "MissingKey",
        TextFault::UnknownKey => "UnknownKey",
        TextFault::BadValue(_) => "BadValue",
        TextFault::UnknownCommand => "UnknownCommand",
        TextFault::NoMemory => "NoMemory",
    }
}
