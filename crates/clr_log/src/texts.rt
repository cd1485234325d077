//! Texts in a line of the log.
ghost use Rattle.std.specs.Prelude.{◌≡◌, ◌++◌, ◌∷◌, OnOk, decimal, option_map, string_bytes};
ghost use Rattle.clr_order.specs.Step.{task};
ghost use Rattle.clr_order.specs.Texts.{step_text};
ghost use Rattle.clr_log.specs.Log.{id_or_dash, plain};
ghost use Rattle.clr_log.specs.Words.{points_words, quoted, step_words, steps_words};

use clr_net::Name;
use clr_order::{Step, step_text};
use clr_rules::{ClearanceId, Names, Tasks};
use serde_json::Value;
use std::alloc::{AllocError, Global};

/// Writes a text as it was spoken: in quotes, as JSON.
#[tactic(auto, unfolding(crate::specs::Words::quoted))]
pub(crate) fn push_quoted(alloc: Global, out: &mut String, text: &str) -> Result<(), AllocError>
    ensures { OnOk result (string_bytes out.new ≡ string_bytes out.old ++ quoted text.now) }
{
    let value = Value::try_from_str(alloc, text)?;
    let quoted = value.to_string(alloc)?;
    out.push_str(quoted.as_str())
}

/// Writes the bytes of a text that are printed.
#[tactic(auto, unfolding(crate::specs::Log::plain))]
pub(crate) fn push_plain(out: &mut String, text: &str) -> Result<(), AllocError>
    ensures { OnOk result (string_bytes out.new ≡ string_bytes out.old ++ plain text.now) }
{
    for byte in text.as_bytes() {
        if *byte >= 32 && *byte <= 126 {
            out.push(*byte as char)?;
        }
    }
    Ok(())
}

/// Writes a number.
pub(crate) fn push_number(alloc: Global, out: &mut String, number: u64) -> Result<(), AllocError>
    ensures { OnOk result (string_bytes out.new ≡ string_bytes out.old ++ decimal number) }
{
    let text = format!(in alloc; "{number}")?;
    out.push_str(text.as_str())
}

/// Writes a clearance, or a dash where there is none.
pub(crate) fn push_id(
    alloc: Global,
    out: &mut String,
    clearance: Option<ClearanceId>,
) -> Result<(), AllocError>
    ensures { OnOk result
        (string_bytes out.new ≡ string_bytes out.old ++ id_or_dash clearance) }
{
    let Some(clearance) = clearance else {
        return out.push('-');
    };
    let text = format!(in alloc; "{clearance}")?;
    out.push_str(text.as_str())
}

/// Writes the points of an order, each after a blank.
pub(crate) fn push_points(out: &mut String, points: &Names) -> Result<(), AllocError>
    ensures { OnOk result
        (string_bytes out.new ≡ string_bytes out.old ++ points_words points.now) }
{
    for point in points.as_slice() {
        push_name(out, point)?;
    }
    Ok(())
}

/// Writes a name after a blank.
pub(crate) fn push_name(out: &mut String, name: &Name) -> Result<(), AllocError>
    ensures { OnOk result (string_bytes out.new ≡ string_bytes out.old ++ 32 ∷ name.now) }
{
    out.push(' ')?;
    out.push_str(name.as_str())
}

/// Writes the steps of an order, each after a comma.
pub(crate) fn push_steps(alloc: Global, out: &mut String, steps: &Tasks) -> Result<(), AllocError>
    ensures { OnOk result
        (string_bytes out.new ≡ string_bytes out.old ++ steps_words steps.now) }
{
    for step in steps.as_slice() {
        push_step(alloc, out, ", ", step)?;
    }
    Ok(())
}

/// Writes a step after these characters.
fn push_step(alloc: Global, out: &mut String, before: &str, step: &Step) -> Result<(), AllocError>
    ensures { OnOk result (string_bytes out.new
        ≡ string_bytes out.old ++ before.now ++ step_text (task step.now)) }
{
    let text = step_text(alloc, step)?;
    out.push_str(before)?;
    out.push_str(text.as_str())
}

/// Writes the number of a step, and what it is, if that is known.
pub(crate) fn push_numbered(
    alloc: Global,
    out: &mut String,
    number: u16,
    step: Option<Step>,
) -> Result<(), AllocError>
    ensures { OnOk result (string_bytes out.new
        ≡ string_bytes out.old ++ step_words number (option_map task step)) }
{
    push_number(alloc, out, u64::from(number))?;
    match step {
        Some(step) => push_step(alloc, out, " ", &step),
        None => Ok(()),
    }
}
