//! Lines, and texts in columns.
ghost use Rattle.std.specs.Prelude.{◌≡◌, ◌++◌, IfOk, OnOk, decimal, replicate, string_bytes};
ghost use Rattle.clr_rules.specs.Id.{id_text};
ghost use Rattle.clr_print.specs.Printed.{left_column, name_or_dash, right_column, text_line};

use clr_net::Name;
use clr_rules::ClearanceId;
use std::alloc::{AllocError, Global};

/// Writes a line that begins with a word.
#[tactic(auto, unfolding(crate::specs::Printed::text_line))]
pub(crate) fn push_line(out: &mut String, word: &str, text: &str) -> Result<(), AllocError>
    ensures { OnOk result (string_bytes out.new
        ≡ string_bytes out.old ++ text_line word.now text.now) }
{
    out.push_str(word)?;
    out.push_str(text)?;
    out.push('\n')?;
    Ok(())
}

/// Writes a text on the left of a column, and a blank.
#[tactic(auto, unfolding(crate::specs::Printed::left_column))]
pub(crate) fn push_left(out: &mut String, width: usize, text: &str) -> Result<(), AllocError>
    ensures { OnOk result (string_bytes out.new
        ≡ string_bytes out.old ++ left_column width text.now) }
{
    out.push_str(text)?;
    push_blanks(out, width.saturating_sub(text.len()))?;
    out.push(' ')?;
    Ok(())
}

/// Writes a text on the right of a column, and a blank.
#[tactic(auto, unfolding(crate::specs::Printed::right_column))]
pub(crate) fn push_right(out: &mut String, width: usize, text: &str) -> Result<(), AllocError>
    ensures { OnOk result (string_bytes out.new
        ≡ string_bytes out.old ++ right_column width text.now) }
{
    push_blanks(out, width.saturating_sub(text.len()))?;
    out.push_str(text)?;
    out.push(' ')?;
    Ok(())
}

fn push_blanks(out: &mut String, count: usize) -> Result<(), AllocError>
    ensures { OnOk result (string_bytes out.new ≡ string_bytes out.old ++ replicate count 32) }
{
    for _ in 0..count {
        out.push(' ')?;
    }
    Ok(())
}

/// A name, or a dash where there is none.
pub(crate) fn name_or_dash(name: &Option<Name>) -> &str
    ensures { result.now ≡ name_or_dash name.now }
{
    match name {
        Some(name) => name.as_str(),
        None => "-",
    }
}

/// A number in digits.
pub(crate) fn numeral(alloc: Global, number: usize) -> Result<String, AllocError>
    ensures { IfOk result (λ text. string_bytes text ≡ decimal number) }
{
    format!(in alloc; "{number}")
}

/// A clearance as it is written.
pub(crate) fn id_text(alloc: Global, id: ClearanceId) -> Result<String, AllocError>
    ensures { IfOk result (λ text. string_bytes text ≡ id_text id) }
{
    format!(in alloc; "{id}")
}
