//! Warnings as lines.
ghost use Rattle.std.specs.Prelude.{◌≡◌, ◌++◌, IfOk, OnOk, string_bytes};
ghost use Rattle.clr_csv.specs.WarningText.{names_word, pair_line, warning_line, warning_lines};

use crate::warning::{Names, Warning};
use clr_net::Name;
use std::alloc::{AllocError, Global};

/// The warnings, a line each.
pub fn print_warnings(alloc: Global, warnings: &[Warning]) -> Result<String, AllocError>
    ensures { IfOk result (λ text. string_bytes text ≡ warning_lines warnings.now) }
{
    let mut text = String::new(alloc);
    for warning in warnings {
        push_line(&mut text, warning)?;
    }
    Ok(text)
}

/// Adds the line of one.
fn push_line(text: &mut String, warning: &Warning) -> Result<(), AllocError>
    ensures { OnOk result (string_bytes text.new
        ≡ string_bytes text.old ++ warning_line warning.now) }
{
    match warning {
        Warning::NoSource => text.push_str("no section is a source\n"),
        Warning::NoOperator => text.push_str("no employee is an operator\n"),
        Warning::NoField => text.push_str("no employee is a field employee\n"),
        Warning::NoSupervisor(name) => push_around(
            text,
            "employee ",
            name,
            " may hold a clearance and has no supervisor\n",
        ),
        Warning::NotJoined(name) => push_around(text, "section ", name, " is joined by no point\n"),
        Warning::NotReached(name) => {
            push_around(text, "section ", name, " is reached by no source\n")
        }
        Warning::NotLocked(name) => push_around(
            text,
            "point ",
            name,
            " can be locked by nothing\n",
        ),
        Warning::Alike(of, name, other) => push_pair(text, *of, name, other),
    }
}

/// Adds a name between two texts.
fn push_around(text: &mut String, before: &str, name: &Name, after: &str) -> Result<(), AllocError>
    ensures { OnOk result (string_bytes text.new
        ≡ string_bytes text.old ++ (before.now ++ name.now ++ after.now)) }
{
    text.push_str(before)?;
    text.push_str(name.as_str())?;
    text.push_str(after)?;
    Ok(())
}

/// Adds the line of two names.
fn push_pair(text: &mut String, of: Names, name: &Name, other: &Name) -> Result<(), AllocError>
    ensures { OnOk result (string_bytes text.new
        ≡ string_bytes text.old ++ pair_line of name.now other.now) }
{
    text.push_str(names_word(of))?;
    text.push_str(name.as_str())?;
    text.push_str(" and ")?;
    text.push_str(other.as_str())?;
    text.push_str(" differ by one letter\n")?;
    Ok(())
}

/// What names are of, before two of them.
fn names_word(of: Names) -> &'static str
    ensures { result.now ≡ names_word of }
{
    match of {
        Names::Sections => "sections ",
        Names::Points => "points ",
        Names::Employees => "employees ",
    }
}
