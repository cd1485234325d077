//! Names that differ by one letter.
ghost use Rattle.std.specs.Prelude.{◌≡◌, ◌++◌, ◌↔◌, IsTrue, OnOk, filter, map};
ghost use Rattle.clr_csv.specs.Alike.{AreOneLetterApart, differ_by_one_letter, has_letter_more};
ghost use Rattle.clr_csv.specs.Alike.{has_letter_replaced, is_letter, part_by_one_letter};
ghost use Rattle.clr_csv.specs.Warnings.{alike};
ghost use Rattle.clr_csv.specs.declared.warning.Warning.TheVariants.{Alike};

use crate::warning::{Names, Warning};
use clr_net::Name;
use std::alloc::AllocError;

/// Adds the pairs of these names that differ by one letter, in their order.
pub(crate) fn push_alike(
    warnings: &mut Vec<Warning>,
    of: Names,
    names: &[Name],
) -> Result<(), AllocError>
    ensures { OnOk result (warnings.new.items ≡ warnings.old.items ++ alike of names.now) }
{
    for (place, name) in names.iter().enumerate() {
        push_alike_to(warnings, of, *name, &names[place + 1..])?;
    }
    Ok(())
}

/// Adds the pairs of a name and those of the later ones that differ from it by one letter.
fn push_alike_to(
    warnings: &mut Vec<Warning>,
    of: Names,
    name: Name,
    later: &[Name],
) -> Result<(), AllocError>
    ensures { OnOk result (warnings.new.items ≡ warnings.old.items
        ++ map (Alike of name) (filter (differ_by_one_letter name) later.now)) }
{
    let text = name.as_str();
    for other in later {
        if differ_by_one_letter(text, other.as_str()) {
            warnings.push(Warning::Alike(of, name, *other))?;
        }
    }
    Ok(())
}

/// Whether two names differ by one letter: one of them has it in place of another byte, or has it
/// where the other one leaves it out.
pub fn differ_by_one_letter(name: &str, other: &str) -> bool
    ensures test { result ≡ differ_by_one_letter name.now other.now }
    ensures means { IsTrue result ↔ AreOneLetterApart name.now other.now }
{
    bytes_differ(name.as_bytes(), other.as_bytes())
}

/// The same of the bytes of two names, or of their rests after what both begin with.
#[tactic(auto, unfolding(crate::specs::Alike::differ_by_one_letter))]
fn bytes_differ(name: &[u8], other: &[u8]) -> bool
    ensures { result ≡ differ_by_one_letter name.now other.now }
{
    match (name, other) {
        ([x, name_rest @ ..], [y, other_rest @ ..]) => {
            if x == y {
                bytes_differ(name_rest, other_rest)
            } else {
                part_by_one_letter(name, other)
            }
        }
        _ => part_by_one_letter(name, other),
    }
}

/// Whether one of two names begins with a letter in place of the other's byte, or with a letter
/// more, and they are the same after it.
fn part_by_one_letter(name: &[u8], other: &[u8]) -> bool
    ensures { result ≡ part_by_one_letter name.now other.now }
{
    has_letter_replaced(name, other) || has_letter_more(name, other) || has_letter_more(other, name)
}

/// Whether two names begin with two bytes of which one is a letter, and are the same after it.
fn has_letter_replaced(name: &[u8], other: &[u8]) -> bool
    ensures { result ≡ has_letter_replaced name.now other.now }
{
    match (name, other) {
        ([x, name_rest @ ..], [y, other_rest @ ..]) => {
            (is_letter(*x) || is_letter(*y)) && name_rest == other_rest
        }
        _ => false,
    }
}

/// Whether a name begins with a letter, after which it is the other one.
fn has_letter_more(name: &[u8], other: &[u8]) -> bool
    ensures { result ≡ has_letter_more name.now other.now }
{
    match name {
        [x, rest @ ..] => is_letter(*x) && rest == other,
        [] => false,
    }
}

/// Whether a byte of a name is a letter: no digit, and no hyphen.
fn is_letter(b: u8) -> bool
    ensures { result ≡ is_letter b }
{
    b.is_ascii_uppercase()
}
