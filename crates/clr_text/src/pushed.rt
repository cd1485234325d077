//! Parts of a JSON text, each written onto the end of it.
ghost use Rattle.std.specs.Prelude.{◌≡◌, ◌++◌, OnOk, decimal, string_bytes};
ghost use Rattle.json.specs.Print.{escape, quoted};
ghost use Rattle.clr_rules.specs.HoldKind.{hold_kind_text};
ghost use Rattle.clr_rules.specs.Id.{id_text};
ghost use Rattle.clr_rules.specs.Phase.{phase_text};
ghost use Rattle.clr_rules.specs.Refusal.{refusal_name};

use clr_net::Name;
use clr_rules::{ClearanceId, HoldKind, Phase, Refusal};
use itoa::Buffer;
use std::alloc::AllocError;

/// Writes a word of which no byte is escaped, between quotes.
fn push_quoted(out: &mut String, word: &str) -> Result<(), AllocError>
    requires { escape word.now ≡ word.now }
    ensures { OnOk result (string_bytes out.new ≡ string_bytes out.old ++ quoted word.now) }
{
    out.push('"')?;
    out.push_str(word)?;
    out.push('"')?;
    Ok(())
}

/// Writes what comes before a number, and the number.
pub(crate) fn push_whole(out: &mut String, before: &str, number: usize) -> Result<(), AllocError>
    ensures { OnOk result (string_bytes out.new
        ≡ string_bytes out.old ++ (before.now ++ decimal number)) }
{
    let mut digits = Buffer::new();
    out.push_str(before)?;
    out.push_str(digits.format(number))?;
    Ok(())
}

/// Writes what comes before a name, and the name between quotes.
#[tactic(auto, using(crate::proofs::Unescaped::name_is_kept))]
pub(crate) fn push_name(out: &mut String, before: &str, name: &Name) -> Result<(), AllocError>
    ensures { OnOk result (string_bytes out.new
        ≡ string_bytes out.old ++ (before.now ++ quoted name.now)) }
{
    out.push_str(before)?;
    push_quoted(out, name.as_str())
}

/// Writes what comes before a clearance, and the clearance between quotes.
pub(crate) fn push_id(out: &mut String, before: &str, id: ClearanceId) -> Result<(), AllocError>
    ensures { OnOk result (string_bytes out.new
        ≡ string_bytes out.old ++ (before.now ++ quoted (id_text id))) }
{
    out.push_str(before)?;
    out.push_str("\"")?;
    let requester = id.requester();
    out.push_str(requester.as_str())?;
    push_whole(out, "/", usize::from(id.number()))?;
    out.push_str("\"")?;
    Ok(())
}

/// Writes what comes before a phase, and the phase between quotes.
#[tactic(auto, using(crate::proofs::Unescaped::phase_is_kept))]
pub(crate) fn push_phase(out: &mut String, before: &str, phase: Phase) -> Result<(), AllocError>
    ensures { OnOk result (string_bytes out.new
        ≡ string_bytes out.old ++ (before.now ++ quoted (phase_text phase))) }
{
    out.push_str(before)?;
    push_quoted(out, phase.text())
}

/// Writes what comes before a kind of hold, and the kind between quotes.
#[tactic(auto, using(crate::proofs::Unescaped::kind_is_kept))]
pub(crate) fn push_kind(out: &mut String, before: &str, kind: HoldKind) -> Result<(), AllocError>
    ensures { OnOk result (string_bytes out.new
        ≡ string_bytes out.old ++ (before.now ++ quoted (hold_kind_text kind))) }
{
    out.push_str(before)?;
    push_quoted(out, kind.text())
}

/// Writes what comes before the name of a refusal, and that name between quotes.
#[tactic(auto, using(crate::proofs::Unescaped::refusal_name_is_kept))]
pub(crate) fn push_refusal_name(
    out: &mut String,
    before: &str,
    refusal: &Refusal,
) -> Result<(), AllocError>
    ensures { OnOk result (string_bytes out.new
        ≡ string_bytes out.old ++ (before.now ++ quoted (refusal_name refusal.now))) }
{
    out.push_str(before)?;
    push_quoted(out, refusal.name())
}
