//! The texts of refusals.
ghost use Rattle.std.specs.Prelude.{◌≡◌, ◌++◌, IfOk, OnOk, codes, string_bytes};
ghost use Rattle.serde_json.specs.Data.{member, no_members, object, string};
ghost use Rattle.serde_json.specs.Written.{compact_text};
ghost use Rattle.clr_rules.specs.HoldKind.{hold_kind_text};
ghost use Rattle.clr_rules.specs.Refusal.{number_of, refusal_name};
ghost use Rattle.clr_text.specs.Json.{id_data, name_data, whole_data};
ghost use Rattle.clr_text.specs.RefusalText.{refusal_data};

use crate::pushed::{push_id, push_kind, push_name, push_refusal_name, push_whole};
use clr_net::Name;
use clr_rules::{ClearanceId, HoldKind, Refusal};
use std::alloc::{AllocError, Global};

/// Room for the longest refusal.
const REFUSAL_BYTES: usize = 128;

/// The text of a refusal.
pub(crate) fn refusal_text(alloc: Global, refusal: &Refusal) -> Result<String, AllocError>
    ensures { IfOk result (λ text. string_bytes text ≡ compact_text (refusal_data refusal.now)) }
{
    let mut text = String::with_capacity(alloc, REFUSAL_BYTES)?;
    push_refusal(&mut text, refusal)?;
    Ok(text)
}

/// Writes a refusal.
fn push_refusal(out: &mut String, refusal: &Refusal) -> Result<(), AllocError>
    ensures { OnOk result (string_bytes out.new
        ≡ string_bytes out.old ++ compact_text (refusal_data refusal.now)) }
{
    match refusal {
        Refusal::SourceInside(section) => push_of_section(out, refusal, section),
        Refusal::NotOnFence(point) => push_of_point(out, refusal, point),
        Refusal::StepsWrong(point) => push_of_point(out, refusal, point),
        Refusal::UnknownPoint(point) => push_of_point(out, refusal, point),
        Refusal::InHand(by) => push_of_clearance(out, refusal, *by),
        Refusal::CrossesFence(by) => push_of_clearance(out, refusal, *by),
        Refusal::Held(by, kind) => push_of_hold(out, refusal, *by, *kind),
        _ => push_bare(out, refusal),
    }
}

/// Writes a refusal that names nothing.
fn push_bare(out: &mut String, refusal: &Refusal) -> Result<(), AllocError>
    ensures { OnOk result (string_bytes out.new ≡ string_bytes out.old ++ compact_text (object
        (member (codes "number") (whole_data (number_of refusal.now))
        (member (codes "refusal") (string (refusal_name refusal.now))
        (member (codes "reply") (string (codes "refused")) no_members))))) }
{
    push_whole(out, "{\"number\":", usize::from(refusal.number()))?;
    push_refusal_name(out, ",\"refusal\":", refusal)?;
    out.push_str(",\"reply\":\"refused\"}")?;
    Ok(())
}

/// Writes a refusal that names a section.
fn push_of_section(out: &mut String, refusal: &Refusal, section: &Name) -> Result<(), AllocError>
    ensures { OnOk result (string_bytes out.new ≡ string_bytes out.old ++ compact_text (object
        (member (codes "number") (whole_data (number_of refusal.now))
        (member (codes "refusal") (string (refusal_name refusal.now))
        (member (codes "reply") (string (codes "refused"))
        (member (codes "section") (name_data section.now) no_members)))))) }
{
    push_whole(out, "{\"number\":", usize::from(refusal.number()))?;
    push_refusal_name(out, ",\"refusal\":", refusal)?;
    push_name(out, ",\"reply\":\"refused\",\"section\":", section)?;
    out.push_str("}")?;
    Ok(())
}

/// Writes a refusal that names a point.
fn push_of_point(out: &mut String, refusal: &Refusal, point: &Name) -> Result<(), AllocError>
    ensures { OnOk result (string_bytes out.new ≡ string_bytes out.old ++ compact_text (object
        (member (codes "number") (whole_data (number_of refusal.now))
        (member (codes "point") (name_data point.now)
        (member (codes "refusal") (string (refusal_name refusal.now))
        (member (codes "reply") (string (codes "refused")) no_members)))))) }
{
    push_whole(out, "{\"number\":", usize::from(refusal.number()))?;
    push_name(out, ",\"point\":", point)?;
    push_refusal_name(out, ",\"refusal\":", refusal)?;
    out.push_str(",\"reply\":\"refused\"}")?;
    Ok(())
}

/// Writes a refusal that names a clearance.
fn push_of_clearance(out: &mut String, refusal: &Refusal, by: ClearanceId) -> Result<(), AllocError>
    ensures { OnOk result (string_bytes out.new ≡ string_bytes out.old ++ compact_text (object
        (member (codes "by") (id_data by)
        (member (codes "number") (whole_data (number_of refusal.now))
        (member (codes "refusal") (string (refusal_name refusal.now))
        (member (codes "reply") (string (codes "refused")) no_members)))))) }
{
    push_id(out, "{\"by\":", by)?;
    push_whole(out, ",\"number\":", usize::from(refusal.number()))?;
    push_refusal_name(out, ",\"refusal\":", refusal)?;
    out.push_str(",\"reply\":\"refused\"}")?;
    Ok(())
}

/// Writes a refusal that names a hold.
fn push_of_hold(
    out: &mut String,
    refusal: &Refusal,
    by: ClearanceId,
    kind: HoldKind,
) -> Result<(), AllocError>
    ensures { OnOk result (string_bytes out.new ≡ string_bytes out.old ++ compact_text (object
        (member (codes "by") (id_data by) (member (codes "kind") (string (hold_kind_text kind))
        (member (codes "number") (whole_data (number_of refusal.now))
        (member (codes "refusal") (string (refusal_name refusal.now))
        (member (codes "reply") (string (codes "refused")) no_members))))))) }
{
    push_id(out, "{\"by\":", by)?;
    push_kind(out, ",\"kind\":", kind)?;
    push_whole(out, ",\"number\":", usize::from(refusal.number()))?;
    push_refusal_name(out, ",\"refusal\":", refusal)?;
    out.push_str(",\"reply\":\"refused\"}")?;
    Ok(())
}
