//! The texts of replies.
ghost use Rattle.std.specs.Prelude.{◌≡◌, ◌++◌, IfOk, OnOk, string_bytes};
ghost use Rattle.serde_json.specs.Written.{compact_text};
ghost use Rattle.clr_text.specs.Replies.{card_data, reply_data, reply_text};

use crate::pushed::{push_id, push_name, push_phase, push_whole};
use crate::refusal_texts::refusal_text;
use crate::replies::shown;
use clr_net::Name;
use clr_rules::{Card, Reply, View};
use std::alloc::{AllocError, Global};

/// Room for the longest reply that shows no clearance.
const REPLY_BYTES: usize = 208;

/// The text of a reply: one JSON object without blanks and without a line feed, the keys of each
/// object in the order of their bytes.
pub fn reply_text(alloc: Global, reply: &Reply) -> Result<String, AllocError>
    ensures { IfOk result (λ text. string_bytes text ≡ reply_text reply.now) }
{
    match reply {
        Reply::Accepted(card) => accepted_text(alloc, card),
        Reply::Shown(view) => shown_text(alloc, view),
        Reply::Refused(refusal) => refusal_text(alloc, refusal),
        Reply::Added(point) => added_text(alloc, point),
    }
}

fn accepted_text(alloc: Global, card: &Card) -> Result<String, AllocError>
    ensures { IfOk result (λ text. string_bytes text ≡ reply_text (Reply.Accepted card.now)) }
{
    let mut text = String::with_capacity(alloc, REPLY_BYTES)?;
    push_accepted(&mut text, card)?;
    Ok(text)
}

fn shown_text(alloc: Global, view: &View) -> Result<String, AllocError>
    ensures { IfOk result (λ text. string_bytes text ≡ reply_text (Reply.Shown view.now)) }
{
    let value = shown(alloc, view)?;
    value.to_string(alloc)
}

fn added_text(alloc: Global, point: &Name) -> Result<String, AllocError>
    ensures { IfOk result (λ text. string_bytes text ≡ reply_text (Reply.Added point.now)) }
{
    let mut text = String::with_capacity(alloc, REPLY_BYTES)?;
    push_added(&mut text, point)?;
    Ok(text)
}

/// Writes the reply to a command that was carried out.
#[tactic(auto, unfolding(json::specs::Print::escape_byte))]
fn push_accepted(out: &mut String, card: &Card) -> Result<(), AllocError>
    ensures { OnOk result (string_bytes out.new
        ≡ string_bytes out.old ++ reply_text (Reply.Accepted card.now)) }
{
    out.push_str("{\"card\":")?;
    push_card(out, card)?;
    out.push_str(",\"reply\":\"accepted\"}")?;
    Ok(())
}

/// Writes the reply to a jumper that was put in.
fn push_added(out: &mut String, point: &Name) -> Result<(), AllocError>
    ensures { OnOk result (string_bytes out.new
        ≡ string_bytes out.old ++ reply_text (Reply.Added point.now)) }
{
    push_name(out, "{\"point\":", point)?;
    out.push_str(",\"reply\":\"added\"}")?;
    Ok(())
}

/// Writes the state of a clearance, in short.
fn push_card(out: &mut String, card: &Card) -> Result<(), AllocError>
    ensures { OnOk result (string_bytes out.new
        ≡ string_bytes out.old ++ compact_text (card_data card.now)) }
{
    push_id(out, "{\"clearance\":", card.clearance)?;
    push_whole(out, ",\"done\":", card.done)?;
    push_name(out, ",\"holder\":", &card.holder)?;
    push_phase(out, ",\"phase\":", card.phase)?;
    push_whole(out, ",\"round\":", usize::from(card.round))?;
    push_whole(out, ",\"steps\":", card.steps)?;
    out.push_str("}")?;
    Ok(())
}
