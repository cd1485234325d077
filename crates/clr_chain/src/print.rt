//! A line is written.
ghost use Rattle.std.specs.Prelude.{◌≡◌, ◌^◌, IfOk, IsTrue, Some, nat_lt, string_bytes, true};
ghost use Rattle.std.specs.List.{list_all};
ghost use Rattle.clr_changes.specs.Deeds.{archive, command as asked, update};
ghost use Rattle.clr_journal.specs.DeltaRows.{is_open};
ghost use Rattle.clr_text.specs.Replies.{reply_data};
ghost use Rattle.clr_update.specs.Shown.{as_changes};
ghost use Rattle.clr_journal.specs.Line.{bare, carried, done, withdrawn};
ghost use Rattle.clr_chain.specs.Link.{link_text, read_link};
ghost use Rattle.clr_chain.specs.Sums.{sum_after};

use crate::sums::sum_of;
use crate::values::with_sum;
use clr_journal::{Changes, Receipt, archived_value, can_be_said, updated_value, withdrawn_value};
use clr_rules::{Command, Moment, Reply, Text};
use serde_json::Value;
use std::alloc::{AllocError, Global};

/// A line that is to be appended: its text, without a line feed, and the sum at it.
#[derive(Drop)]
pub struct Link {
    pub text: String,
    pub sum: Text,
}

/// The line of a command and its reply, after a sum. Its own sum is the last of its keys, so it is
/// put in before the closing brace.
#[tactic(auto, unfolding(crate::specs::Sums::sum_after, crate::specs::Link::link_text))]
pub fn print_carried(
    alloc: Global,
    before: &Text,
    receipt: &Receipt,
    command: &Command,
    reply: &Reply,
) -> Result<Link, AllocError>
    ensures text { IfOk result (λ link. string_bytes link.text
        ≡ link_text (carried receipt.now (asked command.now) (reply_data reply.now)) link.sum) }
    ensures sum { IfOk result (λ link. link.sum
        ≡ sum_after before.now (carried receipt.now (asked command.now) (reply_data reply.now))) }
{
    let mut text = clr_journal::print_carried(alloc, receipt, command, reply)?;
    let sum = sum_of(alloc, before.as_str().as_bytes(), text.as_bytes())?;
    let value = Value::try_from_str(alloc, sum.as_str())?;
    let quoted = value.to_string(alloc)?;
    text.pop();
    text.push_str(",\"sum\":")?;
    text.push_str(quoted.as_str())?;
    text.push_str("}")?;
    Ok(Link { text, sum })
}

/// The line of an update with these changes, after a sum. A login of the receipt is not written. It
/// reads as that line without a login, where no point that goes has a position.
#[tactic(auto, unfolding(crate::specs::Sums::sum_after, crate::specs::Link::link_text))]
pub fn print_updated(
    alloc: Global,
    before: &Text,
    receipt: &Receipt,
    changes: &Changes,
) -> Result<Link, AllocError>
    ensures text { IfOk result (λ link. string_bytes link.text
        ≡ link_text (carried receipt.now (update (as_changes changes.now)) done) link.sum) }
    ensures sum { IfOk result (λ link. link.sum
        ≡ sum_after before.now (carried receipt.now (update (as_changes changes.now)) done)) }
    ensures reads { IfOk result (λ link.
        IsTrue (list_all (λ p. is_open p.position) changes.now.points_go.items)
        → read_link link.sum (string_bytes link.text)
        ≡ Some (carried (bare receipt.now) (update (as_changes changes.now)) done)) }
{
    can_be_said(changes);
    is_number(receipt.number);
    is_number(receipt.received);
    let line = clr_journal::print_updated(alloc, receipt, changes)?;
    let sum = sum_of(alloc, before.as_str().as_bytes(), line.as_bytes())?;
    let plain = updated_value(alloc, receipt, changes)?;
    let value = with_sum(alloc, plain, sum.as_str())?;
    let text = value.to_string(alloc)?;
    Ok(Link { text, sum })
}

/// The line of an archive, after a sum. A login of the receipt is not written. It reads as that
/// line without a login.
#[tactic(auto, unfolding(crate::specs::Sums::sum_after, crate::specs::Link::link_text))]
pub fn print_archived(
    alloc: Global,
    before: &Text,
    receipt: &Receipt,
    moment: Moment,
) -> Result<Link, AllocError>
    ensures text { IfOk result (λ link. string_bytes link.text
        ≡ link_text (carried receipt.now (archive moment) done) link.sum) }
    ensures sum { IfOk result (λ link. link.sum
        ≡ sum_after before.now (carried receipt.now (archive moment) done)) }
    ensures reads { IfOk result (λ link. read_link link.sum (string_bytes link.text)
        ≡ Some (carried (bare receipt.now) (archive moment) done)) }
{
    moment.seconds();
    is_number(receipt.number);
    is_number(receipt.received);
    let line = clr_journal::print_archived(alloc, receipt, moment)?;
    let sum = sum_of(alloc, before.as_str().as_bytes(), line.as_bytes())?;
    let plain = archived_value(alloc, receipt, moment)?;
    let value = with_sum(alloc, plain, sum.as_str())?;
    let text = value.to_string(alloc)?;
    Ok(Link { text, sum })
}

/// A number has 64 bits: a law, with nothing to do.
fn is_number(number: u64)
    ensures { nat_lt number (2 ^ 64) ≡ true }
{
    let _number = number;
}

/// The line that withdraws the deed of a number, after a sum.
#[tactic(auto, unfolding(crate::specs::Sums::sum_after, crate::specs::Link::link_text))]
pub fn print_withdrawn(alloc: Global, before: &Text, number: u64) -> Result<Link, AllocError>
    ensures text { IfOk result (λ link. string_bytes link.text
        ≡ link_text (withdrawn number) link.sum) }
    ensures sum { IfOk result (λ link. link.sum ≡ sum_after before.now (withdrawn number)) }
{
    let line = clr_journal::print_withdrawn(alloc, number)?;
    let sum = sum_of(alloc, before.as_str().as_bytes(), line.as_bytes())?;
    let plain = withdrawn_value(alloc, number)?;
    let value = with_sum(alloc, plain, sum.as_str())?;
    let text = value.to_string(alloc)?;
    Ok(Link { text, sum })
}
