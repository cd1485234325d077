//! An operator joins two sections by a switching point that is in no file: the project's own.
ghost use Rattle.std.specs.Prelude.{◌≡◌, Bool, IfOk};
ghost use Rattle.clr_rules.specs.Changes.{added_edits, new_jumper, new_section};
ghost use Rattle.clr_rules.specs.declared.command.Kind.TheVariants as kinds;
ghost use Rattle.clr_rules.specs.declared.reply.Reply.TheVariants.{Added};
ghost use Rattle.clr_answer.specs.Decision.{ChangesIfAccepted, answer_of_decision, near_refusal};

use crate::checks::callers::{RoleTest, unknown_caller, wrong_role};
use crate::checks::first_of;
use crate::checks::network::{
    crosses_fence, has_section, network_full, point_exists, same_ends, unknown_section,
};
use crate::decision::Decision;
use crate::near::Near;
use clr_net::{Name, PointRow, Position, SectionRow};
use clr_rules::{Change, Edit, Moment, Refusal, Reply};
use std::alloc::AllocError;

/// The point that is to be laid.
#[derive(Clone, Copy)]
pub(crate) struct Jumper {
    pub(crate) point: Name,
    pub(crate) from: Name,
    pub(crate) to: Name,
    pub(crate) lockable: bool,
    pub(crate) remote: bool,
}

pub(crate) fn refusal_of(
    near: &Near,
    by: Name,
    at: Moment,
    point: Name,
    from: Name,
    to: Name,
) -> Option<Refusal>
    ensures { (lockable remote : Bool) → result
        ≡ near_refusal near.now by at (kinds.Jumper point from to lockable remote) }
{
    first_of(&[
        unknown_caller(near, by),
        wrong_role(near, by, RoleTest::Operator),
        unknown_section(near, from),
        point_exists(near, point),
        crosses_fence(near),
        network_full(near, to),
        same_ends(from, to),
    ])
}

/// The point's row, which is open and in no file.
fn row_of(laid: Jumper) -> PointRow
    ensures { result ≡ new_jumper laid.point laid.from laid.to laid.lockable laid.remote }
{
    PointRow {
        name: laid.point,
        from_end: laid.from,
        to_end: laid.to,
        lockable: laid.lockable,
        remote: laid.remote,
        position: Position::Opened,
        jumper: true,
    }
}

/// A section that no source feeds.
fn new_section(name: Name) -> SectionRow
    ensures { result ≡ new_section name }
{
    SectionRow {
        name,
        source: false,
    }
}

/// The edits that add a point, after the section that it leads to where that is new.
fn added_edits(near: &Near, row: PointRow) -> Result<Vec<Edit>, AllocError>
    ensures { IfOk result (λ edits. edits.items ≡ added_edits near.now.rows row) }
{
    if has_section(near, row.to_end) {
        let edits = vec![in near.alloc; Edit::AddPoint(row)]?;
        return Ok(edits);
    }
    let section = new_section(row.to_end);
    let edits = vec![in near.alloc; Edit::AddSection(section), Edit::AddPoint(row)]?;
    Ok(edits)
}

/// The decision to lay the point. The reply names it.
pub(crate) fn added(near: &Near, laid: Jumper) -> Result<Decision, AllocError>
    ensures answer { IfOk result (λ d. answer_of_decision d ≡ record {
      reply = Added laid.point;
      edits = added_edits near.now.rows
          (new_jumper laid.point laid.from laid.to laid.lockable laid.remote);
    }) }
    ensures something { IfOk result ChangesIfAccepted }
{
    let point = laid.point;
    let edits = added_edits(near, row_of(laid))?;
    Ok(Decision {
        reply: Reply::Added(point),
        change: Change { edits },
    })
}
