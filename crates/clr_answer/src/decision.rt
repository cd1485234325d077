//! What is decided: a reply, and what changes.
ghost use Rattle.std.specs.Prelude.{◌≡◌, [], IfOk};
ghost use Rattle.clr_rules.specs.declared.reply.Reply.TheVariants as replies;
ghost use Rattle.clr_answer.specs.Decision.{ChangesIfAccepted, accepted_with, answer_of_decision};
ghost use Rattle.clr_answer.specs.Decision.{all_edits};
ghost use Rattle.clr_answer.specs.Effect.{IsOf};

use crate::card::{card_with, progress_with};
use crate::effect::Effect;
use crate::near::Near;
use clr_rules::{Change, Edit, Record, Refusal, Reply, StepRow, View};
use std::alloc::{AllocError, Global};

/// What a command is answered, and what it changes.
#[derive(Debug, PartialEq, Drop)]
pub struct Decision {
    pub reply: Reply,
    pub change: Change,
}

/// The decision to refuse, which changes nothing.
pub(crate) fn refused(alloc: Global, refusal: Refusal) -> Decision
    ensures answer { answer_of_decision result
        ≡ record { reply = replies.Refused refusal; edits = [] } }
    ensures nothing { ChangesIfAccepted result }
{
    Decision {
        reply: Reply::Refused(refusal),
        change: Change {
            edits: Vec::new(alloc),
        },
    }
}

/// The decision to show a clearance, which changes nothing.
pub(crate) fn shown(alloc: Global, view: View) -> Decision
    ensures answer { answer_of_decision result ≡ record { reply = replies.Shown view; edits = [] } }
    ensures nothing { ChangesIfAccepted result }
{
    Decision {
        reply: Reply::Shown(view),
        change: Change {
            edits: Vec::new(alloc),
        },
    }
}

/// Edits, and after them those that put a record and some steps.
fn end(edits: Vec<Edit>, clearance: Record, steps: &[StepRow]) -> Result<Vec<Edit>, AllocError>
    ensures { IfOk result (λ all. all.items ≡ all_edits edits.items clearance steps.now) }
{
    let mut all = edits;
    all.push(Edit::PutRecord(clearance))?;
    for row in steps {
        all.push(Edit::PutStep(*row))?;
    }
    Ok(all)
}

/// The decision to carry a command out. The reply is the card of its record, as it is then.
pub(crate) fn accept(near: &Near, effect: Effect) -> Result<Decision, AllocError>
    requires { IsOf effect.clearance.id effect }
    ensures answer { IfOk result (λ d. answer_of_decision d
        ≡ accepted_with near.now.rows effect.lead.items effect.clearance effect.steps.items) }
    ensures something { IfOk result ChangesIfAccepted }
{
    let progress = progress_with(near, &effect.steps, effect.clearance.id);
    let card = card_with(&effect.clearance, progress);
    let all = end(effect.lead, effect.clearance, &effect.steps)?;
    Ok(Decision {
        reply: Reply::Accepted(card),
        change: Change { edits: all },
    })
}
