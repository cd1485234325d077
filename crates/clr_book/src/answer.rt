//! The book's answer to a command.
ghost use Rattle.std.specs.Prelude.{◌≡◌, true, IfOk};
ghost use Rattle.clr_rules.specs.Answer.{answer, answer_with};
ghost use Rattle.clr_rules.specs.Edits.{fit};
ghost use Rattle.clr_rules.specs.Good.{IsGood};
ghost use Rattle.clr_rules.specs.Near.{Near, near_of};
ghost use Rattle.clr_answer.specs.Decision.{ChangesIfAccepted, answer_of_decision};

use crate::book::Book;
use clr_answer::{Decision, decide};
use clr_rules::{Command, Hold, PointState, Record, StepRow};
use clr_shelf::Shelf;
use std::alloc::AllocError;

impl<P: Shelf<PointState>, C: Shelf<Record>, T: Shelf<StepRow>, H: Shelf<Hold>> Book<P, C, T, H> {
    /// What the book answers to a command, and what the command would change; the book of every
    /// register that is reached is good. The book stays as it is: room for the change is made by
    /// `reserve`, and the change by `apply`.
    pub fn answer(&self, command: &Command) -> Result<Decision, AllocError>
        ensures lent { IfOk result (λ d.
            answer_with (Near.known (near_of self.now.register command.now))
            (Near.rows (near_of self.now.register command.now)) command.now
            ≡ answer_of_decision d) }
        ensures whole { IsGood self.now.register
            → IfOk result (λ d. answer self.now.register command.now ≡ answer_of_decision d) }
        ensures nothing { IfOk result ChangesIfAccepted }
        ensures fits { IfOk result
            (λ d. fit self.now.register.net d.change.edits.items ≡ true) }
    {
        self.network.is_network();
        let near = self.near_answer(command)?;
        let decision = decide(&near, command)?;
        Ok(decision)
    }
}
