//! Who keeps the register that is served.
ghost use Rattle.std.specs.Prelude.{◌≡◌, ℕ, Bool, IfOk, IfSome, List, None, OnSome, Option};
ghost use Rattle.std.specs.Prelude.{option_map, pos};
ghost use Rattle.std.specs.Prelude.{string_bytes};
ghost use Rattle.clr_rules.specs.Answer.{Answer, answer};
ghost use Rattle.clr_rules.specs.Good.{IsGood};
ghost use Rattle.clr_rules.specs.Records.{record_of};
ghost use Rattle.clr_rules.specs.Run.{after};
ghost use Rattle.clr_rules.specs.Steps.{steps_of};
ghost use Rattle.clr_rules.specs.declared.command.Command.{Command};
ghost use Rattle.clr_rules.specs.declared.reply.Reply.{Reply};
ghost use Rattle.clr_print.specs.Printed.{board_text, order_text};
ghost use Rattle.clr_view.specs.View.{network_text};
ghost use Rattle.clr_wayback.specs.Answer.{way_back_answer};
ghost use Rattle.clr_http.specs.Registrar.{Keeper, faults_after};

use clr_rules::{ClearanceId, Command, Reply, Text};
use clr_wayback::WayBack;
use std::alloc::{AllocError, Global};

/// One who keeps a register: answers commands, and prints what is in it. A desk is one.
pub trait Registrar {
    /// The register as it is now, and how many commands were not answered.
    ghost keeper: { Self → Keeper };

    /// What ties a state to each later one, beside the register: what a command does to the rest of
    /// what is kept.
    ghost leads_to: { Self → Self → Type 0 };

    /// What it is to take a command that is given at a login, or at none, with its reply, if it got
    /// one.
    ghost takes: { Self → Option (List ℕ) → Command → Option Reply → Self → Type 0 };

    /// Whether it is not known if the change of the last command was kept.
    ghost doubts: { Self → Bool };

    /// Whether it is not known if the change of the last command was kept: only opening the
    /// register again decides that.
    fn is_in_doubt(&self) -> bool
        ensures { result ≡ doubts self.now };

    /// How many commands were not answered, since the store or memory refused. The count stays at
    /// 2^64 - 1.
    fn faults(&self) -> u64
        ensures { result ≡ (keeper self.now).faults };

    /// Answers a command that is given at a login, or at none, and makes its change. `None`, and
    /// one more in `faults`, where the store or memory refused.
    fn answer(&mut self, login: Option<Text>, command: Command) -> Option<Reply>
        ensures reply { IsGood (keeper self.old).register → IfSome result (λ reply.
            reply ≡ Answer.reply (answer (keeper self.old).register command)) }
        ensures left { IsGood (keeper self.old).register → OnSome result
            ((keeper self.new).register ≡ after (keeper self.old).register command) }
        ensures refused { result ≡ None → (keeper self.new).register ≡ (keeper self.old).register }
        ensures faults { (keeper self.new).faults
            ≡ faults_after result (keeper self.old).faults }
        ensures taken { takes self.old login command result self.new }
        ensures led { leads_to self.old self.new };

    /// A round of an order as it is printed, by a clock at offset 0. `None` where it is not there.
    fn order(
        &self,
        alloc: Global,
        id: &ClearanceId,
        round: u8,
    ) -> Result<Option<String>, AllocError>
        ensures { IfOk result (λ text. option_map (λ s. string_bytes s) text
            ≡ order_text (record_of (keeper self.now).register.records id.now)
            (steps_of (keeper self.now).register.steps id.now) round (pos 0)) };

    /// The board as it is printed, by a clock at offset 0.
    fn board(&self, alloc: Global) -> Result<String, AllocError>
        ensures { IfOk result (λ text. string_bytes text
            ≡ board_text (keeper self.now).register (pos 0)) };

    /// The network as a page draws it, as JSON.
    fn network(&self, alloc: Global) -> Result<String, AllocError>
        ensures { IfOk result (λ text. string_bytes text
            ≡ network_text (keeper self.now).register) };

    /// The commands that give a clearance or a switch order back.
    fn way_back(&self, alloc: Global, id: &ClearanceId) -> Result<WayBack, AllocError>
        ensures { IsGood (keeper self.now).register → IfOk result (λ answer.
            answer ≡ way_back_answer (keeper self.now).register id.now) };

    ghost stays: { (one : Self) → leads_to one one };

    ghost goes_on: { (before between behind : Self) → leads_to before between
        → leads_to between behind → leads_to before behind };
}
