//! The log of a chain, and its commands, line by line: of the lines no more is held than later ones
//! look at.
ghost use Rattle.std.specs.Prelude.{◌≡◌, ◌≤ℤ◌, ◌++◌, ◌∷◌, [], List, OnOk, drop, map, neg_ℤ};
ghost use Rattle.std.specs.Prelude.{pos, reverse, string_bytes, true};
ghost use Rattle.serde_json.specs.View.{view};
ghost use Rattle.clr_journal.specs.Journals.{carried_out};
ghost use Rattle.clr_journal.specs.Line.{Entry, entry_of};
ghost use Rattle.clr_chain.specs.Walking.{seen_step};
ghost use Rattle.clr_log.specs.About.{clearance_of, is_wanted, line_clearance};
ghost use Rattle.clr_changes.specs.Deeds.{commands_among, deed_of};
ghost use Rattle.clr_log.specs.Commands.{commands_text, wanted_of};
ghost use Rattle.clr_log.specs.Log.{entry_line, if_wanted};
ghost use Rattle.clr_log.specs.Walked.{Serve, bad_line, held_entries, idle_at_end, is_amending};
ghost use Rattle.clr_log.specs.Walked.{is_amending_deed, is_remembered, last_accepted, older_with};
ghost use Rattle.clr_log.specs.Walked.{pair_of};
ghost use Rattle.clr_log.specs.Walked.{step_text, withdrawn_with};
ghost use Rattle.clr_verify.specs.Replay.{answered_of, open_entries};

use crate::about::{carried_clearance, is_wanted, line_clearance};
use crate::line::push_line;
use crate::steps::deed_steps;
use crate::texts::push_number;
use clr_chain::Step;
use clr_journal::{Carried, Deed, Line, is_accepted};
use clr_print::ClockOffset;
use clr_rules::{ClearanceId, Kind};
use clr_wayback::push_command;
use std::alloc::{AllocError, Global};

/// The log of a chain, as far as it was walked.
#[derive(Drop)]
pub struct WalkedLog {
    wanted: Option<ClearanceId>,
    clock: ClockOffset,
    /// The lines that later ones may look at, and the last.
    held: Vec<Line>,
}

impl WalkedLog {
    /// Before the first line. The offset, in minutes east of Greenwich, is that of the clock by
    /// which the moments are printed.
    pub fn new(alloc: Global, wanted: Option<ClearanceId>, offset: i16) -> WalkedLog
        requires low { neg_ℤ (pos 720) ≤ℤ offset }
        requires high { offset ≤ℤ pos 840 }
        ensures wanted { result.wanted ≡ wanted }
        ensures clock { result.clock ≡ offset }
        ensures serve { Serve wanted (held_entries result.held.items) [] }
    {
        WalkedLog {
            wanted,
            clock: ClockOffset::new(offset),
            held: Vec::new(alloc),
        }
    }

    /// Writes what a step prints.
    pub fn step(&mut self, alloc: Global, out: &mut String, step: Step) -> Result<(), AllocError>
        ensures text { OnOk result ((older : List Entry)
            → Serve self.old.wanted (held_entries self.old.held.items) older
            → string_bytes out.new ≡ string_bytes out.old
            ++ step_text self.old.wanted self.old.clock older (seen_step step)) }
        ensures serve { OnOk result ((older : List Entry)
            → Serve self.old.wanted (held_entries self.old.held.items) older
            → Serve self.new.wanted (held_entries self.new.held.items)
            (older_with older (seen_step step))) }
        ensures wanted { self.new.wanted ≡ self.old.wanted }
        ensures clock { self.new.clock ≡ self.old.clock }
    {
        match step {
            Step::Bad(number) => push_bad(alloc, out, number),
            Step::Holds(line) => {
                self.push_wanted(alloc, out, &line)?;
                self.remember(line)
            }
        }
    }

    /// Writes the line of the log of a line, if it is wanted.
    fn push_wanted(&self, alloc: Global, out: &mut String, line: &Line) -> Result<(), AllocError>
        ensures { OnOk result (string_bytes out.new ≡ string_bytes out.old
            ++ if_wanted (is_wanted self.now.wanted
            (line_clearance (held_entries self.now.held.items) (entry_of line.now)))
            (entry_line self.now.clock (held_entries self.now.held.items) (entry_of line.now))) }
    {
        let held = self.held.as_slice();
        if is_wanted(&self.wanted, line_clearance(held, line)) {
            push_line(alloc, out, held, line, self.clock)
        } else {
            Ok(())
        }
    }

    /// Holds a line, in place of what no later line looks at.
    fn remember(&mut self, line: Line) -> Result<(), AllocError>
        ensures serve { OnOk result ((older : List Entry)
            → Serve self.old.wanted (held_entries self.old.held.items) older
            → Serve self.new.wanted (held_entries self.new.held.items)
            (entry_of line ∷ older)) }
        ensures wanted { self.new.wanted ≡ self.old.wanted }
        ensures clock { self.new.clock ≡ self.old.clock }
    {
        self.make_way(&line);
        self.held.push(line)?;
        Ok(())
    }

    /// Gives up what no later line looks at, once this line comes.
    fn make_way(&mut self, line: &Line)
        ensures serve { (older : List Entry)
            → Serve self.old.wanted (held_entries self.old.held.items) older
            → Serve self.new.wanted (entry_of line.now ∷ held_entries self.new.held.items)
            (entry_of line.now ∷ older) }
        ensures wanted { self.new.wanted ≡ self.old.wanted }
        ensures clock { self.new.clock ≡ self.old.clock }
    {
        match line {
            Line::Carried(_) => self.forget(),
            Line::Withdrawn(_) => {}
        }
    }

    /// Gives up the last lines that no later line looks at.
    fn forget(&mut self)
        ensures held { held_entries self.new.held.items
            ≡ drop (idle_at_end self.old.wanted (held_entries self.old.held.items))
            (held_entries self.old.held.items) }
        ensures wanted { self.new.wanted ≡ self.old.wanted }
        ensures clock { self.new.clock ≡ self.old.clock }
    {
        let left = self.held.len().saturating_sub(self.idle_at_end());
        self.held.truncate(left);
    }

    /// How many lines at the end no later line looks at but the next: one that withdraws, with the
    /// deed before it; or one that is not remembered.
    fn idle_at_end(&self) -> usize
        ensures { result ≡ idle_at_end self.now.wanted (held_entries self.now.held.items) }
    {
        match self.held.as_slice().split_last() {
            Some((Line::Withdrawn(_), older)) => withdrawn_with(older),
            Some((Line::Carried(one), _)) => {
                if is_remembered(&self.wanted, one) {
                    0
                } else {
                    1
                }
            }
            None => 0,
        }
    }
}

/// A line that withdraws, after these lines, with the deed before it, if that is there.
fn withdrawn_with(before: &[Line]) -> usize
    ensures { result ≡ withdrawn_with (reverse (map entry_of before.now)) }
{
    match before.split_last() {
        Some((Line::Carried(_), _)) => 2,
        _ => 1,
    }
}

/// Whether later lines may look at a line.
fn is_remembered(wanted: &Option<ClearanceId>, one: &Carried) -> bool
    ensures { result ≡ is_remembered wanted.now (deed_of one.now.deed) (view one.now.reply) }
{
    let deed = &one.deed;
    is_accepted(&one.reply)
        && ((deed_steps(deed).is_some() || is_amending_deed(deed))
            && is_wanted(wanted, carried_clearance(one)))
}

/// Whether a deed turns a step into a Leave.
fn is_amending_deed(deed: &Deed) -> bool
    ensures { result ≡ is_amending_deed (deed_of deed.now) }
{
    match deed {
        Deed::Command(command) => is_amending(&command.kind),
        Deed::Update(_) | Deed::Archive(_) => false,
    }
}

/// Whether a command turns a step into a Leave.
fn is_amending(kind: &Kind) -> bool
    ensures { result ≡ is_amending kind.now }
{
    match kind {
        Kind::Amend { .. } => true,
        _ => false,
    }
}

/// Writes the line of one that does not hold its sum.
#[tactic(auto, unfolding(crate::specs::Walked::bad_line))]
fn push_bad(alloc: Global, out: &mut String, number: u64) -> Result<(), AllocError>
    ensures { OnOk result (string_bytes out.new ≡ string_bytes out.old ++ bad_line number) }
{
    push_number(alloc, out, number)?;
    out.push_str("  -  -  -  -  does not hold its sum\n")
}

/// The commands of a chain, as far as it was walked.
#[derive(Drop)]
pub struct WalkedCommands {
    wanted: Option<ClearanceId>,
    /// The last deed that was accepted: it was carried out unless the next line withdraws it.
    last: Option<Carried>,
    ghost accepted: { last_accepted last ≡ true },
}

impl WalkedCommands {
    /// Before the first line.
    pub fn new(wanted: Option<ClearanceId>) -> WalkedCommands
        ensures wanted { result.wanted ≡ wanted }
        ensures last { open_entries result.last ≡ [] }
    {
        WalkedCommands { wanted, last: None }
    }

    /// Takes a step, and writes the command before it, if that was carried out and is wanted. What
    /// does not hold its sum is passed over, as updates and archives are.
    pub fn step(&mut self, alloc: Global, out: &mut String, step: Step) -> Result<(), AllocError>
        ensures text { OnOk result ((rest : List Entry) → string_bytes out.old
            ++ commands_text (wanted_of self.old.wanted (carried_out
            (open_entries self.old.last ++ older_with rest (seen_step step))))
            ≡ string_bytes out.new ++ commands_text (wanted_of self.new.wanted (carried_out
            (open_entries self.new.last ++ rest)))) }
        ensures wanted { self.new.wanted ≡ self.old.wanted }
    {
        match step {
            Step::Bad(_) => Ok(()),
            Step::Holds(line) => {
                let (done, next) = clr_verify::after_line(self.last.take(), line);
                self.last = next;
                self.push(alloc, out, done)
            }
        }
    }

    /// Writes the last deed, after all lines, if it is a command.
    pub fn end(&mut self, alloc: Global, out: &mut String) -> Result<(), AllocError>
        ensures text { OnOk result (string_bytes out.new ≡ string_bytes out.old
            ++ commands_text (wanted_of self.old.wanted
            (carried_out (open_entries self.old.last)))) }
    {
        let last = self.last.take();
        self.push(alloc, out, last)
    }

    /// Writes a command, if there is one that is wanted.
    #[tactic(auto, unfolding(clr_changes::specs::Deeds::commands_among))]
    fn push(&self, alloc: Global, out: &mut String, done: Option<Carried>) -> Result<(), AllocError>
        ensures { OnOk result (string_bytes out.new ≡ string_bytes out.old
            ++ commands_text (wanted_of self.now.wanted (map pair_of (answered_of done)))) }
    {
        match &done {
            Some(one) => self.push_one(alloc, out, one),
            None => Ok(()),
        }
    }

    /// Writes a command, if it is wanted. An update or an archive is passed over.
    #[tactic(auto, unfolding(clr_changes::specs::Deeds::commands_among))]
    fn push_one(&self, alloc: Global, out: &mut String, one: &Carried) -> Result<(), AllocError>
        ensures { OnOk result (string_bytes out.new ≡ string_bytes out.old
            ++ if_wanted (is_wanted self.now.wanted
            (clearance_of (deed_of one.now.deed) (view one.now.reply)))
            (commands_text (commands_among (deed_of one.now.deed ∷ [])))) }
    {
        if !is_wanted(&self.wanted, carried_clearance(one)) {
            return Ok(());
        }
        match &one.deed {
            Deed::Command(command) => push_command(alloc, out, command),
            Deed::Update(_) | Deed::Archive(_) => Ok(()),
        }
    }
}
