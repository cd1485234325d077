//! A register is checked against its journal, whose lines are run again one by one.
ghost use Rattle.std.specs.Prelude.{◌≡◌, ◌≢◌, ◌⊎◌, ◌+◌, ◌∷◌, ◌++◌, [], ℕ, IfErr, IfOk, IsSome};
ghost use Rattle.std.specs.Prelude.{IfSome, List, None, OnErr, OnOk, Some, false, true};
ghost use Rattle.serde_json.specs.View.{view};
ghost use Rattle.clr_changes.specs.Deeds.{after_deed, deed_of};
ghost use Rattle.clr_journal.specs.Answered.{deed_reply};
ghost use Rattle.clr_rules.specs.Good.{IsGood};
ghost use Rattle.clr_rules.specs.Register.{Register};
ghost use Rattle.clr_rules.specs.declared.place.Place.{Place as AnyPlace};
ghost use Rattle.clr_load.specs.Tables.{tables_of};
ghost use Rattle.clr_journal.specs.Journals.{next_place, turn_after, withdraws};
ghost use Rattle.clr_journal.specs.Line.{Entry, carried, entry_of, is_accepted, withdrawn};
ghost use Rattle.clr_journal.specs.declared.reading.Turn.{Turn};
ghost use Rattle.clr_chain.specs.First.{end_at, read_first};
ghost use Rattle.clr_chain.specs.Walking.{bad, part_of, step_of};
ghost use Rattle.clr_checking.specs.Brief.{DecidesDeed, IsDeedTaken, is_brief_deed};
ghost use Rattle.clr_checking.specs.Checking.{IsChecked, IsCheckedFrom, IsRefused, IsRefusedFrom};
ghost use Rattle.clr_checking.specs.Checking.{NoneHas, Refuses, RefusesFrom, RefusesOfCopy};
ghost use Rattle.clr_checking.specs.Checking.{RefusesRun};
ghost use Rattle.clr_checking.specs.CheckingOn.{AnswersElse, CheckedTo, CheckedToFrom, ComesFrom};
ghost use Rattle.clr_checking.specs.CheckingOn.{ComparesElse, IsAfter, IsAt, IsOfRun, IsReady};
ghost use Rattle.clr_checking.specs.CheckingOn.{RanOver, RunsOn, Settles, Waits};
ghost use Rattle.clr_verify.specs.Replies.{IsReply};

use crate::deeds::{carry_out, is_due};
use crate::fault::CheckFault;
use clr_chain::{Step, Walk};
use clr_desk::{Desk, DeskBook, Unkept};
use clr_journal::{Carried, Line, is_accepted};
use clr_rules::Place;
use clr_verify::compare;
use std::alloc::{AllocError, Global};

/// How far a register was checked against its journal.
#[derive(Drop)]
pub struct Checking<'a> {
    /// Over the lines so far, kept nowhere.
    desk: Desk<Unkept>,
    walk: Walk,
    /// The place of a copy that the desk begins with, until the lines come to it.
    from: Option<Place>,
    /// The place of the register, and its book.
    place: Place,
    book: &'a DeskBook,
    /// Whether the lines came to that place, and the tables were the same there.
    is_met: bool,
    /// The last deed that was accepted: it is carried out unless the next line withdraws it.
    last: Option<Carried>,
    /// The number of the place that is sought, where the sum at the last deed is another: the
    /// next line may withdraw that deed, and have the sum.
    missed: Option<u64>,
    count: usize,
}

impl<'a> Checking<'a> {
    /// Begins over a good register, with which the journal began, at the first line.
    pub fn over(
        alloc: Global,
        desk: Desk<Unkept>,
        first: Place,
        place: Place,
        book: &'a DeskBook,
    ) -> Result<Checking<'a>, CheckFault>
        requires { IsGood desk.book.register }
        ensures ready { IfOk result IsReady }
        ensures same_id { OnOk result (place.id ≡ first.id) }
        ensures begun { IfOk result (λ checking. CheckedTo desk.book.register first place
            book.entry.now.register checking []) }
        ensures refused { IfErr result (RefusesRun desk.book.register first [] place
            book.entry.now.register) }
    {
        let checking = Checking {
            desk,
            walk: Walk::from(first),
            from: None,
            place,
            book,
            is_met: false,
            last: None,
            missed: None,
            count: 0,
        };
        checking.met_at_first(alloc)
    }

    /// Begins over the register of a copy, which is at a place in the journal.
    pub fn over_copy(
        alloc: Global,
        desk: Desk<Unkept>,
        from: Place,
        first: Place,
        place: Place,
        book: &'a DeskBook,
    ) -> Result<Checking<'a>, CheckFault>
        requires { IsGood desk.book.register }
        ensures ready { IfOk result IsReady }
        ensures same_id { OnOk result (place.id ≡ first.id) }
        ensures begun { IfOk result (λ checking. CheckedToFrom desk.book.register from first place
            book.entry.now.register checking []) }
        ensures refused { IfErr result (RefusesFrom desk.book.register from first [] [] place
            book.entry.now.register) }
    {
        let checking = Checking {
            desk,
            walk: Walk::from(first),
            from: Some(from),
            place,
            book,
            is_met: false,
            last: None,
            missed: None,
            count: 0,
        };
        checking.met_at_first(alloc)
    }

    /// Looks whether the places are of this journal, and whether the first line is at them.
    fn met_at_first(self, alloc: Global) -> Result<Checking<'a>, CheckFault>
        requires ready { IsReady self }
        requires settled { self.missed ≡ None }
        ensures ready { IfOk result IsReady }
        ensures same_id { OnOk result (self.entry.place.id ≡ self.entry.walk.id) }
        ensures went { IfOk result (λ met. (began : Register) (first place : AnyPlace)
            (R : Register) → self.entry.walk.id ≡ first.id → self.entry.walk.end ≡ end_at first
            → self.entry.from ≡ None → RanOver began first place R self.entry []
            → CheckedTo began first place R met []) }
        ensures went_from { IfOk result (λ met. (copied : Register) (at first place : AnyPlace)
            (R : Register) → self.entry.walk.id ≡ first.id → self.entry.walk.end ≡ end_at first
            → self.entry.from ≡ Some at
            → (at.id ≡ first.id → Waits copied at first place R self.entry [])
            → CheckedToFrom copied at first place R met []) }
        ensures refused { IfErr result (λ fault. (began : Register) (first place : AnyPlace)
            (R : Register) → self.entry.walk.id ≡ first.id → self.entry.walk.end ≡ end_at first
            → self.entry.from ≡ None → RanOver began first place R self.entry []
            → RefusesRun began first [] place R fault) }
        ensures refused_from { IfErr result (λ fault. (copied : Register)
            (at first place : AnyPlace) (R : Register) → self.entry.walk.id ≡ first.id
            → self.entry.walk.end ≡ end_at first → self.entry.from ≡ Some at
            → self.entry.place ≡ place
            → (at.id ≡ first.id → Waits copied at first place R self.entry [])
            → RefusesFrom copied at first [] [] place R fault) }
    {
        let mut checking = self;
        match checking.meet_first(alloc) {
            Ok(()) => Ok(checking),
            Err(fault) => Err(fault),
        }
    }

    /// The same of a checking that stays.
    fn meet_first(&mut self, alloc: Global) -> Result<(), CheckFault>
        requires ready { IsReady self.old }
        requires settled { self.old.missed ≡ None }
        ensures ready { OnOk result (IsReady self.new) }
        ensures same_id { OnOk result (self.old.place.id ≡ self.old.walk.id) }
        ensures went { OnOk result ((began : Register) (first place : AnyPlace) (R : Register)
            → self.old.walk.id ≡ first.id → self.old.walk.end ≡ end_at first
            → self.old.from ≡ None → RanOver began first place R self.old []
            → CheckedTo began first place R self.new []) }
        ensures went_from { OnOk result ((copied : Register) (at first place : AnyPlace)
            (R : Register) → self.old.walk.id ≡ first.id → self.old.walk.end ≡ end_at first
            → self.old.from ≡ Some at
            → (at.id ≡ first.id → Waits copied at first place R self.old [])
            → CheckedToFrom copied at first place R self.new []) }
        ensures refused { IfErr result (λ fault. (began : Register) (first place : AnyPlace)
            (R : Register) → self.old.walk.id ≡ first.id → self.old.walk.end ≡ end_at first
            → self.old.from ≡ None → RanOver began first place R self.old []
            → RefusesRun began first [] place R fault) }
        ensures refused_from { IfErr result (λ fault. (copied : Register)
            (at first place : AnyPlace) (R : Register) → self.old.walk.id ≡ first.id
            → self.old.walk.end ≡ end_at first → self.old.from ≡ Some at
            → self.old.place ≡ place
            → (at.id ≡ first.id → Waits copied at first place R self.old [])
            → RefusesFrom copied at first [] [] place R fault) }
    {
        if !self.is_of_journal() {
            return Err(CheckFault::OtherRegister);
        }
        let number = self.walk.end.turn.last;
        self.begin_at(alloc, number, false)
    }

    /// The next line, as it is without its line feed. After a fault no line is taken any more.
    pub fn line(&mut self, alloc: Global, text: &[u8]) -> Result<(), CheckFault>
        requires { IsReady self.old }
        ensures ready { OnOk result (IsReady self.new) }
        ensures went { OnOk result ((began : Register) (first place : AnyPlace) (R : Register)
            (texts : List (List ℕ)) → CheckedTo began first place R self.old texts
            → CheckedTo began first place R self.new (texts ++ text.now ∷ [])) }
        ensures went_from { OnOk result ((copied : Register) (at first place : AnyPlace)
            (R : Register) (texts : List (List ℕ))
            → CheckedToFrom copied at first place R self.old texts
            → CheckedToFrom copied at first place R self.new (texts ++ text.now ∷ [])) }
        ensures end { OnOk result
            (self.new.walk.end ≡ (step_of self.old.walk.end text.now).1) }
        ensures id { self.new.walk.id ≡ self.old.walk.id }
        ensures refused { IfErr result (λ fault. (began : Register) (first place : AnyPlace)
            (R : Register) (texts : List (List ℕ)) → CheckedTo began first place R self.old texts
            → Refuses began first texts text.now place R fault) }
        ensures refused_from { IfErr result (λ fault. (copied : Register)
            (at first place : AnyPlace) (R : Register) (texts : List (List ℕ))
            → CheckedToFrom copied at first place R self.old texts
            → RefusesOfCopy copied at first texts text.now place R fault) }
        ensures bad { IfErr result (λ fault. (n : ℕ) → fault ≡ CheckFault.BadLine n
            → (step_of self.old.walk.end text.now).0 ≡ bad n) }
    {
        let seen = self.walk.step(alloc, text)?;
        match seen {
            Step::Bad(number) => Err(CheckFault::BadLine(number)),
            Step::Holds(line) => self.next(alloc, line),
        }
    }

    /// The number that a line more would have.
    pub fn next_number(&self) -> u64
        ensures { result ≡ next_place self.now.walk.end.turn.last }
    {
        self.walk.end.turn.last.saturating_add(1)
    }

    /// The first line of the next part, as it is without its line feed.
    pub fn part(&mut self, alloc: Global, text: &[u8]) -> Result<(), CheckFault>
        requires { IsReady self.old }
        ensures ready { OnOk result (IsReady self.new) }
        ensures goes_on { OnOk result
            ((true, self.new.walk.end) ≡ part_of self.old.walk.id self.old.walk.end
            (read_first text.now)) }
        ensures went { OnOk result ((began : Register) (first place : AnyPlace) (R : Register)
            (texts : List (List ℕ)) → CheckedTo began first place R self.old texts
            → CheckedTo began first place R self.new texts) }
        ensures went_from { OnOk result ((copied : Register) (at first place : AnyPlace)
            (R : Register) (texts : List (List ℕ))
            → CheckedToFrom copied at first place R self.old texts
            → CheckedToFrom copied at first place R self.new texts) }
        ensures id { self.new.walk.id ≡ self.old.walk.id }
        ensures refused { IfErr result (λ fault. (fault ≡ CheckFault.NoMemory)
            ⊎ ((fault ≡ CheckFault.BadLine self.old.walk.end.turn.last)
            × ((part_of self.old.walk.id self.old.walk.end (read_first text.now)).0 ≡ false))) }
    {
        let last = self.walk.end.turn.last;
        let goes = self.walk.next_part(alloc, text)?;
        if goes {
            Ok(())
        } else {
            Err(CheckFault::BadLine(last))
        }
    }

    /// After all lines: how many deeds were carried out.
    pub fn end(self, alloc: Global) -> Result<usize, CheckFault>
        requires { IsReady self }
        ensures yes { IfOk result (λ count. (began : Register) (first place : AnyPlace)
            (R : Register) (texts : List (List ℕ)) → CheckedTo began first place R self.entry texts
            → IsChecked began first texts place R count) }
        ensures yes_from { IfOk result (λ count. (copied : Register) (at first place : AnyPlace)
            (R : Register) (texts : List (List ℕ))
            → CheckedToFrom copied at first place R self.entry texts
            → IsCheckedFrom copied at first texts place R count) }
        ensures refused { IfErr result (λ fault. (began : Register) (first place : AnyPlace)
            (R : Register) (texts : List (List ℕ)) → CheckedTo began first place R self.entry texts
            → IsRefused began first texts place R fault) }
        ensures refused_from { IfErr result (λ fault. (copied : Register)
            (at first place : AnyPlace) (R : Register) (texts : List (List ℕ))
            → CheckedToFrom copied at first place R self.entry texts
            → IsRefusedFrom copied at first texts place R fault) }
        ensures of_run { IfErr result IsOfRun }
    {
        let mut checking = self;
        checking.ended(alloc)
    }

    /// The same of a checking that stays.
    fn ended(&mut self, alloc: Global) -> Result<usize, CheckFault>
        requires { IsReady self.old }
        ensures yes { IfOk result (λ count. (began : Register) (first place : AnyPlace)
            (R : Register) (texts : List (List ℕ)) → CheckedTo began first place R self.old texts
            → IsChecked began first texts place R count) }
        ensures yes_from { IfOk result (λ count. (copied : Register) (at first place : AnyPlace)
            (R : Register) (texts : List (List ℕ))
            → CheckedToFrom copied at first place R self.old texts
            → IsCheckedFrom copied at first texts place R count) }
        ensures refused { IfErr result (λ fault. (began : Register) (first place : AnyPlace)
            (R : Register) (texts : List (List ℕ)) → CheckedTo began first place R self.old texts
            → IsRefused began first texts place R fault) }
        ensures refused_from { IfErr result (λ fault. (copied : Register)
            (at first place : AnyPlace) (R : Register) (texts : List (List ℕ))
            → CheckedToFrom copied at first place R self.old texts
            → IsRefusedFrom copied at first texts place R fault) }
        ensures of_run { IfErr result IsOfRun }
    {
        self.settled()?;
        self.close(alloc)?;
        if !self.is_met {
            return Err(CheckFault::TooShort);
        }
        match &self.from {
            None => Ok(self.count),
            Some(_) => Err(CheckFault::TooShort),
        }
    }

    /// A line that holds its sum.
    fn next(&mut self, alloc: Global, line: Line) -> Result<(), CheckFault>
        requires { IsReady self.old }
        ensures refused { IfErr result (λ fault. (began : Register) (first place : AnyPlace)
            (R : Register) (entries : List Entry) → self.old.from ≡ None
            → IsAfter first place self.old.walk.end.sum (entry_of line) entries
            → RunsOn began first place R self.old entries
            → RefusesRun began first (entries ++ entry_of line ∷ []) place R fault
            × Settles (turn_after (entry_of line)) fault) }
        ensures refused_from { IfErr result (λ fault. (copied : Register)
            (at first place : AnyPlace) (R : Register) (before : List Entry)
            → IsAfter first place self.old.walk.end.sum (entry_of line) before
            → Waits copied at first place R self.old before
            → RefusesFrom copied at first (before ++ entry_of line ∷ []) [] place R fault
            × Settles (turn_after (entry_of line)) fault) }
        ensures passed { OnOk result ((at : AnyPlace) → self.new.from ≡ Some at
            → self.new.missed ≡ None → NoneHas at.number (entry_of line ∷ [])) }
        ensures settled { OnOk result
            ((self.old.missed ≡ None) ⊎ (withdraws (entry_of line ∷ []) ≡ true)) }
        ensures ready { OnOk result (IsReady self.new) }
        ensures walk { self.new.walk ≡ self.old.walk }
        ensures begun { self.old.from ≡ None → self.new.from ≡ None }
        ensures went { OnOk result ((began : Register) (first place : AnyPlace) (R : Register)
            (entries : List Entry) → self.old.from ≡ None
            → IsAfter first place self.old.walk.end.sum (entry_of line) entries
            → RunsOn began first place R self.old entries
            → RunsOn began first place R self.new (entries ++ entry_of line ∷ [])) }
        ensures kept { OnOk result ((began : Register) (first place : AnyPlace) (R : Register)
            → self.old.from ≡ None → RunsOn began first place R self.old []
            → withdraws (entry_of line ∷ []) ≡ false) }
        ensures waited { OnOk result ((copied : Register) (at first place : AnyPlace)
            (R : Register) (before : List Entry)
            → IsAfter first place self.old.walk.end.sum (entry_of line) before
            → Waits copied at first place R self.old before
            → ComesFrom copied at first place R self.new (before ++ entry_of line ∷ []) []) }
        ensures of_run { IfErr result IsOfRun }
    {
        match &self.from {
            Some(_) => self.wait(alloc, line),
            None => self.run(alloc, line),
        }
    }

    /// A line up to the place of a copy. Nothing is run.
    fn wait(&mut self, alloc: Global, line: Line) -> Result<(), CheckFault>
        requires { IsReady self.old }
        ensures refused { IfErr result (λ fault. (copied : Register)
            (at first place : AnyPlace) (R : Register) (before : List Entry)
            → IsAfter first place self.old.walk.end.sum (entry_of line) before
            → Waits copied at first place R self.old before
            → RefusesFrom copied at first (before ++ entry_of line ∷ []) [] place R fault
            × Settles (turn_after (entry_of line)) fault) }
        ensures passed { OnOk result ((at : AnyPlace) → self.new.from ≡ Some at
            → self.new.missed ≡ None → NoneHas at.number (entry_of line ∷ [])) }
        ensures settled { OnOk result
            ((self.old.missed ≡ None) ⊎ (withdraws (entry_of line ∷ []) ≡ true)) }
        ensures ready { OnOk result (IsReady self.new) }
        ensures walk { self.new.walk ≡ self.old.walk }
        ensures waited { OnOk result ((copied : Register) (at first place : AnyPlace)
            (R : Register) (before : List Entry)
            → IsAfter first place self.old.walk.end.sum (entry_of line) before
            → Waits copied at first place R self.old before
            → ComesFrom copied at first place R self.new (before ++ entry_of line ∷ []) []) }
        ensures of_run { IfErr result IsOfRun }
    {
        match line {
            Line::Withdrawn(number) => {
                self.missed = None;
                self.begin_at(alloc, number, false)
            }
            Line::Carried(one) => match self.missed {
                Some(number) => Err(CheckFault::Differs(number)),
                None => self.begin_at(alloc, one.receipt.number, is_accepted(&one.reply)),
            },
        }
    }

    /// A line that is run.
    fn run(&mut self, alloc: Global, line: Line) -> Result<(), CheckFault>
        requires ready { IsReady self.old }
        requires begun { self.old.from ≡ None }
        ensures refused { IfErr result (λ fault. (began : Register) (first place : AnyPlace)
            (R : Register) (entries : List Entry)
            → IsAfter first place self.old.walk.end.sum (entry_of line) entries
            → RunsOn began first place R self.old entries
            → RefusesRun began first (entries ++ entry_of line ∷ []) place R fault
            × Settles (turn_after (entry_of line)) fault) }
        ensures settled { OnOk result
            ((self.old.missed ≡ None) ⊎ (withdraws (entry_of line ∷ []) ≡ true)) }
        ensures ready { OnOk result (IsReady self.new) }
        ensures walk { self.new.walk ≡ self.old.walk }
        ensures begun { self.old.from ≡ None → self.new.from ≡ None }
        ensures went { OnOk result ((began : Register) (first place : AnyPlace) (R : Register)
            (entries : List Entry)
            → IsAfter first place self.old.walk.end.sum (entry_of line) entries
            → RunsOn began first place R self.old entries
            → RunsOn began first place R self.new (entries ++ entry_of line ∷ [])) }
        ensures kept { OnOk result ((began : Register) (first place : AnyPlace) (R : Register)
            → RunsOn began first place R self.old [] → withdraws (entry_of line ∷ []) ≡ false) }
        ensures of_run { IfErr result IsOfRun }
    {
        match line {
            Line::Withdrawn(number) => self.withdraw(alloc, number),
            Line::Carried(one) => match self.missed {
                Some(number) => Err(CheckFault::Differs(number)),
                None => match self.close(alloc) {
                    Ok(()) => self.take_deed(alloc, one),
                    Err(fault) => Err(fault),
                },
            },
        }
    }

    /// A deed, where none is open. It is carried out once it is known that the next line does
    /// not withdraw it.
    fn take_deed(&mut self, alloc: Global, one: Carried) -> Result<(), CheckFault>
        requires ready { IsReady self.old }
        requires closed { self.old.last ≡ None }
        requires settled { self.old.missed ≡ None }
        requires begun { self.old.from ≡ None }
        ensures refused { IfErr result (λ fault. (began : Register) (first place : AnyPlace)
            (R : Register) (entries : List Entry)
            → IsAfter first place self.old.walk.end.sum
            (carried one.receipt (deed_of one.deed) (view one.reply)) entries
            → RanOver began first place R self.old entries
            → RefusesRun began first (entries
            ++ carried one.receipt (deed_of one.deed) (view one.reply) ∷ []) place R fault) }
        ensures ready { OnOk result (IsReady self.new) }
        ensures walk { self.new.walk ≡ self.old.walk }
        ensures from { self.new.from ≡ self.old.from }
        ensures stays { self.old.is_met ≡ true → self.new.is_met ≡ true }
        ensures shut { OnOk result (self.new.last ≡ None → is_accepted (view one.reply) ≡ false) }
        ensures unopened { OnErr result (is_accepted (view one.reply) ≡ false) }
        ensures went { OnOk result ((began : Register) (first place : AnyPlace) (R : Register)
            (entries : List Entry)
            → IsAfter first place self.old.walk.end.sum
            (carried one.receipt (deed_of one.deed) (view one.reply)) entries
            → RanOver began first place R self.old entries
            → RanOver began first place R self.new (entries
            ++ carried one.receipt (deed_of one.deed) (view one.reply) ∷ [])) }
        ensures of_run { IfErr result IsOfRun }
    {
        let number = one.receipt.number;
        if is_accepted(&one.reply) {
            self.take_accepted(one);
            return Ok(());
        }
        if !self.is_expected(number) {
            return Err(CheckFault::Differs(number));
        }
        let refused = self.refuse(alloc, one)?;
        self.compare_at(alloc, refused)
    }

    /// A deed that was accepted, where none is open.
    fn take_accepted(&mut self, one: Carried)
        requires settled { self.old.missed ≡ None }
        ensures last { self.new.last ≡ Some one }
        ensures others { self.new ≡ record self.old {
          last = self.new.last;
          missed = self.new.missed;
        } }
        ensures expected { self.new.missed ≡ None → one.receipt.number ≡ self.old.place.number
            → self.old.place.sum ≡ self.old.walk.end.sum }
        ensures missed { IfSome self.new.missed (λ number. (number ≡ one.receipt.number)
            × (number ≡ self.old.place.number) × (self.old.place.sum ≢ self.old.walk.end.sum)) }
    {
        let number = one.receipt.number;
        if !self.is_expected(number) {
            self.missed = Some(number);
        }
        self.last = Some(one);
    }

    /// A line that withdraws the deed of a number. Where none is open, it is the one after which
    /// the run begins, that of the copy's place.
    fn withdraw(&mut self, alloc: Global, number: u64) -> Result<(), CheckFault>
        requires ready { IsReady self.old }
        requires begun { self.old.from ≡ None }
        ensures refused { IfErr result (λ fault. (began : Register) (first place : AnyPlace)
            (R : Register) (entries : List Entry)
            → IsAfter first place self.old.walk.end.sum (withdrawn number) entries
            → RunsOn began first place R self.old entries
            → RefusesRun began first (entries ++ withdrawn number ∷ []) place R fault) }
        ensures ready { OnOk result (IsReady self.new) }
        ensures walk { self.new.walk ≡ self.old.walk }
        ensures from { self.new.from ≡ self.old.from }
        ensures was_open { OnOk result (IsSome self.old.last) }
        ensures went { OnOk result ((began : Register) (first place : AnyPlace) (R : Register)
            (entries : List Entry)
            → IsAfter first place self.old.walk.end.sum (withdrawn number) entries
            → RunsOn began first place R self.old entries
            → RunsOn began first place R self.new (entries ++ withdrawn number ∷ [])) }
        ensures of_run { IfErr result IsOfRun }
    {
        if self.last.is_none() {
            return Err(CheckFault::Differs(number));
        }
        self.last = None;
        self.missed = None;
        if !self.is_expected(number) {
            return Err(CheckFault::Differs(number));
        }
        self.compare_at(alloc, number)
    }

    /// At a number before which nothing is run: where the lines come to the copy's place, or begin,
    /// the register's place may be the same.
    fn begin_at(&mut self, alloc: Global, number: u64, is_open: bool) -> Result<(), CheckFault>
        requires settled { self.old.missed ≡ None }
        ensures refused { IfErr result (λ fault. (began : Register) (first place : AnyPlace)
            (R : Register) → IsAt first place number self.old.walk.end.sum []
            → self.old.from ≡ None → RanOver began first place R self.old []
            → RefusesRun began first [] place R fault) }
        ensures refused_from { IfErr result (λ fault. (copied : Register)
            (at first place : AnyPlace) (R : Register) (before : List Entry)
            → IsAt first place number self.old.walk.end.sum before
            → Waits copied at first place R self.old before
            → RefusesFrom copied at first before [] place R fault) }
        ensures shut { IfErr result (Settles (record { last = number; is_open = is_open })) }
        ensures passed { OnOk result ((at : AnyPlace) → self.new.from ≡ Some at
            → self.new.missed ≡ None → number ≢ at.number) }
        ensures begun { self.old.from ≡ None → self.new.from ≡ None }
        ensures others { self.new ≡ record self.old {
          from = self.new.from;
          is_met = self.new.is_met;
          missed = self.new.missed;
        } }
        ensures went { OnOk result ((began : Register) (first place : AnyPlace) (R : Register)
            → IsAt first place number self.old.walk.end.sum []
            → self.old.from ≡ None → RanOver began first place R self.old []
            → RunsOn began first place R self.new []) }
        ensures waited { OnOk result ((copied : Register) (at first place : AnyPlace)
            (R : Register) (before : List Entry)
            → IsAt first place number self.old.walk.end.sum before
            → Waits copied at first place R self.old before
            → ComesFrom copied at first place R self.new before []) }
        ensures of_run { IfErr result IsOfRun }
    {
        if !self.come_to(number) {
            return self.miss(number, is_open);
        }
        if self.from.is_some() {
            return Ok(());
        }
        if !self.is_expected(number) {
            return self.miss(number, is_open);
        }
        self.compare_at(alloc, number)
    }

    /// At the number of a place, where the sum is another: if the deed is open, the next line
    /// may withdraw it.
    fn miss(&mut self, number: u64, is_open: bool) -> Result<(), CheckFault>
        ensures others { self.new ≡ record self.old { missed = self.new.missed } }
        ensures missed { OnOk result ((is_open ≡ true) × (self.new.missed ≡ Some number)) }
        ensures fault { IfErr result (λ fault. (fault ≡ CheckFault.Differs number)
            × (is_open ≡ false)) }
        ensures of_run { IfErr result IsOfRun }
    {
        if is_open {
            self.missed = Some(number);
            Ok(())
        } else {
            Err(CheckFault::Differs(number))
        }
    }

    /// Refuses, where the sum at a place was another and no line withdrew the deed there.
    fn settled(&self) -> Result<(), CheckFault>
        ensures none { OnOk result (self.now.missed ≡ None) }
        ensures some { IfErr result (λ fault. (number : ℕ) × (self.now.missed ≡ Some number)
            × (fault ≡ CheckFault.Differs number)) }
        ensures of_run { IfErr result IsOfRun }
    {
        match self.missed {
            None => Ok(()),
            Some(number) => Err(CheckFault::Differs(number)),
        }
    }

    /// Carries out the open deed, if there is one, and looks at its reply; and compares the
    /// tables, if it is that of the register's place.
    fn close(&mut self, alloc: Global) -> Result<(), CheckFault>
        requires ready { IsReady self.old }
        requires settled { self.old.missed ≡ None }
        ensures refused { IfErr result (λ fault. (began : Register) (first place : AnyPlace)
            (R : Register) (entries : List Entry) → self.old.from ≡ None
            → RanOver began first place R self.old entries
            → RefusesRun began first entries place R fault) }
        ensures some { OnErr result (IsSome self.old.last) }
        ensures shut { IfErr result (λ fault. (turn : Turn) → Settles turn fault) }
        ensures missed { self.new.missed ≡ self.old.missed }
        ensures stays { self.old.is_met ≡ true → self.new.is_met ≡ true }
        ensures ready { OnOk result (IsReady self.new) }
        ensures closed { self.new.last ≡ None }
        ensures went { OnOk result ((began : Register) (first place : AnyPlace) (R : Register)
            (entries : List Entry) → self.old.from ≡ None
            → RanOver began first place R self.old entries
            → RanOver began first place R self.new entries) }
        ensures walk { self.new.walk ≡ self.old.walk }
        ensures from { self.new.from ≡ self.old.from }
        ensures of_run { IfErr result IsOfRun }
    {
        let Some(one) = self.last.take() else {
            return Ok(());
        };
        let number = one.receipt.number;
        match self.carry_out(alloc, one) {
            Ok(()) => self.compare_at(alloc, number),
            Err(fault) => Err(fault),
        }
    }

    /// Carries out a deed, and looks at its reply.
    fn carry_out(&mut self, alloc: Global, one: Carried) -> Result<(), CheckFault>
        requires { IsGood self.old.desk.book.register }
        ensures fault { IfErr result (AnswersElse self.old.desk.book.register one) }
        ensures good { OnOk result (IsGood self.new.desk.book.register) }
        ensures register { OnOk result (self.new.desk.book.register
            ≡ after_deed self.old.desk.book.register (deed_of one.deed)) }
        ensures reply { OnOk result (IsReply (view one.reply)
            (deed_reply self.old.desk.book.register (deed_of one.deed))) }
        ensures count { OnOk result (self.new.count ≡ self.old.count + 1) }
        ensures others { self.new ≡ record self.old {
          desk = self.new.desk;
          count = self.new.count;
        } }
        ensures of_run { IfErr result IsOfRun }
    {
        let Carried {
            receipt,
            deed,
            reply,
        } = one;
        let Some(count) = self.count.checked_add(1) else {
            return Err(CheckFault::NoMemory);
        };
        self.count = count;
        if carry_out(alloc, &mut self.desk, deed, &reply)? {
            Ok(())
        } else {
            Err(CheckFault::Reply(receipt.number))
        }
    }

    /// Looks at the reply of a deed that was refused, unless its line may be in brief; and says its
    /// number.
    fn refuse(&self, alloc: Global, one: Carried) -> Result<u64, CheckFault>
        requires { IsGood self.now.desk.book.register }
        ensures fault { IfErr result (AnswersElse self.now.desk.book.register one) }
        ensures whole { IfErr result (λ fault. fault ≡ CheckFault.Reply one.receipt.number
            → is_brief_deed self.now.desk.book.register (deed_of one.deed) (view one.reply)
            ≡ false) }
        ensures number { IfOk result (λ number. number ≡ one.receipt.number) }
        ensures taken { OnOk result
            (IsDeedTaken self.now.desk.book.register (deed_of one.deed) (view one.reply)) }
        ensures of_run { IfErr result IsOfRun }
    {
        let number = one.receipt.number;
        match self.is_due(alloc, &one) {
            Ok(is) => {
                if is {
                    Ok(number)
                } else {
                    Err(CheckFault::Reply(number))
                }
            }
            Err(_) => Err(CheckFault::NoMemory),
        }
    }

    /// Whether a deed that was refused has the reply due in its line, or the line may be in brief.
    fn is_due(&self, alloc: Global, one: &Carried) -> Result<bool, AllocError>
        requires { IsGood self.now.desk.book.register }
        ensures { IfOk result (DecidesDeed self.now.desk.book.register (deed_of one.now.deed)
            (view one.now.reply)) }
    {
        is_due(alloc, self.own_book(), &one.deed, &one.reply)
    }

    /// The book of the run.
    fn own_book(&self) -> &DeskBook
        ensures { result.now ≡ self.now.desk.book }
    {
        self.desk.book()
    }

    /// Where the number is that of the copy's place, the lines come to it, if the sum is its own.
    /// Whether no other sum was found there.
    fn come_to(&mut self, number: u64) -> bool
        ensures begun { self.old.from ≡ None → self.new.from ≡ None }
        ensures waited { result ≡ true → (at : AnyPlace) → self.old.from ≡ Some at
            → (self.new.from ≡ Some at) ⊎ ((self.new.from ≡ None)
            × (number ≡ at.number) × (at.sum ≡ self.old.walk.end.sum)) }
        ensures passed { result ≡ true → (at : AnyPlace) → self.new.from ≡ Some at
            → number ≢ at.number }
        ensures other { result ≡ false → (at : AnyPlace) → self.old.from ≡ Some at
            → (number ≡ at.number) × (at.sum ≢ self.old.walk.end.sum) }
        ensures some { result ≡ false → IsSome self.old.from }
        ensures stays { result ≡ false → self.new.from ≡ self.old.from }
        ensures others { self.new ≡ record self.old { from = self.new.from } }
    {
        let Some(from) = &self.from else {
            return true;
        };
        if from.number != number {
            return true;
        }
        if from.sum.as_str() != self.walk.end.sum.as_str() {
            return false;
        }
        self.from = None;
        true
    }

    /// Whether the places are of this journal.
    fn is_of_journal(&self) -> bool
        ensures place { result ≡ true → self.now.place.id ≡ self.now.walk.id }
        ensures from { result ≡ true → (at : AnyPlace) → self.now.from ≡ Some at
            → at.id ≡ self.now.walk.id }
        ensures other { result ≡ false → (self.now.place.id ≢ self.now.walk.id)
            ⊎ ((at : AnyPlace) × (self.now.from ≡ Some at) × (at.id ≢ self.now.walk.id)) }
    {
        let id = self.walk.id.as_str();
        if let Some(from) = &self.from {
            if from.id.as_str() != id {
                return false;
            }
        }
        self.place.id.as_str() == id
    }

    /// Whether the sum is the register's, if the number is that of its place.
    fn is_expected(&self, number: u64) -> bool
        ensures sum { result ≡ true → number ≡ self.now.place.number
            → self.now.place.sum ≡ self.now.walk.end.sum }
        ensures other { result ≡ false → (number ≡ self.now.place.number)
            × (self.now.place.sum ≢ self.now.walk.end.sum) }
    {
        number != self.place.number || self.place.sum.as_str() == self.walk.end.sum.as_str()
    }

    /// Where the number is that of the register's place, compares the tables.
    fn compare_at(&mut self, alloc: Global, number: u64) -> Result<(), CheckFault>
        ensures fault { IfErr result (ComparesElse self.old number) }
        ensures unmet { OnOk result (self.new.is_met ≡ false → self.old.from ≡ None
            → number ≢ self.old.place.number) }
        ensures met { OnOk result (self.new.is_met ≡ true → self.old.is_met ≡ false
            → (number ≡ self.old.place.number) × (self.old.from ≡ None)
            × (tables_of self.old.book.now.register
            ≡ tables_of self.old.desk.book.register)) }
        ensures same { OnOk result (number ≡ self.old.place.number → self.old.from ≡ None
            → tables_of self.old.book.now.register ≡ tables_of self.old.desk.book.register) }
        ensures others { self.new ≡ record self.old { is_met = self.new.is_met } }
        ensures stays { self.old.is_met ≡ true → self.new.is_met ≡ true }
        ensures of_run { IfErr result IsOfRun }
    {
        if number != self.place.number || self.from.is_some() {
            return Ok(());
        }
        match compare(alloc, self.book, self.own_book())? {
            Some(found) => Err(CheckFault::Tables(found)),
            None => {
                self.is_met = true;
                Ok(())
            }
        }
    }
}
