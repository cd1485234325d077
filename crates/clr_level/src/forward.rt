//! A register is rolled forward through the lines after its place.
ghost use Rattle.std.specs.Prelude.{◌≡◌, ◌∷◌, ℕ, Err, false, IfErr, List, [], map, None, OnOk};
ghost use Rattle.std.specs.Prelude.{Some};
ghost use Rattle.sqlite.specs.State.{Survives};
ghost use Rattle.clr_rules.specs.Good.{IsGood};
ghost use Rattle.clr_rules.specs.Register.{Register};
ghost use Rattle.clr_rules.specs.declared.place.Place.{Place};
ghost use Rattle.clr_journal.specs.Journals.{withdraws};
ghost use Rattle.clr_journal.specs.Line.{Entry, entry_of};
ghost use Rattle.clr_level.specs.Crash.{AreFurther, AreRolled, KeepsTables};
ghost use Rattle.clr_level.specs.Forward.{AreAnswered, AreShallow, Arrives, GoesOn, HasCome};
ghost use Rattle.clr_level.specs.Forward.{IsOfCarrying, IsOfForward, RollsTo, Went, open_after};
ghost use Rattle.clr_level.specs.Forward.{opened_by};
ghost use Rattle.clr_level.specs.Placing.{IsAt};

use crate::deed::carry_deed;
use crate::fault::OpeningFault;
use crate::trying::first_differing;
use clr_chain::step;
use clr_desk::{CommitAt, Desk, DeskFault};
use clr_journal::{Carried, Line, is_accepted};
use clr_rules::Place;
use std::alloc::Global;

/// A desk on its way through the lines after its register's place.
#[derive(Drop)]
pub(crate) struct Forward<K: CommitAt> {
    pub(crate) desk: Desk<K>,
    /// The place after the lines so far.
    pub(crate) at: Place,
    /// The deed of the last line, if it was accepted: it is carried out unless the next line
    /// withdraws it.
    pending: Option<Carried>,
}

/// Carries out what was accepted in these lines and not withdrawn, in order, each deed with the
/// place at its line, and moves the place to the end of the lines, which is given. The deeds are
/// tried first: nothing is carried out where one of them is answered otherwise than its line says.
pub(crate) fn roll_forward<K: CommitAt>(
    alloc: Global,
    desk: Desk<K>,
    place: Place,
    lines: Vec<Line>,
) -> (Result<(), OpeningFault>, Desk<K>, Place)
    ensures went { IsGood desk.book.register → withdraws (map entry_of lines.items) ≡ false
        → AreShallow (map entry_of lines.items) → IsAt K.has_place (K.kept desk.store) place
        → Arrives K.kept K.has_place desk.book.register place (map entry_of lines.items)
        result.0 result.1 result.2 [] }
    ensures left { Survives (K.kept desk.store) (K.kept result.1.store) (AreRolled K.has_place
        (K.kept desk.store) desk.book.register place (map entry_of lines.items)) }
    ensures led { RollsTo K.kept K.takes K.has_place desk result.1 }
    ensures unchanged { (n : ℕ) → result.0 ≡ Err (OpeningFault.Differs n) → result.1 ≡ desk }
    ensures fault { IfErr result.0 (IsOfForward K.fails (map entry_of lines.items)) }
{
    if lines.as_slice().is_empty() {
        return (Ok(()), desk, place);
    }
    match first_differing(alloc, desk.book(), lines.as_slice()) {
        Ok(None) => carry_all(alloc, desk, place, lines),
        Ok(Some(number)) => (Err(OpeningFault::Differs(number)), desk, place),
        Err(_) => (Err(OpeningFault::Desk(DeskFault::NoMemory)), desk, place),
    }
}

/// The same, where each deed is answered as its line says.
fn carry_all<K: CommitAt>(
    alloc: Global,
    desk: Desk<K>,
    place: Place,
    lines: Vec<Line>,
) -> (Result<(), OpeningFault>, Desk<K>, Place)
    ensures went { IsGood desk.book.register → AreAnswered desk.book.register
        (map entry_of lines.items) → withdraws (map entry_of lines.items) ≡ false
        → AreShallow (map entry_of lines.items) → IsAt K.has_place (K.kept desk.store) place
        → Arrives K.kept K.has_place desk.book.register place (map entry_of lines.items)
        result.0 result.1 result.2 [] }
    ensures left { Survives (K.kept desk.store) (K.kept result.1.store) (λ trees. AreAnswered
        desk.book.register (map entry_of lines.items) → AreRolled K.has_place
        (K.kept desk.store) desk.book.register place (map entry_of lines.items) trees) }
    ensures led { RollsTo K.kept K.takes K.has_place desk result.1 }
    ensures fault { IfErr result.0 (IsOfCarrying K.fails (map entry_of lines.items)) }
{
    let mut left = lines;
    left.reverse();
    let mut forward = Forward {
        desk,
        at: place,
        pending: None,
    };
    while let Some(line) = left.pop() {
        let (came, next) = forward.line(alloc, line);
        forward = next;
        if let Err(fault) = came {
            return (Err(fault), forward.desk, forward.at);
        }
    }
    forward.arrive(alloc)
}

impl<K: CommitAt> Forward<K> {
    /// Takes the next line. The deed before it is carried out, unless the line withdraws it.
    fn line(self, alloc: Global, line: Line) -> (Result<(), OpeningFault>, Forward<K>)
        ensures went { (R : Register) (place : Place) (lines rest : List Entry) → IsGood R
            → AreAnswered R lines
            → HasCome K.has_place R place lines self.desk.book.register (K.kept self.desk.store)
            self.at self.pending (entry_of line ∷ rest)
            → Went K.kept K.has_place R place lines result.0 result.1.desk result.1.at
            result.1.pending rest }
        ensures tables { OnOk result.0 (KeepsTables K.kept self.desk result.1.desk) }
        ensures left { (rest : List Entry) → Survives (K.kept self.desk.store)
            (K.kept result.1.desk.store) (AreFurther K.has_place self.desk.book.register
            (K.kept self.desk.store) self.at self.pending (entry_of line ∷ rest)) }
        ensures led { GoesOn K.kept K.takes K.has_place self.desk result.1.desk }
        ensures fault { IfErr result.0 (IsOfCarrying K.fails (entry_of line ∷ [])) }
    {
        let (came, before) = self.before(alloc, &line);
        if let Err(fault) = came {
            return (Err(fault), before);
        }
        before.past(alloc, line)
    }

    /// Carries out the open deed before a line that has another.
    fn before(self, alloc: Global, line: &Line) -> (Result<(), OpeningFault>, Forward<K>)
        ensures went { (R : Register) (place : Place) (lines rest : List Entry) → IsGood R
            → AreAnswered R lines
            → HasCome K.has_place R place lines self.desk.book.register (K.kept self.desk.store)
            self.at self.pending (entry_of line.now ∷ rest)
            → Went K.kept K.has_place R place lines result.0 result.1.desk result.1.at
            result.1.pending (entry_of line.now ∷ rest) }
        ensures closed { OnOk result.0 (result.1.pending ≡ open_after line.now self.pending) }
        ensures tables { OnOk result.0 (KeepsTables K.kept self.desk result.1.desk) }
        ensures left { (rest : List Entry) → Survives (K.kept self.desk.store)
            (K.kept result.1.desk.store) (AreFurther K.has_place self.desk.book.register
            (K.kept self.desk.store) self.at self.pending (entry_of line.now ∷ rest)) }
        ensures led { GoesOn K.kept K.takes K.has_place self.desk result.1.desk }
        ensures fault { IfErr result.0 (IsOfCarrying K.fails []) }
    {
        match line {
            Line::Carried(_) => self.close(alloc),
            Line::Withdrawn(_) => (Ok(()), self),
        }
    }

    /// Goes past a line, before which no deed is open but one that it withdraws.
    fn past(self, alloc: Global, line: Line) -> (Result<(), OpeningFault>, Forward<K>)
        ensures went { (R : Register) (place : Place) (lines rest : List Entry)
            → self.pending ≡ open_after line self.pending
            → HasCome K.has_place R place lines self.desk.book.register (K.kept self.desk.store)
            self.at self.pending (entry_of line ∷ rest)
            → Went K.kept K.has_place R place lines result.0 result.1.desk result.1.at
            result.1.pending rest }
        ensures desk { result.1.desk ≡ self.desk }
        ensures fault { IfErr result.0 (IsOfCarrying K.fails (entry_of line ∷ [])) }
    {
        let mut forward = self;
        match step(alloc, &mut forward.at, &line) {
            Ok(true) => {
                forward.pending = opened_by(line);
                (Ok(()), forward)
            }
            Ok(false) => {
                let number = forward.at.number.saturating_add(1);
                (Err(OpeningFault::BadLine(number)), forward)
            }
            Err(_) => (Err(OpeningFault::Desk(DeskFault::NoMemory)), forward),
        }
    }

    /// Carries out the open deed, if there is one.
    fn close(self, alloc: Global) -> (Result<(), OpeningFault>, Forward<K>)
        ensures went { (R : Register) (place : Place) (lines rest : List Entry) → IsGood R
            → AreAnswered R lines → withdraws rest ≡ false
            → HasCome K.has_place R place lines self.desk.book.register (K.kept self.desk.store)
            self.at self.pending rest
            → Went K.kept K.has_place R place lines result.0 result.1.desk result.1.at None rest }
        ensures closed { OnOk result.0 (result.1.pending ≡ None) }
        ensures tables { OnOk result.0 (KeepsTables K.kept self.desk result.1.desk) }
        ensures left { (rest : List Entry) → withdraws rest ≡ false
            → Survives (K.kept self.desk.store) (K.kept result.1.desk.store)
            (AreFurther K.has_place self.desk.book.register (K.kept self.desk.store) self.at
            self.pending rest) }
        ensures led { GoesOn K.kept K.takes K.has_place self.desk result.1.desk }
        ensures fault { IfErr result.0 (IsOfCarrying K.fails []) }
    {
        let Forward { desk, at, pending } = self;
        match pending {
            None => (
                Ok(()),
                Forward {
                    desk,
                    at,
                    pending: None,
                },
            ),
            Some(one) => carry_out(alloc, desk, at, one),
        }
    }

    /// Ends at the last line: with its deed, if that is open, or by a move of the place.
    fn arrive(self, alloc: Global) -> (Result<(), OpeningFault>, Desk<K>, Place)
        ensures went { (R : Register) (place : Place) (lines : List Entry) → IsGood R
            → AreAnswered R lines
            → HasCome K.has_place R place lines self.desk.book.register (K.kept self.desk.store)
            self.at self.pending []
            → Arrives K.kept K.has_place R place lines result.0 result.1 result.2 [] }
        ensures left { Survives (K.kept self.desk.store) (K.kept result.1.store)
            (AreFurther K.has_place self.desk.book.register (K.kept self.desk.store) self.at
            self.pending []) }
        ensures led { RollsTo K.kept K.takes K.has_place self.desk result.1 }
        ensures fault { IfErr result.0 (IsOfCarrying K.fails []) }
    {
        let Forward { desk, at, pending } = self;
        match pending {
            None => move_to(alloc, desk, at),
            Some(one) => {
                let (came, forward) = carry_out(alloc, desk, at, one);
                (came, forward.desk, forward.at)
            }
        }
    }
}

/// Moves the place of a desk to that after its lines.
fn move_to<K: CommitAt>(
    alloc: Global,
    desk: Desk<K>,
    at: Place,
) -> (Result<(), OpeningFault>, Desk<K>, Place)
    ensures went { (R : Register) (place : Place) (lines : List Entry)
        → HasCome K.has_place R place lines desk.book.register (K.kept desk.store) at None []
        → Arrives K.kept K.has_place R place lines result.0 result.1 result.2 [] }
    ensures left { Survives (K.kept desk.store) (K.kept result.1.store)
        (AreFurther K.has_place desk.book.register (K.kept desk.store) at None []) }
    ensures led { RollsTo K.kept K.takes K.has_place desk result.1 }
    ensures fault { IfErr result.0 (IsOfCarrying K.fails []) }
{
    let faults = desk.faults();
    let (book, keeper) = desk.parted();
    let mut keeper = keeper;
    let came = keeper.move_to(alloc, &at);
    let desk = Desk::of(book, keeper, faults);
    match came {
        Ok(()) => (Ok(()), desk, at),
        Err(fault) => (Err(OpeningFault::Desk(fault)), desk, at),
    }
}

/// Carries out the deed of a line.
fn carry_out<K: CommitAt>(
    alloc: Global,
    desk: Desk<K>,
    at: Place,
    one: Carried,
) -> (Result<(), OpeningFault>, Forward<K>)
    ensures went { (R : Register) (place : Place) (lines rest : List Entry) → IsGood R
        → AreAnswered R lines → withdraws rest ≡ false
        → HasCome K.has_place R place lines desk.book.register (K.kept desk.store) at
        (Some one) rest
        → Arrives K.kept K.has_place R place lines result.0 result.1.desk result.1.at rest }
    ensures closed { OnOk result.0 (result.1.pending ≡ None) }
    ensures tables { OnOk result.0 (KeepsTables K.kept desk result.1.desk) }
    ensures left { (rest : List Entry) → withdraws rest ≡ false
        → Survives (K.kept desk.store) (K.kept result.1.desk.store)
        (AreFurther K.has_place desk.book.register (K.kept desk.store) at (Some one) rest) }
    ensures led { GoesOn K.kept K.takes K.has_place desk result.1.desk }
    ensures fault { IfErr result.0 (IsOfCarrying K.fails []) }
{
    let (came, desk, at) = carry_deed(alloc, desk, one.deed, at);
    let forward = Forward {
        desk,
        at,
        pending: None,
    };
    match came {
        Ok(()) => (Ok(()), forward),
        Err(fault) => (Err(OpeningFault::Desk(fault)), forward),
    }
}

/// The deed of a line, if it was accepted.
fn opened_by(line: Line) -> Option<Carried>
    ensures { result ≡ opened_by line }
{
    match line {
        Line::Carried(one) => if is_accepted(&one.reply) {
            Some(one)
        } else {
            None
        },
        Line::Withdrawn(_) => None,
    }
}
