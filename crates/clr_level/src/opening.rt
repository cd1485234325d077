//! A register and its journal are opened together.
ghost use Rattle.std.specs.Prelude.{◌≡◌, ℕ, false, IfErr, IfOk, map};
ghost use Rattle.sqlite.specs.State.{Survives};
ghost use Rattle.clr_rules.specs.Good.{IsGood};
ghost use Rattle.clr_rules.specs.Register.{Register};
ghost use Rattle.clr_rules.specs.declared.place.Place.{Place};
ghost use Rattle.clr_journal.specs.Journals.{carried_out, withdraws};
ghost use Rattle.clr_journal.specs.Line.{entry_of};
ghost use Rattle.clr_chain.specs.Level.{IsRunOf};
ghost use Rattle.clr_level.specs.Crash.{AreRolled};
ghost use Rattle.clr_level.specs.Forward.{AreShallow, CanBeOpened, IsAheadOf, IsOfForward, IsOver};
ghost use Rattle.clr_level.specs.Forward.{RollsTo, StopsAt};
ghost use Rattle.clr_level.specs.Journaling.{HasText, IsSound};
ghost use Rattle.clr_level.specs.Levelling.{IsKeptLevel};
ghost use Rattle.clr_level.specs.Placing.{IsAt};

use crate::fault::OpeningFault;
use crate::forward::roll_forward;
use crate::keeper::Keeper;
use crate::last::Last;
use clr_chain::{Ahead, Clock, Found};
use clr_desk::{CommitAt, Desk};
use clr_journal::{Journal, Line};
use clr_rules::Place;
use std::alloc::Global;

/// The lines that come after a register's place, or why there are none.
pub fn ahead_of(found: Found) -> Result<Ahead, OpeningFault>
    ensures { IsAheadOf found result }
{
    match found {
        Found::OtherRules(number) => Err(OpeningFault::OtherRules(number)),
        Found::OtherRegister => Err(OpeningFault::OtherRegister),
        Found::TooShort => Err(OpeningFault::TooShort),
        Found::Differs(number) => Err(OpeningFault::Differs(number)),
        Found::BadLine(number) => Err(OpeningFault::BadLine(number)),
        Found::Ahead(ahead) => Ok(ahead),
    }
}

/// Gives a desk its journal. The register has the deeds up to its place; what was accepted in the
/// lines after it, and not withdrawn, is carried out first, in order, each deed with the place at
/// its line. Where lines come after the last deed of these, the place is moved to the last of them,
/// so that the next opening begins there.
///
/// `Differs` where a deed is answered otherwise than its line says. All deeds are tried first, so
/// none is carried out then, and the desk is given back as it was. `BadLine` where the reply of a
/// line has a number that is no whole number, as no line that an opening finds has. `Desk` where a
/// deed is not carried out, the place is not moved, or memory runs out. There is no other fault.
/// It gives the desk back, as far as it has come, and the journal, in which nothing was written.
pub fn with_journal<K: CommitAt, J: Journal + Drop, C: Clock>(
    alloc: Global,
    desk: Desk<K>,
    journal: J,
    place: Place,
    lines: Vec<Line>,
    clock: C,
) -> Result<Desk<Keeper<K, J, C>>, (OpeningFault, Desk<K>, J)>
    ensures level { IfOk result (λ opened. (first : Register) (start : Place) → IsGood first
        → CanBeOpened K.has_place first start place desk.book.register (K.kept desk.store)
        (J.text journal) (map entry_of lines.items)
        → IsKeptLevel K.kept K.has_place J.text first start opened.book.register opened.store) }
    ensures sound { IfOk result (λ opened. HasText J.text J.found journal
        → IsSound J.text J.found J.may_leave opened.store) }
    ensures rolled { IfOk result (λ opened. IsGood desk.book.register
        → withdraws (map entry_of lines.items) ≡ false → AreShallow (map entry_of lines.items)
        → IsAt K.has_place (K.kept desk.store) place
        → IsRunOf desk.book.register (carried_out (map entry_of lines.items))
        opened.book.register) }
    ensures placed { IfOk result (λ opened. IsGood desk.book.register
        → withdraws (map entry_of lines.items) ≡ false → AreShallow (map entry_of lines.items)
        → IsAt K.has_place (K.kept desk.store) place
        → IsAt K.has_place (K.kept opened.store.keeper) opened.store.at) }
    ensures left { IfOk result (λ opened. Survives (K.kept desk.store)
        (K.kept opened.store.keeper) (AreRolled K.has_place (K.kept desk.store)
        desk.book.register place (map entry_of lines.items))) }
    ensures journal { IfOk result (λ opened. opened.store.journal ≡ journal) }
    ensures clock { IfOk result (λ opened. opened.store.clock ≡ clock) }
    ensures settled { IfOk result (λ opened. opened.store.last ≡ Last.Settled) }
    ensures led { IfOk result (λ opened.
        IsOver (RollsTo K.kept K.takes K.has_place) desk opened) }
    ensures stops { IfErr result (λ back. IsGood desk.book.register
        → withdraws (map entry_of lines.items) ≡ false → AreShallow (map entry_of lines.items)
        → IsAt K.has_place (K.kept desk.store) place
        → StopsAt K.has_place desk.book.register place (map entry_of lines.items) back.0
        back.1.book.register (K.kept back.1.store)) }
    ensures left_too { IfErr result (λ back. Survives (K.kept desk.store)
        (K.kept back.1.store) (AreRolled K.has_place (K.kept desk.store)
        desk.book.register place (map entry_of lines.items))) }
    ensures unchanged { IfErr result (λ back. (n : ℕ)
        → back.0 ≡ OpeningFault.Differs n → back.1 ≡ desk) }
    ensures fault { IfErr result (λ back.
        IsOfForward K.fails (map entry_of lines.items) back.0) }
    ensures back { IfErr result (λ back.
        RollsTo K.kept K.takes K.has_place desk back.1) }
    ensures unwritten { IfErr result (λ back. back.2 ≡ journal) }
{
    let (came, desk, at) = roll_forward(alloc, desk, place, lines);
    match came {
        Ok(()) => {
            let faults = desk.faults();
            let (book, keeper) = desk.parted();
            let keeper = Keeper::new(alloc, keeper, journal, clock, at);
            Ok(Desk::of(book, keeper, faults))
        }
        Err(fault) => Err((fault, desk, journal)),
    }
}
