//! Laws of the book of a desk and of its tables: the contract of each function is the law, and its
//! body is empty.
ghost use Rattle.clr_desk.specs.Given.{LaterDesksSurvive};
ghost use Rattle.clr_desk.specs.Opening.{GoodRegistersOpenAgain};
ghost use Rattle.clr_desk.specs.Reopening.{RunsGoOnAfterACrash, TablesComeBack};

use crate::commit::Commit;

/// The rows of a good register have this register and no other, and no table of theirs is at fault.
pub fn good_registers_open_again()
    ensures { GoodRegistersOpenAgain }
{}

/// What a crash leaves is opened again, unless the database fails or memory runs out: the tables of
/// a register that a desk made come back as this register; and what `crash` of `Desk::one` and
/// `Desk::run` says is left of a run goes on with the remaining commands as the run without a stop
/// does.
pub fn crashes_go_on()
    ensures tables { TablesComeBack }
    ensures runs { RunsGoOnAfterACrash }
{}

/// A crash leaves the tables of the register that a desk has, over however many calls it came there
/// (`led`), while what keeps its changes is open and no disk failed. A commit in doubt closes that:
/// `crash` of the call says what is left of it.
pub fn later_desks_survive<K: Commit>()
    ensures { LaterDesksSurvive K.kept K.takes }
{}
