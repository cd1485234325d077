//! Laws of registers and their journals: the contract of each function is the law, and its body is
//! empty.
ghost use Rattle.clr_keeping.specs.Laws.{PartsAreOne, StoppedIsLevel};

use clr_desk::CommitAt;

/// A register that is level with the last part of its journal is level with the lines of all parts,
/// as one journal.
pub fn parts_are_one()
    ensures { PartsAreOne }
{}

/// Where an opening stops half-way, at a fault, the register that the keeper has is level with its
/// journal.
pub fn stopped_is_level<K: CommitAt>(keeper: &K)
    ensures { StoppedIsLevel K.has_place (K.kept keeper.now) }
{}
