//! Laws of the definitions: the contract of each function is the law.
ghost use Rattle.clr_verify.specs.Laws.{DifferencesAreSeen, NestsNoDeeper, RepliesAreExact};

/// Registers of which a difference is named have other tables.
pub fn differences_are_seen()
    ensures { DifferencesAreSeen }
{}

/// No reply of a line that was read nests deeper than 127. So replies that are found to be those of
/// the lines of a journal are exactly those.
pub fn replies_are_exact()
    ensures depth { NestsNoDeeper }
    ensures exact { RepliesAreExact }
{}
