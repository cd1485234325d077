//! Laws of the definitions: the contract of each function is the law.
ghost use Rattle.clr_journal.specs.DeltaLaws.{ChangeValuesArePlain, ChangesReadBack};

/// Changes that can be said are read from their value, wherever that is; and it is plain, so that a
/// text of which it is a part reads back too.
pub fn changes_read_back()
    ensures reads { ChangesReadBack }
    ensures plain { ChangeValuesArePlain }
{}
