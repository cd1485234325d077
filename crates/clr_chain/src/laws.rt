//! Laws of the definitions: the contract of each function is the law.
ghost use Rattle.clr_chain.specs.Laws.{CutsAreNotMissed, EndsSayAll, FirstsAreOneLine};
ghost use Rattle.clr_chain.specs.Laws.{FirstsReadBack, FrontsAreFound, LinesAheadAreShallow};
ghost use Rattle.clr_chain.specs.Laws.{LinesAheadGoOn, LinesKeepLevel};
ghost use Rattle.clr_chain.specs.Laws.{LinksAreOneLine, LinksAreOwn, LinksReadBack};
ghost use Rattle.clr_chain.specs.Laws.{LostTailsAreMadeGood, NewJournalsAreLevel, NewJournalsOpen};
ghost use Rattle.clr_chain.specs.Laws.{OthersAreFound};
ghost use Rattle.clr_chain.specs.Laws.{SameSumSameJournal, StepsKeepLevel, WalksReadOn};

/// The text of a line has no line feed, nor has that of a first line.
pub fn links_are_one_line()
    ensures links { LinksAreOneLine }
    ensures firsts { FirstsAreOneLine }
{}

/// A line that can be written is read from its text; and from no other.
pub fn links_read_back()
    ensures reads { LinksReadBack }
    ensures own { LinksAreOwn }
{}

/// A first line that can be written is read from its text, and a new journal opens at its place.
pub fn new_journals_open()
    ensures reads { FirstsReadBack }
    ensures opens { NewJournalsOpen }
{}

/// A journal by other rules is found to be so, wherever the register is.
pub fn others_are_found()
    ensures { OthersAreFound }
{}

/// Two journals with one sum are the same up to it, byte for byte; or a collision of SHA-256 is
/// shown.
pub fn same_sum_same_journal()
    ensures { SameSumSameJournal }
{}

/// Level is there when a journal is new, and is kept by each line, and by each deed that is
/// carried out with its place.
pub fn level_is_kept()
    ensures new { NewJournalsAreLevel }
    ensures lines { LinesKeepLevel }
    ensures steps { StepsKeepLevel }
{}

/// A register that lost its last commits is made good by the lines after its place.
pub fn lost_tails_are_made_good()
    ensures { LostTailsAreMadeGood }
{}

/// The end of a journal says what is found in all of it.
pub fn ends_say_all()
    ensures { EndsSayAll }
{}

/// Lines that are found ahead go on from the register: the first does not withdraw the register's
/// own deed, and no reply of them nests deeper than 127.
pub fn lines_ahead_go_on()
    ensures begins { LinesAheadGoOn }
    ensures shallow { LinesAheadAreShallow }
{}

/// What was never synced after the last line that holds its sum may be cut off: the same is found
/// before the cut, during it, and after it.
pub fn cuts_are_not_missed()
    ensures other { CutsAreNotMissed }
    ensures front { FrontsAreFound }
{}

/// A chain that is read line by line has the lines that are read on, up to the first that does not
/// hold its sum.
pub fn walks_read_on()
    ensures { WalksReadOn }
{}
