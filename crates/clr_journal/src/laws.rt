//! Laws of the definitions: the contract of each function is the law.
ghost use Rattle.clr_journal.specs.Laws.{DeedsGrow, FrontsRead, JournalsReadBack};
ghost use Rattle.clr_journal.specs.Laws.{LinesAreOneLine, LinesGrow, LinesReadBack};
ghost use Rattle.clr_journal.specs.Laws.{WithdrawnIsLeftOut};

/// The text of a line has no line feed.
pub fn lines_are_one_line()
    ensures { LinesAreOneLine }
{}

/// A line that can be written is read from its text.
pub fn lines_read_back()
    ensures { LinesReadBack }
{}

/// A front of a journal, cut anywhere after its first lines, reads as these and the first of those
/// after them.
pub fn fronts_read()
    ensures { FrontsRead }
{}

/// Lines in turn, each of which is read from its text, are read from the bytes of their journal,
/// whatever comes after the last line feed.
pub fn journals_read_back()
    ensures { JournalsReadBack }
{}

/// A line that is the next makes a journal longer by its text and a line feed.
pub fn lines_grow()
    ensures { LinesGrow }
{}

/// A deed that was accepted is one more that was carried out; one that the next line withdraws is
/// none.
pub fn deeds_grow()
    ensures accepted { DeedsGrow }
    ensures withdrawn { WithdrawnIsLeftOut }
{}
