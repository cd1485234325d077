//! Laws of the definitions: the contract of each function is the law.
ghost use Rattle.clr_checking.specs.Laws.{BriefLinesAreTaken, NestsNoDeeper, RepliesAreExact};

/// No reply of a line that holds its sum nests deeper than 127. So where the replies of a run are
/// found to be those of such lines, they are exactly those.
pub fn replies_are_exact()
    ensures depth { NestsNoDeeper }
    ensures exact { RepliesAreExact }
{}

/// The line of a command in brief is taken with the refusal of the whole one.
pub fn brief_lines_are_taken()
    ensures { BriefLinesAreTaken }
{}
