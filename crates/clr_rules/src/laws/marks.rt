//! What a mark is.
ghost use Rattle.clr_rules.specs.laws.Marks.{MarksConcernTheSet};

/// A mark is an edit that concerns a section inside, or a point with an end inside. A record, a
/// step and a crew are none.
pub fn marks_concern_the_set()
    ensures { MarksConcernTheSet }
{}
