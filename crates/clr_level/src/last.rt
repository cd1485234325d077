//! What is known of the last line of a journal.

/// What is known of the last line of a journal, and of its deed.
#[derive(Clone, Copy, PartialEq, Eq)]
pub enum Last {
    /// The deed was carried out or refused, or the line withdraws one.
    Settled,
    /// The command was not carried out. A line that withdraws it comes before the next.
    Owed,
    /// Only an opening can decide whether the deed is carried out, or which lines there are. No
    /// line comes after it before that.
    Doubtful,
}
