//! The lines of a text.
ghost use Rattle.std.specs.Prelude.{◌≡◌, ◌<◌, ◌∷◌, [], length, IfNone, IfSome, Some, position};
ghost use Rattle.clr_journal.specs.Lines.{ended_lines, is_line_feed, unfinished};

/// The first line of a text, without its line feed, and what comes after that.
pub fn first_line(text: &[u8]) -> Option<(&[u8], &[u8])>
    ensures some { IfSome result (λ found.
        ended_lines text.now ≡ found.0.now ∷ ended_lines found.1.now) }
    ensures none { IfNone result (ended_lines text.now ≡ []) }
    ensures rest { IfSome result (λ found. unfinished text.now ≡ unfinished found.1.now) }
    ensures whole { IfNone result (unfinished text.now ≡ Some text.now) }
    ensures shorter { IfSome result (λ found. length found.1.now < length text.now) }
{
    match feed_at(text) {
        Some(end) => Some((&text[..end], &text[end + 1..])),
        None => None,
    }
}

/// Where the first line feed is.
fn feed_at(text: &[u8]) -> Option<usize>
    ensures { result ≡ position is_line_feed text.now }
{
    text.iter().position(|byte| *byte == b'\n')
}
