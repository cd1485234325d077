//! The actions of a step, and their words.
ghost use Rattle.std.specs.Prelude.{◌≡◌, Some};
ghost use Rattle.std.specs.Fmt.{padded};
ghost use Rattle.clr_order.specs.Action.{action_named, action_word};

use std::fmt;

/// What one step of an order does at a switching point.
///
/// The first four isolate, the last five restore; a switch order has `Open` and `Close` alone.
/// Their origin is 29 CFR 1910.269(m)(3)(ii), (iii), (xii) and (xiii).
#[derive(Clone, Copy, Debug, PartialEq, Eq)]
pub enum Action {
    /// Open the point.
    Open,
    /// Make the point inoperable.
    Block,
    /// Tag the point's control and make its automatic or remote control inoperable.
    Control,
    /// Tag the point.
    Tag,
    /// Take the tag from the point.
    Untag,
    /// Put the point's automatic or remote control back.
    Uncontrol,
    /// Make the point operable again.
    Unblock,
    /// Close the point.
    Close,
    /// Leave the point open, and hold it no longer.
    Leave,
}

impl fmt::Display for Action {
    ghost output = { λ a. Some (action_word a) };

    ghost styled_output = { λ a spec. Some (padded spec (action_word a)) };

    fn fmt<W: fmt::Write>(&self, f: &mut fmt::Formatter<W>) -> fmt::Result {
        f.pad(self.word())
    }
}

impl Action {
    /// All actions, in the order in which they are declared.
    const ALL: [Action; 9] = [
        Action::Open,
        Action::Block,
        Action::Control,
        Action::Tag,
        Action::Untag,
        Action::Uncontrol,
        Action::Unblock,
        Action::Close,
        Action::Leave,
    ];

    /// The action in capitals, as the text of a step begins.
    pub fn word(self) -> &'static str
        ensures { result.now ≡ action_word self }
    {
        match self {
            Action::Open => "OPEN",
            Action::Block => "BLOCK",
            Action::Control => "CONTROL",
            Action::Tag => "TAG",
            Action::Untag => "UNTAG",
            Action::Uncontrol => "UNCONTROL",
            Action::Unblock => "UNBLOCK",
            Action::Close => "CLOSE",
            Action::Leave => "LEAVE",
        }
    }

    /// The action that a word in capitals names.
    pub(crate) fn named(word: &str) -> Option<Action>
        ensures { result ≡ action_named word.now }
    {
        Action::ALL
            .iter()
            .copied()
            .find(|action| action.word() == word)
    }
}
