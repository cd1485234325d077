//! The keys of a command's object.
ghost use Rattle.std.specs.Prelude.{◌≡◌};
ghost use Rattle.clr_text.specs.Keys.{key_text};

/// A key of a command's JSON object. They are declared in the order of their texts' bytes.
#[derive(Clone, Copy, Debug, PartialEq, Eq)]
pub enum Key {
    At,
    By,
    Clear,
    Clearance,
    Crew,
    Dead,
    Do,
    Done,
    Emergency,
    From,
    Lockable,
    Notified,
    Point,
    Points,
    Remote,
    Section,
    Step,
    Steps,
    Text,
    To,
}

impl Key {
    /// The key as it is written.
    pub fn text(self) -> &'static str
        ensures { result.now ≡ key_text self }
    {
        match self {
            Key::At => "at",
            Key::By => "by",
            Key::Clear => "clear",
            Key::Clearance => "clearance",
            Key::Crew => "crew",
            Key::Dead => "dead",
            Key::Do => "do",
            Key::Done => "done",
            Key::Emergency => "emergency",
            Key::From => "from",
            Key::Lockable => "lockable",
            Key::Notified => "notified",
            Key::Point => "point",
            Key::Points => "points",
            Key::Remote => "remote",
            Key::Section => "section",
            Key::Step => "step",
            Key::Steps => "steps",
            Key::Text => "text",
            Key::To => "to",
        }
    }
}
