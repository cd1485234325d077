//! THE COMMANDS: the word and the keys of each. They are read and written by one table.
ghost use Rattle.std.specs.Prelude.{◌≡◌, IsTrue, OnOk};
ghost use Rattle.serde_json.specs.View.{members_view, view};
ghost use Rattle.clr_text.specs.Answers.{Gives};
ghost use Rattle.clr_text.specs.CommandText.{all_taken, own_said, with_said};
ghost use Rattle.clr_text.specs.Kinds.{keys_of, kind_in, states_moment, word_named};
ghost use Rattle.clr_text.specs.Kinds.{word_of, word_text};

use crate::fault::TextFault;
use crate::key::Key;
use crate::objects::Object;
use crate::values::{KeyValue, at};
use clr_rules::Kind;
use serde_json::Value;
use std::alloc::{AllocError, Global};

/// THE TABLE: of each command its word as it is written, and its fields at its own keys, in the
/// order of the keys' bytes. `rows` makes of it what is asked for.
macro_rules! commands {
    ($($asked:tt)*) => {
        rows! { [$($asked)*]
            Request "request" (section: Section)
            Order "order" (clearance: Clearance, points: Points, steps: Steps)
            Instruct "instruct" (clearance: Clearance, step: Step)
            Repeat "repeat" (clearance: Clearance, step: Step, text: Text)
            Report "report" (clearance: Clearance, done: Done, step: Step)
            Grant "grant" (clearance: Clearance)
            Test "test" (clearance: Clearance, dead: Dead, section: Section)
            Ground "ground" (clearance: Clearance, section: Section)
            Unground "unground" (clearance: Clearance, section: Section)
            SignOn "sign_on" (clearance: Clearance, crew: Crew)
            SignOff "sign_off" (clearance: Clearance, crew: Crew)
            Transfer "transfer" (clearance: Clearance, emergency: Emergency, to: To)
            Release "release" (clear: Clear, clearance: Clearance, notified: Notified)
            Cancel "cancel" (clearance: Clearance)
            Restore "restore" (clearance: Clearance, steps: Steps)
            Amend "amend" (clearance: Clearance, step: Step)
            Switch "switch" (steps: Steps)
            Show "show" (clearance: Clearance)
            Jumper "jumper" (
                from: From,
                lockable: Lockable,
                point: Point,
                remote: Remote,
                to: To
            )
        }
    };
}

macro_rules! rows {
    ([words] $($kind:ident $text:literal ($($field:ident: $key:ident),*))*) => {
        [$(Word::$kind),*]
    };
    ([word of $of:expr] $($kind:ident $text:literal ($($field:ident: $key:ident),*))*) => {
        match $of {
            $(Kind::$kind { .. } => Word::$kind,)*
        }
    };
    ([text of $of:expr] $($kind:ident $text:literal ($($field:ident: $key:ident),*))*) => {
        match $of {
            $(Word::$kind => $text,)*
        }
    };
    ([keys of $of:expr] $($kind:ident $text:literal ($($field:ident: $key:ident),*))*) => {
        match $of {
            $(Word::$kind => keys_of! { $kind $($key)* },)*
        }
    };
    ([kind of $of:ident at $alloc:ident $value:ident]
        $($kind:ident $text:literal ($($field:ident: $key:ident),*))*) => {
        match $of {
            $(Word::$kind => read! { [$alloc $value] $kind [$($field)*] $($field: $key),* },)*
        }
    };
    ([put $of:ident into $object:ident]
        $($kind:ident $text:literal ($($field:ident: $key:ident),*))*) => {
        match $of {
            $(Kind::$kind { $($field),* } => put_each! { $object $($key $field)* },)*
        }
    };
    ([take $of:ident] $($kind:ident $text:literal ($($field:ident: $key:ident),*))*) => {
        match $of {
            $(Kind::$kind { $($field),* } => {
                $($field.taken();)*
            })*
        }
    };
}

/// All keys of a command with these own ones: those in common with others are put among them.
macro_rules! keys_of {
    (Show $($own:ident)*) => { with_do! { [By] $($own)* } };
    (Jumper $($own:ident)*) => { with_do! { [By] $($own)* } };
    ($kind:ident $($own:ident)*) => { with_do! { [At By] $($own)* } };
}

/// Puts `do` after the keys whose bytes are less.
macro_rules! with_do {
    ([$($less:ident)*] Clear $($own:ident)*) => { with_do! { [$($less)* Clear] $($own)* } };
    ([$($less:ident)*] Clearance $($own:ident)*) => { with_do! { [$($less)* Clearance] $($own)* } };
    ([$($less:ident)*] Crew $($own:ident)*) => { with_do! { [$($less)* Crew] $($own)* } };
    ([$($less:ident)*] Dead $($own:ident)*) => { with_do! { [$($less)* Dead] $($own)* } };
    ([$($less:ident)*] $($own:ident)*) => { &[$(Key::$less,)* Key::Do $(, Key::$own)*] };
}

/// What is read from the values at a command's own keys, one after the other, then the command.
macro_rules! read {
    ([$alloc:ident $value:ident] $kind:ident [$($all:ident)*]) => {
        Ok(Kind::$kind { $($all),* })
    };
    ([$alloc:ident $value:ident] $kind:ident $all:tt
        $field:ident: $key:ident $(, $fields:ident: $keys:ident)*) => {
        match at($alloc, $value, Key::$key) {
            Ok($field) => read! { [$alloc $value] $kind $all $($fields: $keys),* },
            Err(fault) => Err(fault),
        }
    };
}

/// Puts what is said at these keys, one after the other.
macro_rules! put_each {
    ($object:ident $key:ident $field:ident) => { $object.put(&Key::$key, $field) };
    ($object:ident $key:ident $field:ident $next:ident $also:ident) => {
        $object.put_two(&Key::$key, $field, &Key::$next, $also)
    };
    ($object:ident $key:ident $field:ident $next:ident $also:ident $last:ident $end:ident) => {
        $object.put_three(&Key::$key, $field, &Key::$next, $also, &Key::$last, $end)
    };
    ($object:ident $key:ident $field:ident $next:ident $also:ident $($more:ident)+) => {
        match $object.put_two(&Key::$key, $field, &Key::$next, $also) {
            Ok(()) => put_each! { $object $($more)+ },
            Err(fault) => Err(fault),
        }
    };
}

/// The word at `do`, which says which command it is.
#[derive(Clone, Copy, Debug, PartialEq, Eq)]
pub(crate) enum Word {
    Request,
    Order,
    Instruct,
    Repeat,
    Report,
    Grant,
    Test,
    Ground,
    Unground,
    SignOn,
    SignOff,
    Transfer,
    Release,
    Cancel,
    Restore,
    Amend,
    Switch,
    Show,
    Jumper,
}

impl Word {
    /// All words, in the order in which they are declared.
    const ALL: [Word; 19] = commands!(words);

    /// The word of a command of this kind.
    pub(crate) fn of(kind: &Kind) -> Word
        ensures { result ≡ word_of kind.now }
    {
        commands!(word of kind)
    }

    /// The word that a text is.
    pub(crate) fn named(text: &str) -> Option<Word>
        ensures { result ≡ word_named text.now }
    {
        Word::ALL.iter().copied().find(|word| word.text() == text)
    }

    /// The word as it is written.
    pub(crate) fn text(self) -> &'static str
        ensures { result.now ≡ word_text self }
    {
        commands!(text of self)
    }

    /// The keys of the command, in the order of their bytes.
    pub(crate) fn keys(self) -> &'static [Key]
        ensures { result.now ≡ keys_of self }
    {
        commands!(keys of self)
    }

    /// Whether the command states its moment: `show` and `jumper` do not.
    pub(crate) fn states_moment(self) -> bool
        ensures { result ≡ states_moment self }
    {
        !matches!(self, Word::Show | Word::Jumper)
    }
}

/// The word of a command of this kind, as it is written.
pub fn command_word(kind: &Kind) -> &'static str
    ensures { result.now ≡ word_text (word_of kind.now) }
{
    Word::of(kind).text()
}

/// What a command of this word asks for, read from the values at its own keys.
#[tactic(auto, unfolding(crate::specs::Kinds::kind_in))]
pub(crate) fn kind_in(alloc: Global, word: Word, value: &Value) -> Result<Kind, TextFault>
    ensures { Gives result (kind_in word (view value.now)) }
{
    commands!(kind of word at alloc value)
}

/// Puts what a command of this kind says at its own keys.
pub(crate) fn put_own(object: &mut Object, kind: &Kind) -> Result<(), AllocError>
    ensures { OnOk result (members_view object.new.members.entries
        ≡ with_said (own_said kind.now) (members_view object.old.members.entries)) }
{
    commands!(put kind into object)
}

/// What a command of this kind says at its own keys is taken: a law, with nothing to do.
pub(crate) fn own_taken(kind: &Kind)
    ensures { IsTrue (all_taken (own_said kind.now)) }
{
    commands!(take kind)
}
