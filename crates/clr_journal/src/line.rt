//! The lines of a journal.
ghost use Rattle.std.specs.Prelude.{◌≡◌};
ghost use Rattle.serde_json.specs.View.{view};
ghost use Rattle.clr_journal.specs.Line.{is_accepted, says};

use clr_changes::Deed;
use clr_rules::Text;
use serde_json::Value;

/// A line of a journal.
#[derive(Drop)]
pub enum Line {
    /// A deed, and what was answered.
    Carried(Carried),
    /// The deed of this number was accepted and not carried out: its change was not kept.
    Withdrawn(u64),
}

/// A deed, and what was answered.
#[derive(Drop)]
pub struct Carried {
    pub receipt: Receipt,
    pub deed: Deed,
    /// The reply, as a JSON value. That of an update or an archive is a constant.
    pub reply: Value,
}

/// When a deed came, and from whom.
#[derive(Drop)]
pub struct Receipt {
    /// The deeds of a journal are counted from 1.
    pub number: u64,
    /// The machine's clock, in whole seconds since 1970. No rule looks at it.
    pub received: u64,
    /// At which login, if there was one.
    pub login: Option<Text>,
}

/// Whether a reply, as a JSON value, says that the deed was carried out.
pub fn is_accepted(reply: &Value) -> bool
    ensures { result ≡ is_accepted (view reply.now) }
{
    says(reply, "accepted") || says(reply, "added")
}

/// Whether this is the word of a reply.
fn says(reply: &Value, word: &str) -> bool
    ensures { result ≡ says word.now (view reply.now) }
{
    match reply.get("reply").and_then(Value::as_str) {
        Some(text) => text == word,
        None => false,
    }
}
