//! The names of clearances.
ghost use Rattle.std.specs.Prelude.{◌≡◌, ◌≢◌, ◌≤◌, Some, Err, IfOk, IsTrue, ok_or, refl};
ghost use Rattle.std.specs.Cmp.{partial_equiv_from_equiv, partial_order_from_agreeing_total};
ghost use Rattle.std.specs.List.{after_first, before_first, list_all};
ghost use Rattle.std.specs.Ordering.{as_partial_cmp};
ghost use Rattle.std.specs.Char.{is_ascii_digit};
ghost use Rattle.std.specs.Fmt.{padded};
ghost use Rattle.clr_rules.specs.Id.{Id, id_cmp, id_cmp_total, id_text, is_id, new_id, same_id};
ghost use Rattle.clr_rules.specs.Id.{same_id_equiv, same_id_ties};
ghost use Rattle.clr_rules.specs.IdText.{is_numeral, is_slash, read_id, read_number};

use clr_net::Name;
use std::cmp::Ordering;
use std::fmt;
use std::fmt::InlineText;
use std::marker::Model;
use thiserror::Error;

/// The greatest number of a clearance.
pub const MAX_CLEARANCE_NUMBER: u16 = 9999;

/// The most bytes of a clearance as a text: a name of 24, a slash, and four digits.
const MAX_ID_LEN: usize = 29;

/// Why a text names no clearance.
#[derive(Clone, Copy, Debug, PartialEq, Eq, Error)]
pub enum IdFault {
    /// The text is not a name, a slash and a number from 1 to 9,999 without a leading zero.
    #[error("the text names no clearance")]
    BadId,
    /// Memory ran out. An id is stored in place, so no call answers this today.
    #[error("out of memory")]
    NoMemory,
}

/// The name of a clearance, as `JONES/1`: who asked for it, and which of the asker's clearances it
/// is.
///
/// Switch orders are named in the same way by their operator. A transfer does not change the name.
/// Clearances are in the order of their requesters' names, those of one requester in the order of
/// their numbers. One employee in charge for each clearance comes from 29 CFR 1910.269(m)(2)(i);
/// numbers counted for each requester are the project's own.
#[derive(Clone, Copy)]
pub struct ClearanceId {
    requester: Name,
    number: u16,
}

impl Model for ClearanceId {
    ghost use Rattle.std.specs.Prelude.{◌≤◌};
    ghost use Rattle.clr_rules.specs.Id.{Id};

    ghost Value = { Id };

    ghost view = { λ c. record { requester = c.requester; number = c.number } };

    ghost invariant = { λ c. (1 ≤ c.number) × (c.number ≤ 9999) };

    ghost inverse = { λ id. record { requester = id.requester; number = id.number } };
}

impl ClearanceId {
    /// The requester's clearance of this number, for a number from 1 to 9,999.
    pub fn new(requester: Name, number: u16) -> Option<ClearanceId>
        ensures { result ≡ new_id requester number }
    {
        if number == 0 || number > MAX_CLEARANCE_NUMBER {
            return None;
        }
        Some(ClearanceId { requester, number })
    }

    /// Reads a text as `JONES/1`. It has to be the very text that the clearance is written as.
    pub fn read(text: &str) -> Result<ClearanceId, IdFault>
        ensures value { result ≡ ok_or (read_id text.now) IdFault.BadId }
        ensures text { IfOk result (λ id. IsTrue (is_id id) × (id_text id ≡ text.now)) }
        ensures bad { result ≡ Err IdFault.BadId
            → (id : Id) → IsTrue (is_id id) → id_text id ≢ text.now }
    {
        read_id(text).ok_or(IdFault::BadId)
    }

    /// Who asked for the clearance.
    pub fn requester(self) -> Name
        ensures { result ≡ self.requester }
    {
        self.requester
    }

    /// Which of the requester's clearances it is, counted from 1.
    pub fn number(self) -> u16
        ensures value { result ≡ self.number }
        ensures range { (1 ≤ result) × (result ≤ 9999) }
    {
        self.number
    }
}

/// The clearance that a text names.
fn read_id(text: &str) -> Option<ClearanceId>
    ensures { result ≡ read_id text.now }
{
    let (name, digits) = halves(text);
    let Ok(requester) = Name::read(name) else {
        return None;
    };
    match read_number(digits) {
        Some(number) => ClearanceId::new(requester, number),
        None => None,
    }
}

/// What comes before the first slash and what comes after it; where there is none, the text and
/// nothing.
fn halves(text: &str) -> (&str, &str)
    ensures name { result.0.now ≡ before_first is_slash text.now }
    ensures digits { result.1.now ≡ after_first is_slash text.now }
{
    match text.split_once('/') {
        Some(parts) => parts,
        None => (text, ""),
    }
}

fn all_digits(text: &[u8]) -> bool
    ensures { result ≡ list_all is_ascii_digit text.now }
{
    text.iter().all(|b| b.is_ascii_digit())
}

/// Whether a text is one to four digits, the first not 0.
fn is_numeral(text: &[u8]) -> bool
    ensures { result ≡ is_numeral text.now }
{
    match text {
        [b'1'..=b'9', rest @ ..] => rest.len() <= 3 && all_digits(rest),
        _ => false,
    }
}

/// The number of a text of one to four digits, the first not 0: how a clearance's number is
/// written.
pub fn read_number(text: &str) -> Option<u16>
    ensures { result ≡ read_number text.now }
{
    if !is_numeral(text.as_bytes()) {
        return None;
    }
    text.parse().ok()
}

impl PartialEq for ClearanceId {
    ghost eq = { same_id };

    ghost laws = { partial_equiv_from_equiv same_id_equiv };

    fn eq(&self, other: &ClearanceId) -> bool {
        self.requester == other.requester && self.number == other.number
    }
}

impl Eq for ClearanceId {
    ghost laws = { same_id_equiv };
}

impl PartialOrd for ClearanceId {
    ghost partial_cmp = { as_partial_cmp id_cmp };

    ghost laws = { partial_order_from_agreeing_total id_cmp id_cmp_total
        (λ x y. refl) same_id_ties };

    fn partial_cmp(&self, other: &ClearanceId) -> Option<Ordering> {
        Some(self.cmp(other))
    }
}

impl Ord for ClearanceId {
    ghost cmp = { id_cmp };

    ghost total = { id_cmp_total };

    ghost matches_partial_cmp = { λ x y. refl };

    ghost matches_eq = { same_id_ties };

    fn cmp(&self, other: &ClearanceId) -> Ordering {
        self.requester
            .cmp(&other.requester)
            .then(self.number.cmp(&other.number))
    }
}

impl fmt::Display for ClearanceId {
    ghost output = { λ id. Some (id_text id) };

    ghost styled_output = { λ id spec. Some (padded spec (id_text id)) };

    fn fmt<W: fmt::Write>(&self, f: &mut fmt::Formatter<W>) -> fmt::Result {
        let (requester, number) = (self.requester, self.number);
        let mut text = InlineText::<MAX_ID_LEN>::new();
        fmt::Write::write_fmt(&mut text, format_args!("{requester}/{number}"))?;
        f.pad(text.as_str())
    }
}

impl fmt::Debug for ClearanceId {
    fn fmt<W: fmt::Write>(&self, f: &mut fmt::Formatter<W>) -> fmt::Result {
        fmt::Display::fmt(self, f)
    }
}
