//! The name of a section, a switching point, an employee or a crew.
ghost use Rattle.std.specs.Prelude.{◌≡◌, ◌↔◌, ◌≤◌, ◌==◌, IsOk, ℕ, List, IsTrue, length, Some, take};
ghost use Rattle.std.specs.Prelude.{drop, refl};
ghost use Rattle.std.specs.Cmp.{partial_equiv_from_equiv};
ghost use Rattle.std.proofs.lemmas.Cmp.{nat_list_eq_equiv, nat_list_cmp_total};
ghost use Rattle.std.specs.Cmp.Lexicographic.{texts_po, texts_ties};
ghost use Rattle.std.specs.Fmt.{padded as laid_out};
ghost use Rattle.std.specs.Ordering.{as_partial_cmp};
ghost use Rattle.clr_net.specs.Name.{is_name, is_name_byte, same_name, name_cmp};
ghost use Rattle.clr_net.specs.Names.{has_name};
ghost use Rattle.clr_net.specs.NameText.{bad_byte, read_name};
ghost use Rattle.clr_net.specs.NameWords.{word_from, words_of};

use std::cmp::Ordering;
use std::fmt;
use std::marker::Model;
use thiserror::Error;

/// The most bytes that a name has.
const MAX_NAME_LEN: usize = 24;

/// Why a text is no name.
#[derive(Clone, Copy, Debug, PartialEq, Eq, Error)]
pub enum NameFault {
    /// The text has no byte.
    #[error("the name is empty")]
    Empty,
    /// The text has more than 24 bytes.
    #[error("the name has more than 24 bytes")]
    TooLong,
    /// The byte at this place, counted from 0, is no capital letter, digit or hyphen.
    #[error("no name has the byte at place {0}")]
    BadByte(usize),
    /// Memory ran out. A name is stored in place, so no call answers this today.
    #[error("out of memory")]
    NoMemory,
}

/// The name of a section, a switching point, an employee or a crew: 1 to 24 bytes of `A` to `Z`,
/// `0` to `9` and `-`. Names are in the order of their bytes.
///
/// It is stored in place, so that copying and comparing it take no memory.
#[derive(Clone, Copy)]
pub struct Name {
    bytes: [u8; 24],
    len: u8,
}

impl Model for Name {
    ghost use Rattle.std.specs.Prelude.{◌≡◌, ℕ, List, IsTrue, length, take};
    ghost use Rattle.std.proofs.Common.{sym};
    ghost use Rattle.clr_net.specs.Name.{is_name, padded};

    ghost Value = { List ℕ };

    ghost view = { λ n. take n.len n.bytes };

    ghost invariant = { λ n. (n.bytes ≡ padded (take n.len n.bytes))
        × IsTrue (is_name (take n.len n.bytes)) × (n.len ≡ length (take n.len n.bytes)) };

    ghost inverse = { λ text. record { bytes = padded text; len = length text } };

    ghost inverse_ok = { λ n h i. record { bytes = sym h.0 i; len = sym h.2 i } };
}

/// Whether a byte may be in a name.
fn is_name_byte(b: u8) -> bool
    ensures { result ≡ is_name_byte b }
{
    matches!(b, b'A'..=b'Z' | b'0'..=b'9' | b'-')
}

/// The place of the first byte that no name has.
fn bad_byte(text: &[u8]) -> Option<usize>
    ensures { result ≡ bad_byte text.now }
{
    text.iter().position(|b| !is_name_byte(*b))
}

impl Name {
    /// Reads a name from a text.
    ///
    /// The faults come in the order `Empty`, `TooLong`, `BadByte`; the last names the first such
    /// byte.
    pub fn read(text: &str) -> Result<Name, NameFault>
        ensures reads { result ≡ read_name text.now }
        ensures names { IsOk result ↔ IsTrue (is_name text.now) }
    {
        let bytes = text.as_bytes();
        if bytes.is_empty() {
            return Err(NameFault::Empty);
        }
        if bytes.len() > MAX_NAME_LEN {
            return Err(NameFault::TooLong);
        }
        match bad_byte(bytes) {
            Some(place) => Err(NameFault::BadByte(place)),
            None => Ok(Name::store(bytes)),
        }
    }

    fn store(text: &[u8]) -> Name
        requires { IsTrue (is_name text.now) }
        ensures { result ≡ text.now }
    {
        let mut bytes = [0; MAX_NAME_LEN];
        bytes[..text.len()].copy_from_slice(text);
        Name {
            bytes,
            len: text.len() as u8,
        }
    }

    /// The name as text.
    pub fn as_str(&self) -> &str
        ensures text { result.now ≡ self.now }
        ensures name { IsTrue (is_name self.now) }
    {
        let bytes = self.as_bytes();
        str::from_utf8(bytes).unwrap()
    }

    fn as_bytes(&self) -> &[u8]
        ensures bytes { result.now ≡ self.now }
        ensures name { IsTrue (is_name self.now) }
    {
        &self.bytes[..usize::from(self.len)]
    }

    /// The cells as three numbers, which are in the order of the names.
    fn words(&self) -> (u64, u64, u64)
        ensures words { result ≡ words_of self.now }
        ensures name { IsTrue (is_name self.now) }
    {
        (
            word(&self.bytes, 0),
            word(&self.bytes, 8),
            word(&self.bytes, 16),
        )
    }
}

/// The number that eight cells spell, from a place on, the first cell its highest digit.
fn word(cells: &[u8; MAX_NAME_LEN], place: usize) -> u64
    requires { place ≤ 16 }
    ensures { result ≡ word_from place cells.now }
{
    u64::from_be_bytes([
        cells[place],
        cells[place + 1],
        cells[place + 2],
        cells[place + 3],
        cells[place + 4],
        cells[place + 5],
        cells[place + 6],
        cells[place + 7],
    ])
}

/// Whether a name is among these, which may be in any order.
pub fn has_name(names: &[Name], name: Name) -> bool
    ensures { result ≡ has_name names.now name }
{
    names.iter().any(|other| name == *other)
}

impl PartialEq for Name {
    ghost eq = { same_name };

    ghost laws = { partial_equiv_from_equiv nat_list_eq_equiv };

    fn eq(&self, other: &Name) -> bool {
        self.words() == other.words()
    }
}

impl Eq for Name {
    ghost laws = { nat_list_eq_equiv };
}

impl PartialOrd for Name {
    ghost partial_cmp = { as_partial_cmp name_cmp };

    ghost laws = { texts_po };

    fn partial_cmp(&self, other: &Name) -> Option<Ordering> {
        Some(self.cmp(other))
    }
}

impl Ord for Name {
    ghost cmp = { name_cmp };

    ghost total = { nat_list_cmp_total };

    ghost matches_partial_cmp = { λ x y. refl };

    ghost matches_eq = { texts_ties };

    fn cmp(&self, other: &Name) -> Ordering {
        self.words().cmp(&other.words())
    }
}

impl fmt::Display for Name {
    ghost output = { λ n. Some n };

    ghost styled_output = { λ n spec. Some (laid_out spec n) };

    fn fmt<W: fmt::Write>(&self, f: &mut fmt::Formatter<W>) -> fmt::Result {
        f.pad(self.as_str())
    }
}

impl fmt::Debug for Name {
    fn fmt<W: fmt::Write>(&self, f: &mut fmt::Formatter<W>) -> fmt::Result {
        f.write_str(self.as_str())
    }
}
