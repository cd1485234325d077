//! The login of a person at the machine, as the proxy hands it on.
ghost use Rattle.std.specs.Prelude.{◌≡◌, IsTrue, if◌then◌else◌, Some, None, refl};
ghost use Rattle.std.specs.List.{list_all};
ghost use Rattle.clr_staff.specs.Login.{is_login, is_login_byte, read_login};

use std::fmt;
use std::marker::Model;

/// The most bytes that a login has.
const MAX_LOGIN_LEN: usize = 64;

/// The login of a person: 1 to 64 bytes of printable ASCII without the blank, `!` to `~`. Case
/// matters.
///
/// It is stored in place, so that copying it takes no memory.
#[derive(Clone, Copy)]
pub struct Login {
    bytes: [u8; 64],
    len: u8,
}

impl Model for Login {
    ghost use Rattle.std.specs.Prelude.{◌≡◌, ℕ, List, IsTrue, length, take};
    ghost use Rattle.std.proofs.Common.{sym};
    ghost use Rattle.clr_staff.specs.Login.{is_login, padded};

    ghost Value = { List ℕ };

    ghost view = { λ n. take n.len n.bytes };

    ghost invariant = { λ n. (n.bytes ≡ padded (take n.len n.bytes))
        × IsTrue (is_login (take n.len n.bytes)) × (n.len ≡ length (take n.len n.bytes)) };

    ghost inverse = { λ text. record { bytes = padded text; len = length text } };

    ghost inverse_ok = { λ n h i. record { bytes = sym h.0 i; len = sym h.2 i } };
}

/// Whether each byte may be in a login.
fn all_login_bytes(text: &[u8]) -> bool
    ensures { result ≡ list_all is_login_byte text.now }
{
    text.iter().all(|b| matches!(b, b'!'..=b'~'))
}

/// Whether a text is a login.
fn is_login(text: &[u8]) -> bool
    ensures { result ≡ is_login text.now }
{
    1 <= text.len() && text.len() <= MAX_LOGIN_LEN && all_login_bytes(text)
}

impl Login {
    /// Reads a login from a text. `None` where the text is none.
    pub fn read(text: &str) -> Option<Login>
        ensures { result ≡ read_login text.now }
    {
        Login::from_bytes(text.as_bytes())
    }

    /// The login that these bytes are. `None` where they are none.
    pub fn from_bytes(bytes: &[u8]) -> Option<Login>
        ensures { result ≡ read_login bytes.now }
    {
        if is_login(bytes) {
            Some(Login::store(bytes))
        } else {
            None
        }
    }

    fn store(text: &[u8]) -> Login
        requires { IsTrue (is_login text.now) }
        ensures { result ≡ text.now }
    {
        let mut bytes = [0; MAX_LOGIN_LEN];
        bytes[..text.len()].copy_from_slice(text);
        Login {
            bytes,
            len: text.len() as u8,
        }
    }

    /// The login as text.
    pub fn as_str(&self) -> &str
        ensures text { result.now ≡ self.now }
        ensures login { IsTrue (is_login self.now) }
    {
        let bytes = self.as_bytes();
        str::from_utf8(bytes).unwrap()
    }

    /// The bytes of the login.
    pub fn as_bytes(&self) -> &[u8]
        ensures bytes { result.now ≡ self.now }
        ensures login { IsTrue (is_login self.now) }
    {
        &self.bytes[..usize::from(self.len)]
    }
}

impl fmt::Debug for Login {
    fn fmt<W: fmt::Write>(&self, f: &mut fmt::Formatter<W>) -> fmt::Result {
        f.write_str(self.as_str())
    }
}
