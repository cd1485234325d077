//! In whose name a request may speak.
ghost use Rattle.std.specs.Prelude.{◌≡◌, if◌then◌else◌, All, IfOk, None, Some, length, map};
ghost use Rattle.httparse.specs.Spans.{IsHeaderWithin, header_bytes};
ghost use Rattle.clr_http.specs.Callers.{login_may_speak, login_of, may_ask};

use crate::fields::only_field;
use clr_net::Name;
use clr_rules::{Command, Text};
use clr_staff::{Login, Logins};
use httparse::spans::HeaderSpan;
use std::alloc::{AllocError, Global};

/// The login of a request with these fields, which lie in the buffer: the value of its one
/// `X-Forwarded-User`, where that is a login.
pub(crate) fn login_of(buffer: &[u8], headers: &[HeaderSpan]) -> Option<Login>
    requires { All (IsHeaderWithin (length buffer.now)) headers.now }
    ensures { result ≡ login_of (map (header_bytes buffer.now) headers.now) }
{
    match only_field(buffer, headers, "x-forwarded-user") {
        Some(value) => Login::from_bytes(value),
        None => None,
    }
}

/// Who speaks in a request: its login, and the employees that each login may speak for.
#[derive(Clone, Copy)]
pub(crate) struct Speaker<'s> {
    pub logins: &'s Option<Logins>,
    pub login: Option<Login>,
    /// The register notes the login.
    pub noted: bool,
}

impl Speaker<'_> {
    /// Whether the request may ask a command: it is in a name that the login may use.
    pub(crate) fn may_ask(&self, command: &Command) -> bool
        ensures { result ≡ may_ask self.now.logins.now self.now.login (Some command.now) }
    {
        match self.logins {
            None => true,
            Some(logins) => login_may_speak(logins, self.login, &command.caller),
        }
    }

    /// The login at which the register is given a command, if it notes one.
    pub(crate) fn noted_login(&self, alloc: Global) -> Result<Option<Text>, AllocError>
        ensures { IfOk result (λ text.
            text ≡ (if self.now.noted then self.now.login else None)) }
    {
        match self.login {
            Some(login) if self.noted => {
                let text = String::from_str(alloc, login.as_str())?;
                Ok(Some(Text::new(text)))
            }
            _ => Ok(None),
        }
    }
}

/// Whether a login, if there is one, may speak for an employee.
fn login_may_speak(logins: &Logins, login: Option<Login>, caller: &Name) -> bool
    ensures { result ≡ login_may_speak logins.now login caller.now }
{
    match login {
        Some(login) => logins.may_speak(login.as_bytes(), caller),
        None => false,
    }
}
