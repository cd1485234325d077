//! The employees that each login may speak for.
ghost use Rattle.std.specs.Prelude.{◌≡◌};
ghost use Rattle.clr_staff.specs.Logins.{may_speak, speaks_for};

use crate::login::Login;
use clr_net::Name;
use std::marker::Model;

/// One employee that a login may speak for.
#[derive(Clone, Copy, Debug)]
pub struct LoginRow {
    pub login: Login,
    pub employee: Name,
}

/// Whether a row lets this login speak for this employee.
fn speaks_for(row: &LoginRow, login: &[u8], employee: &Name) -> bool
    ensures { result ≡ speaks_for login.now employee.now row.now }
{
    row.login.as_bytes() == login && row.employee == *employee
}

/// All rows: a login may speak for the employees of its rows, and for no other.
#[derive(Debug, Drop)]
pub struct Logins {
    rows: Vec<LoginRow>,
}

impl Model for Logins {
    ghost use Rattle.std.specs.Prelude.{List};
    ghost use Rattle.clr_staff.specs.declared.logins.LoginRow.{LoginRow};

    ghost Value = { List LoginRow };

    ghost view = { λ logins. logins.rows.items };
}

impl Logins {
    /// The logins of these rows.
    pub fn new(rows: Vec<LoginRow>) -> Logins
        ensures { result ≡ rows.items }
    {
        Logins { rows }
    }

    /// The rows, in their order.
    pub fn rows(&self) -> &[LoginRow]
        ensures { result.now ≡ self.now }
    {
        &self.rows
    }

    /// Whether a login may speak for an employee: some row has both. The login is compared byte by
    /// byte, so that case matters.
    pub fn may_speak(&self, login: &[u8], employee: &Name) -> bool
        ensures { result ≡ may_speak self.now login.now employee.now }
    {
        self.rows.iter().any(|row| speaks_for(row, login, employee))
    }
}
