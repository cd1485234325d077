//! Checks of the caller.
ghost use Rattle.std.specs.Prelude.{◌≡◌};
ghost use Rattle.clr_rules.specs.Checks.{unknown_caller, wrong_role};
ghost use Rattle.clr_answer.specs.Begins.{role_fits};

use crate::checks::refuse;
use crate::near::Near;
use clr_net::Name;
use clr_rules::Refusal;
use clr_staff::Role;

/// Whether the caller is not among the staff.
pub(crate) fn unknown_caller(near: &Near, by: Name) -> Option<Refusal>
    ensures { result ≡ unknown_caller near.now.rows by }
{
    match near.staff.find(&by) {
        Some(_) => None,
        None => Some(Refusal::UnknownCaller),
    }
}

/// Which roles may ask.
#[derive(Clone, Copy)]
pub(crate) enum RoleTest {
    Operator,
    Field,
    Charge,
    ChargeOrOperator,
}

impl RoleTest {
    fn fits(self, role: Role) -> bool
        ensures { result ≡ role_fits self role }
    {
        match self {
            RoleTest::Operator => matches!(role, Role::Operator),
            RoleTest::Field => matches!(role, Role::Field),
            RoleTest::Charge => matches!(role, Role::Charge),
            RoleTest::ChargeOrOperator => matches!(role, Role::Charge | Role::Operator),
        }
    }
}

/// Whether the caller has another role.
pub(crate) fn wrong_role(near: &Near, by: Name, roles: RoleTest) -> Option<Refusal>
    ensures { result ≡ wrong_role near.now.rows by (role_fits roles) }
{
    let row = near.staff.find(&by)?;
    refuse(!roles.fits(row.role), Refusal::WrongRole)
}
