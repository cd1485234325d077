//! The checks of commands: small questions about what is given.
ghost use Rattle.std.specs.Prelude.{◌≡◌};
ghost use Rattle.clr_rules.specs.Answer.{first_refusal};
ghost use Rattle.clr_rules.specs.Checks.{refuse};

pub(crate) mod begins;
pub(crate) mod callers;
pub(crate) mod clearances;
pub(crate) mod network;
pub(crate) mod orders;
pub(crate) mod rows;
pub(crate) mod steps;
pub(crate) mod work;

use clr_rules::Refusal;

/// The first check that applies.
pub(crate) fn first_of(checks: &[Option<Refusal>]) -> Option<Refusal>
    ensures { result ≡ first_refusal checks.now }
{
    for check in checks {
        if check.is_some() {
            return *check;
        }
    }
    None
}

/// A refusal where a test says so.
fn refuse(applies: bool, refusal: Refusal) -> Option<Refusal>
    ensures { result ≡ refuse applies refusal }
{
    if applies { Some(refusal) } else { None }
}
