//! Positions of points and roles of employees as texts.
ghost use Rattle.std.specs.Prelude.{◌≡◌};
ghost use Rattle.clr_text.specs.Json.{position_text, role_text};

use clr_net::Position;
use clr_staff::Role;

/// The position of a point as a text.
pub fn position_text(position: Position) -> &'static str
    ensures { result.now ≡ position_text position }
{
    match position {
        Position::Opened => "open",
        Position::Closed => "closed",
    }
}

/// The role of an employee as a text.
pub fn role_text(role: Role) -> &'static str
    ensures { result.now ≡ role_text role }
{
    match role {
        Role::Operator => "operator",
        Role::Field => "field",
        Role::Charge => "charge",
    }
}
