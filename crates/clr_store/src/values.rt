//! What is written in the columns of a row.
ghost use Rattle.std.specs.Prelude.{◌≡◌, ◌<◌, ◌^◌, Some, true};
ghost use Rattle.sqlite.specs.Values.{bound};
ghost use Rattle.sqlite.specs.declared.types.Value.TheVariants.{Text};
ghost use Rattle.sqlite_value.specs.Value.{owned};
ghost use Rattle.clr_rules.specs.Register.{first_state};
ghost use Rattle.clr_load.specs.Schema.{columns_in};
ghost use Rattle.clr_load.specs.Stored.{fits_columns};
ghost use Rattle.clr_load.specs.Tables.{flag_value, jumper_row, name_or_null, number_value};
ghost use Rattle.clr_load.specs.Tables.{place_row, position_value};
ghost use Rattle.clr_load.specs.declared.table_name.TableName.TheVariants.{Journal};
ghost use Rattle.clr_load.specs.declared.table_name.TableName.TheVariants.{NetworkPoint};

use clr_net::{Name, PointRow, Position};
use clr_rules::Place;
use sqlite::types::ValueRef;

/// A text.
pub(crate) fn text_value(text: &str) -> ValueRef<'_>
    ensures { owned result ≡ Text text.now }
{
    ValueRef::Text(text.as_bytes())
}

/// A name.
pub(crate) fn name_value(name: &Name) -> ValueRef<'_>
    ensures { owned result ≡ Text name.now }
{
    text_value(name.as_str())
}

/// A name, or NULL for none.
pub(crate) fn name_or_null(name: &Option<Name>) -> ValueRef<'_>
    ensures { owned result ≡ name_or_null name.now }
{
    match name {
        Some(name) => name_value(name),
        None => ValueRef::Null,
    }
}

/// A number.
pub(crate) fn number_value(number: u64) -> ValueRef<'static>
    requires { number < 2 ^ 63 }
    ensures { owned result ≡ number_value number }
{
    ValueRef::Int(number as i64)
}

/// 0 for no, 1 for yes.
pub(crate) fn flag_value(flag: bool) -> ValueRef<'static>
    ensures { owned result ≡ flag_value flag }
{
    ValueRef::Int(if flag { 1 } else { 0 })
}

/// 0 for open, 1 for closed.
pub(crate) fn position_value(position: Position) -> ValueRef<'static>
    ensures { owned result ≡ position_value position }
{
    ValueRef::Int(match position {
        Position::Opened => 0,
        Position::Closed => 1,
    })
}

/// The columns of a point in a position, in nobody's hand.
pub(crate) fn point_values(point: &PointRow, position: Position) -> [ValueRef<'_>; 9]
    ensures row { bound result ≡ jumper_row point.now
        (first_state (record point.now { position = position })) }
    ensures fits { fits_columns (columns_in NetworkPoint) (bound result) ≡ true }
{
    [
        name_value(&point.name),
        name_value(&point.from_end),
        name_value(&point.to_end),
        flag_value(point.lockable),
        flag_value(point.remote),
        position_value(position),
        ValueRef::Null,
        ValueRef::Null,
        flag_value(point.jumper),
    ]
}

/// The columns of a point in a position, in the hand of this clearance.
pub(crate) fn handed_values<'a>(
    point: &'a PointRow,
    position: Position,
    requester: &'a Name,
    number: u16,
) -> [ValueRef<'a>; 9]
    ensures row { bound result ≡ jumper_row point.now (record {
      point = point.now.name;
      position = position;
      hand = Some (record { requester = requester.now; number = number });
    }) }
    ensures fits { fits_columns (columns_in NetworkPoint) (bound result) ≡ true }
{
    [
        name_value(&point.name),
        name_value(&point.from_end),
        name_value(&point.to_end),
        flag_value(point.lockable),
        flag_value(point.remote),
        position_value(position),
        name_value(requester),
        number_value(u64::from(number)),
        flag_value(point.jumper),
    ]
}

/// The columns of a place.
pub(crate) fn place_values(place: &Place) -> [ValueRef<'_>; 3]
    requires { place.now.number < 2 ^ 63 }
    ensures row { bound result ≡ place_row place.now }
    ensures fits { fits_columns (columns_in Journal) (bound result) ≡ true }
{
    [
        text_value(place.id.as_str()),
        number_value(place.number),
        text_value(place.sum.as_str()),
    ]
}
