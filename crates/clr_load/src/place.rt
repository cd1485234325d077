//! The place of a register in its journal, in a table of its own.
ghost use Rattle.std.specs.Prelude.{◌≡◌, ◌∷◌, [], false, IfErr, IsTrue, Option};
ghost use Rattle.sqlite.specs.Held.{state};
ghost use Rattle.sqlite.specs.Order.{Row as SqlRow};
ghost use Rattle.sqlite.specs.State.{HasCleanDisk, Survives};
ghost use Rattle.clr_load.specs.RowsRead.{place_read, read_place};
ghost use Rattle.clr_load.specs.declared.table_name.TableName.TheVariants.{Journal};
ghost use Rattle.clr_load.specs.Cause.{SqlHasCause};
ghost use Rattle.clr_load.specs.Contract.{Gives, IsSaved, Yields};
ghost use Rattle.clr_load.specs.Layout.{Layout as AnyLayout, has_table};
ghost use Rattle.clr_load.specs.Loads.{Stays};
ghost use Rattle.clr_load.specs.Schema.{schema_in};
ghost use Rattle.clr_load.specs.Stored.{HasPlaceIn, IsPlaced};

use crate::TableName;
use crate::expected::list_table;
use crate::fault::StoreFault;
use crate::looks::layout_in;
use crate::reading::{number_at, text_at};
use clr_rules::{Place, Text};
use sqlite::{Alter, Connection, Row};
use sqlite_schema::schema::Schema;
use std::alloc::Global;

/// What the row of a place reads as.
#[tactic(auto, unfolding(crate::specs::RowsRead::read_place))]
fn place_in(alloc: Global, row: &Row) -> Result<Place, StoreFault>
    ensures { Yields (λ place. place) (read_place row.now) result }
{
    let id = text_at(TableName::Journal, 0, row)?;
    let number = number_at(TableName::Journal, 1, row)?;
    let sum = text_at(TableName::Journal, 2, row)?;
    let id = String::from_str(alloc, id)?;
    let sum = String::from_str(alloc, sum)?;
    Ok(Place {
        id: Text::new(id),
        number,
        sum: Text::new(sum),
    })
}

/// The place in the one row of its table.
fn only_place(alloc: Global, rows: &[Row]) -> Result<Place, StoreFault>
    ensures { (row : SqlRow) → rows.now ≡ row ∷ []
        → Yields (λ place. place) (read_place row) result }
{
    match rows.first() {
        Some(row) => place_in(alloc, row),
        None => Err(StoreFault::BadRow(TableName::Journal)),
    }
}

/// Whether a schema is that of a register with a journal.
#[tactic(auto, using(crate::proofs::Versioned::one_layout))]
fn is_logged(schema: &Schema) -> bool
    ensures { (l : AnyLayout) → schema.now ≡ schema_in l → result ≡ has_table l Journal }
{
    match layout_in(schema) {
        Some(layout) => layout.is_logged(),
        None => false,
    }
}

/// Reads the place of the register in its journal, and changes nothing. A register without a
/// journal has none.
///
/// `BadRow` of `journal` where the place does not read; `Sql` where a transaction is open, or the
/// database refuses or fails; `NoMemory` where memory runs out.
pub fn read_place<S: Alter>(conn: &mut Connection<S>) -> Result<Option<Place>, StoreFault>
    ensures mode { conn.old.in_transaction ≡ false → conn.new.in_transaction ≡ false }
    ensures place { HasCleanDisk (state S.Store conn.new) → (l : AnyLayout)
        → (state S.Store conn.old).now.schema ≡ schema_in l → (row : Option SqlRow)
        → HasPlaceIn l (state S.Store conn.old).now.trees row
        → Gives (λ place. place) (place_read row) result }
    ensures cause { conn.old.in_transaction ≡ false → HasCleanDisk (state S.Store conn.new)
        → (l : AnyLayout) → (state S.Store conn.old).now.schema ≡ schema_in l
        → IsPlaced l (state S.Store conn.old).now.trees
        → IfErr result (SqlHasCause (state S.Store conn.old) (state S.Store conn.new)) }
    ensures saved { conn.old.in_transaction ≡ false → HasCleanDisk (state S.Store conn.new)
        → IsTrue (state S.Store conn.new).is_open → IsSaved (state S.Store conn.new) }
    ensures same { HasCleanDisk (state S.Store conn.new) → IsTrue (state S.Store conn.new).is_open
        → (state S.Store conn.new).now ≡ (state S.Store conn.old).now }
    ensures was_saved { conn.old.in_transaction ≡ false → HasCleanDisk (state S.Store conn.new)
        → IsTrue (state S.Store conn.new).is_open → IsSaved (state S.Store conn.old) }
    ensures survives { Survives (state S.Store conn.old) (state S.Store conn.new) (λ _. ⊥) }
{
    if !conn.is_autocommit() {
        return Err(StoreFault::Sql);
    }
    if !is_logged(conn.schema()) {
        return Ok(None);
    }
    let rows = list_table(conn, TableName::Journal)?;
    let place = only_place(*rows.allocator(), &rows)?;
    Ok(Some(place))
}
