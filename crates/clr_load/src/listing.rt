//! The statement that lists the rows of a table.
ghost use Rattle.std.specs.Prelude.{◌≡◌, [], List, IfErr, IfOk, IsTrue};
ghost use Rattle.sqlite.specs.Held.{state};
ghost use Rattle.sqlite.specs.Order.{Row as SqlRow};
ghost use Rattle.sqlite.specs.State.{HasCleanDisk, Shown};
ghost use Rattle.clr_load.specs.Cause.{SqlHasCause};
ghost use Rattle.clr_load.specs.Fault.{IsOfDatabase};
ghost use Rattle.clr_load.specs.Found.{Lists};
ghost use Rattle.clr_load.specs.Layout.{has_rows};
ghost use Rattle.clr_load.specs.Sql.{select_sql};
ghost use Rattle.clr_load.specs.Stored.{HasMeta, rows_in};

use crate::TableName;
use crate::fault::StoreFault;
use sqlite::{Alter, Row, Transaction};

/// Lists all rows of a table, in the order of the whole key.
pub(crate) fn select_sql(table: TableName) -> &'static str
    ensures { result.now ≡ select_sql table }
{
    match table {
        TableName::Meta => "SELECT name, value FROM meta ORDER BY name",
        TableName::Section => "SELECT name, source FROM section ORDER BY name",
        TableName::Point =>
            "SELECT name, from_end, to_end, lockable, remote, position, hand_requester, \
             hand_number FROM point ORDER BY name",
        TableName::Staff => "SELECT name, role, supervisor FROM staff ORDER BY name",
        TableName::Clearance =>
            "SELECT requester, number, holder, work, phase, last_at FROM clearance \
             ORDER BY requester, number",
        TableName::Step =>
            "SELECT requester, number, round, ordinal, action, point, state, reader FROM step \
             ORDER BY requester, number, round, ordinal",
        TableName::Hold =>
            "SELECT kind, place, requester, number FROM hold ORDER BY kind, place, requester, \
             number",
        TableName::NetworkPoint =>
            "SELECT name, from_end, to_end, lockable, remote, position, hand_requester, \
             hand_number, jumper FROM network_point ORDER BY name",
        TableName::Journal => "SELECT id, number, sum FROM journal ORDER BY id",
    }
}

/// All rows of a table, in the order of its key.
pub(crate) fn list_rows<S: Alter>(
    tx: &mut Transaction<'_, S>,
    table: TableName,
) -> Result<Vec<Row>, StoreFault>
    ensures lists { Lists S.Store tx.old tx.new IsOfDatabase (λ l. has_rows l table)
        (λ l t. rows_in l table t) (λ rows. rows.items) result }
    ensures shown { HasCleanDisk (state S.Store tx.new.conn.now) → IfOk result (λ rows.
        Shown (select_sql table) [] (state S.Store tx.old.conn.now)
        (state S.Store tx.new.conn.now) rows.items) }
    ensures cause { HasCleanDisk (state S.Store tx.new.conn.now)
        → IsTrue (state S.Store tx.old.conn.now).in_transaction → table ≡ TableName.Meta
        → (meta : List SqlRow) → HasMeta (state S.Store tx.old.conn.now).now meta
        → IfErr result (SqlHasCause (state S.Store tx.old.conn.now)
        (state S.Store tx.new.conn.now)) }
{
    let rows = tx.query_all(select_sql(table), &[])?;
    Ok(rows)
}
