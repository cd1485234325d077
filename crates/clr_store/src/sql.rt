//! The statements that write the tables of a register, as texts.
ghost use Rattle.std.specs.Prelude.{◌≡◌};
ghost use Rattle.clr_load.specs.Sql.{create_sql, delete_sql, insert_sql, replace_sql};
ghost use Rattle.clr_store.specs.Renewed.{clear_sql};

use clr_load::TableName;

/// Makes a table.
pub(crate) fn create_sql(table: TableName) -> &'static str
    ensures { result.now ≡ create_sql table }
{
    match table {
        TableName::Meta =>
            "CREATE TABLE meta (name TEXT NOT NULL, value INTEGER NOT NULL, PRIMARY KEY (name)) \
             STRICT",
        TableName::Section => "CREATE TABLE section (name TEXT NOT NULL, source INTEGER NOT NULL, \
             PRIMARY KEY (name)) STRICT",
        TableName::Point => "CREATE TABLE point (name TEXT NOT NULL, from_end TEXT NOT NULL, \
             to_end TEXT NOT NULL, lockable INTEGER NOT NULL, remote INTEGER NOT NULL, \
             position INTEGER NOT NULL, hand_requester TEXT, hand_number INTEGER, \
             PRIMARY KEY (name)) STRICT",
        TableName::Staff =>
            "CREATE TABLE staff (name TEXT NOT NULL, role TEXT NOT NULL, supervisor TEXT, \
             PRIMARY KEY (name)) STRICT",
        TableName::Clearance =>
            "CREATE TABLE clearance (requester TEXT NOT NULL, number INTEGER NOT NULL, \
             holder TEXT NOT NULL, work TEXT, phase TEXT NOT NULL, last_at INTEGER NOT NULL, \
             PRIMARY KEY (requester, number)) STRICT",
        TableName::Step => "CREATE TABLE step (requester TEXT NOT NULL, \
             number INTEGER NOT NULL, round INTEGER NOT NULL, ordinal INTEGER NOT NULL, \
             action TEXT NOT NULL, point TEXT NOT NULL, state TEXT NOT NULL, reader TEXT, \
             PRIMARY KEY (requester, number, round, ordinal)) STRICT",
        TableName::Hold =>
            "CREATE TABLE hold (kind TEXT NOT NULL, place TEXT NOT NULL, requester TEXT NOT NULL, \
             number INTEGER NOT NULL, PRIMARY KEY (kind, place, requester, number)) STRICT",
        TableName::NetworkPoint => "CREATE TABLE network_point (name TEXT NOT NULL, \
             from_end TEXT NOT NULL, to_end TEXT NOT NULL, lockable INTEGER NOT NULL, \
             remote INTEGER NOT NULL, position INTEGER NOT NULL, hand_requester TEXT, \
             hand_number INTEGER, jumper INTEGER NOT NULL, PRIMARY KEY (name)) STRICT",
        TableName::Journal =>
            "CREATE TABLE journal (id TEXT NOT NULL, number INTEGER NOT NULL, sum TEXT NOT NULL, \
             PRIMARY KEY (id)) STRICT",
    }
}

/// Inserts a row, whose values are the parameters.
pub(crate) fn insert_sql(table: TableName) -> &'static str
    ensures { result.now ≡ insert_sql table }
{
    match table {
        TableName::Meta => "INSERT INTO meta VALUES (?1, ?2)",
        TableName::Section => "INSERT INTO section VALUES (?1, ?2)",
        TableName::Point => "INSERT INTO point VALUES (?1, ?2, ?3, ?4, ?5, ?6, ?7, ?8)",
        TableName::Staff => "INSERT INTO staff VALUES (?1, ?2, ?3)",
        TableName::Clearance => "INSERT INTO clearance VALUES (?1, ?2, ?3, ?4, ?5, ?6)",
        TableName::Step => "INSERT INTO step VALUES (?1, ?2, ?3, ?4, ?5, ?6, ?7, ?8)",
        TableName::Hold => "INSERT INTO hold VALUES (?1, ?2, ?3, ?4)",
        TableName::NetworkPoint =>
            "INSERT INTO network_point VALUES (?1, ?2, ?3, ?4, ?5, ?6, ?7, ?8, ?9)",
        TableName::Journal => "INSERT INTO journal VALUES (?1, ?2, ?3)",
    }
}

/// Deletes the row of a key, whose values are the parameters.
pub(crate) fn delete_sql(table: TableName) -> &'static str
    ensures { result.now ≡ delete_sql table }
{
    match table {
        TableName::Meta => "DELETE FROM meta WHERE name = ?1",
        TableName::Section => "DELETE FROM section WHERE name = ?1",
        TableName::Point => "DELETE FROM point WHERE name = ?1",
        TableName::Staff => "DELETE FROM staff WHERE name = ?1",
        TableName::Clearance => "DELETE FROM clearance WHERE requester = ?1 AND number = ?2",
        TableName::Step =>
            "DELETE FROM step WHERE requester = ?1 AND number = ?2 AND round = ?3 AND ordinal = ?4",
        TableName::Hold =>
            "DELETE FROM hold WHERE kind = ?1 AND place = ?2 AND requester = ?3 AND number = ?4",
        TableName::NetworkPoint => "DELETE FROM network_point WHERE name = ?1",
        TableName::Journal => "DELETE FROM journal WHERE id = ?1",
    }
}

/// Replaces the row of a key by one that has it. Its values are the parameters.
pub(crate) fn replace_sql(table: TableName) -> &'static str
    ensures { result.now ≡ replace_sql table }
{
    match table {
        TableName::Meta => "UPDATE meta SET name = ?1, value = ?2 WHERE name = ?1",
        TableName::Section => "UPDATE section SET name = ?1, source = ?2 WHERE name = ?1",
        TableName::Point => "UPDATE point SET name = ?1, from_end = ?2, to_end = ?3, \
             lockable = ?4, remote = ?5, position = ?6, hand_requester = ?7, hand_number = ?8 \
             WHERE name = ?1",
        TableName::Staff =>
            "UPDATE staff SET name = ?1, role = ?2, supervisor = ?3 WHERE name = ?1",
        TableName::Clearance => "UPDATE clearance SET requester = ?1, number = ?2, holder = ?3, \
             work = ?4, phase = ?5, last_at = ?6 WHERE requester = ?1 AND number = ?2",
        TableName::Step => "UPDATE step SET requester = ?1, number = ?2, round = ?3, \
             ordinal = ?4, action = ?5, point = ?6, state = ?7, reader = ?8 \
             WHERE requester = ?1 AND number = ?2 AND round = ?3 AND ordinal = ?4",
        TableName::Hold => "UPDATE hold SET kind = ?1, place = ?2, requester = ?3, number = ?4 \
             WHERE kind = ?1 AND place = ?2 AND requester = ?3 AND number = ?4",
        TableName::NetworkPoint => "UPDATE network_point SET name = ?1, from_end = ?2, \
             to_end = ?3, lockable = ?4, remote = ?5, position = ?6, hand_requester = ?7, \
             hand_number = ?8, jumper = ?9 WHERE name = ?1",
        TableName::Journal => "UPDATE journal SET id = ?1, number = ?2, sum = ?3 WHERE id = ?1",
    }
}

/// Deletes all rows.
pub(crate) fn clear_sql(table: TableName) -> &'static str
    ensures { result.now ≡ clear_sql table }
{
    match table {
        TableName::Meta => "DELETE FROM meta",
        TableName::Section => "DELETE FROM section",
        TableName::Point => "DELETE FROM point",
        TableName::Staff => "DELETE FROM staff",
        TableName::Clearance => "DELETE FROM clearance",
        TableName::Step => "DELETE FROM step",
        TableName::Hold => "DELETE FROM hold",
        TableName::NetworkPoint => "DELETE FROM network_point",
        TableName::Journal => "DELETE FROM journal",
    }
}
