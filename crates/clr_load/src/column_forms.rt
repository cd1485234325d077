//! The columns of the tables of a register, as a database lists them.
ghost use Rattle.std.specs.Prelude.{◌≡◌, map};
ghost use Rattle.clr_load.specs.Forms.{column_by};
ghost use Rattle.clr_load.specs.Schema.{columns_in, first_columns, keys_in};

use crate::TableName;
use sqlite_schema::schema::Kind;

/// A column of a STRICT table without a default.
#[derive(Clone, Copy)]
pub struct ColumnForm {
    pub(crate) name: &'static str,
    pub(crate) kind: Kind,
    pub(crate) not_null: bool,
}

static META: [ColumnForm; 2] = [
    ColumnForm {
        name: "name",
        kind: Kind::Text,
        not_null: true,
    },
    ColumnForm {
        name: "value",
        kind: Kind::Integer,
        not_null: true,
    },
];

static SECTION: [ColumnForm; 2] = [
    ColumnForm {
        name: "name",
        kind: Kind::Text,
        not_null: true,
    },
    ColumnForm {
        name: "source",
        kind: Kind::Integer,
        not_null: true,
    },
];

static POINT: [ColumnForm; 8] = [
    ColumnForm {
        name: "name",
        kind: Kind::Text,
        not_null: true,
    },
    ColumnForm {
        name: "from_end",
        kind: Kind::Text,
        not_null: true,
    },
    ColumnForm {
        name: "to_end",
        kind: Kind::Text,
        not_null: true,
    },
    ColumnForm {
        name: "lockable",
        kind: Kind::Integer,
        not_null: true,
    },
    ColumnForm {
        name: "remote",
        kind: Kind::Integer,
        not_null: true,
    },
    ColumnForm {
        name: "position",
        kind: Kind::Integer,
        not_null: true,
    },
    ColumnForm {
        name: "hand_requester",
        kind: Kind::Text,
        not_null: false,
    },
    ColumnForm {
        name: "hand_number",
        kind: Kind::Integer,
        not_null: false,
    },
];

static STAFF: [ColumnForm; 3] = [
    ColumnForm {
        name: "name",
        kind: Kind::Text,
        not_null: true,
    },
    ColumnForm {
        name: "role",
        kind: Kind::Text,
        not_null: true,
    },
    ColumnForm {
        name: "supervisor",
        kind: Kind::Text,
        not_null: false,
    },
];

static CLEARANCE: [ColumnForm; 6] = [
    ColumnForm {
        name: "requester",
        kind: Kind::Text,
        not_null: true,
    },
    ColumnForm {
        name: "number",
        kind: Kind::Integer,
        not_null: true,
    },
    ColumnForm {
        name: "holder",
        kind: Kind::Text,
        not_null: true,
    },
    ColumnForm {
        name: "work",
        kind: Kind::Text,
        not_null: false,
    },
    ColumnForm {
        name: "phase",
        kind: Kind::Text,
        not_null: true,
    },
    ColumnForm {
        name: "last_at",
        kind: Kind::Integer,
        not_null: true,
    },
];

static STEP: [ColumnForm; 8] = [
    ColumnForm {
        name: "requester",
        kind: Kind::Text,
        not_null: true,
    },
    ColumnForm {
        name: "number",
        kind: Kind::Integer,
        not_null: true,
    },
    ColumnForm {
        name: "round",
        kind: Kind::Integer,
        not_null: true,
    },
    ColumnForm {
        name: "ordinal",
        kind: Kind::Integer,
        not_null: true,
    },
    ColumnForm {
        name: "action",
        kind: Kind::Text,
        not_null: true,
    },
    ColumnForm {
        name: "point",
        kind: Kind::Text,
        not_null: true,
    },
    ColumnForm {
        name: "state",
        kind: Kind::Text,
        not_null: true,
    },
    ColumnForm {
        name: "reader",
        kind: Kind::Text,
        not_null: false,
    },
];

static HOLD: [ColumnForm; 4] = [
    ColumnForm {
        name: "kind",
        kind: Kind::Text,
        not_null: true,
    },
    ColumnForm {
        name: "place",
        kind: Kind::Text,
        not_null: true,
    },
    ColumnForm {
        name: "requester",
        kind: Kind::Text,
        not_null: true,
    },
    ColumnForm {
        name: "number",
        kind: Kind::Integer,
        not_null: true,
    },
];

static NETWORK_POINT: [ColumnForm; 9] = [
    ColumnForm {
        name: "name",
        kind: Kind::Text,
        not_null: true,
    },
    ColumnForm {
        name: "from_end",
        kind: Kind::Text,
        not_null: true,
    },
    ColumnForm {
        name: "to_end",
        kind: Kind::Text,
        not_null: true,
    },
    ColumnForm {
        name: "lockable",
        kind: Kind::Integer,
        not_null: true,
    },
    ColumnForm {
        name: "remote",
        kind: Kind::Integer,
        not_null: true,
    },
    ColumnForm {
        name: "position",
        kind: Kind::Integer,
        not_null: true,
    },
    ColumnForm {
        name: "hand_requester",
        kind: Kind::Text,
        not_null: false,
    },
    ColumnForm {
        name: "hand_number",
        kind: Kind::Integer,
        not_null: false,
    },
    ColumnForm {
        name: "jumper",
        kind: Kind::Integer,
        not_null: true,
    },
];

static JOURNAL: [ColumnForm; 3] = [
    ColumnForm {
        name: "id",
        kind: Kind::Text,
        not_null: true,
    },
    ColumnForm {
        name: "number",
        kind: Kind::Integer,
        not_null: true,
    },
    ColumnForm {
        name: "sum",
        kind: Kind::Text,
        not_null: true,
    },
];

/// The columns of a table.
pub(crate) fn columns_of(table: TableName) -> &'static [ColumnForm]
    ensures { map column_by result.now ≡ columns_in table }
{
    match table {
        TableName::Meta => &META,
        TableName::Section => &SECTION,
        TableName::Point => &POINT,
        TableName::Staff => &STAFF,
        TableName::Clearance => &CLEARANCE,
        TableName::Step => &STEP,
        TableName::Hold => &HOLD,
        TableName::NetworkPoint => &NETWORK_POINT,
        TableName::Journal => &JOURNAL,
    }
}

/// The places of the columns of a table's key.
pub(crate) fn key_of(table: TableName) -> &'static [usize]
    ensures { result.now ≡ first_columns 1 (keys_in table) }
{
    match table {
        TableName::Clearance => &[1, 2],
        TableName::Step | TableName::Hold => &[1, 2, 3, 4],
        _ => &[1],
    }
}
