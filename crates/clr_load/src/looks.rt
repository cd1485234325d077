//! Which layout of the tables of a register a schema is, if any.
ghost use Rattle.std.specs.Prelude.{◌≡◌, ◌↔◌, ◌<◌, [], ◌∷◌, map, false, true, IfNone, IfSome};
ghost use Rattle.std.specs.Prelude.{IsTrue};
ghost use Rattle.sqlite_value.specs.Keys.{plain};
ghost use Rattle.clr_load.specs.Forms.{column_by, index_at, index_in, index_text, table_with};
ghost use Rattle.clr_load.specs.Layout.{names_in};
ghost use Rattle.clr_load.specs.Schema.{schema_in, table_at, table_in};

use crate::TableName;
use crate::column_forms::{ColumnForm, columns_of, key_of};
use crate::layout::Layout;
use sqlite_items::Items;
use sqlite_schema::code::Terms;
use sqlite_schema::schema::{Column, Index, Schema, Stamps, Table};
use sqlite_value::keys::{Collation, Order};
use sqlite_value::value::Value;

fn is_null(value: &Value) -> bool
    ensures { IsTrue result ↔ (value.now ≡ Value.Null) }
{
    matches!(value, Value::Null)
}

/// Whether a column is one of a STRICT table, without a default, in the order of its bytes.
fn is_plain(column: &Column) -> bool
    ensures { IsTrue result ↔ ((column.now.is_strict ≡ true) × (column.now.default ≡ Value.Null)
        × (column.now.collation ≡ Collation.Binary)) }
{
    if !column.is_strict {
        return false;
    }
    if !is_null(&column.default) {
        return false;
    }
    column.collation == Collation::Binary
}

fn is_column(column: &Column, form: &ColumnForm) -> bool
    ensures { IsTrue result ↔ (column.now ≡ column_by form.now) }
{
    if column.name.as_slice() != form.name.as_bytes() {
        return false;
    }
    if column.kind != form.kind {
        return false;
    }
    if column.not_null != form.not_null {
        return false;
    }
    is_plain(column)
}

fn are_columns(columns: &[Column], forms: &[ColumnForm]) -> bool
    ensures { IsTrue result ↔ (columns.now ≡ map column_by forms.now) }
{
    if columns.len() != forms.len() {
        return false;
    }
    for place in 0..forms.len() {
        if !is_column(&columns[place], &forms[place]) {
            return false;
        }
    }
    true
}

fn has_no_terms(terms: &Terms) -> bool
    ensures { IsTrue result ↔ (terms.now ≡ []) }
{
    terms.roots.is_empty()
}

fn has_no_stamps(stamps: &Stamps) -> bool
    ensures { IsTrue result ↔ (stamps.now ≡ record { places = []; terms = []; formats = [] }) }
{
    if !stamps.places.is_empty() || !has_no_terms(&stamps.terms) {
        return false;
    }
    stamps.formats.is_empty()
}

fn is_only_key(keys: &Items<Items<usize>>, key: &[usize]) -> bool
    ensures { IsTrue result ↔ (keys.now ≡ key.now ∷ []) }
{
    let [only] = keys.as_slice() else {
        return false;
    };
    let places = only.as_slice();
    if places != key {
        return false;
    }
    true
}

fn is_plain_order(orders: &Items<Order>) -> bool
    ensures { IsTrue result ↔ (orders.now ≡ plain ∷ []) }
{
    match orders.as_slice() {
        [only] => only.digits == 0,
        _ => false,
    }
}

/// Whether a table has these columns, this key and no other rule.
fn is_table_with(table: &Table, name: &str, tree: u32, forms: &[ColumnForm], key: &[usize]) -> bool
    ensures { IsTrue result ↔ (table.now
        ≡ table_with name.now tree (map column_by forms.now) key.now) }
{
    if table.name.as_slice() != name.as_bytes() || table.tree != tree {
        return false;
    }
    if !are_columns(table.columns.as_slice(), forms) || table.key.is_some() {
        return false;
    }
    if table.primary.as_slice() != key || !is_only_key(&table.uniques, key) {
        return false;
    }
    if !is_plain_order(&table.orders) || !has_no_terms(&table.checks) {
        return false;
    }
    if !table.references.is_empty() || !table.computed.is_empty() {
        return false;
    }
    if !has_no_stamps(&table.stamps) {
        return false;
    }
    !table.is_counted
}

fn is_table(table: &Table, name: TableName, tree: u32) -> bool
    ensures { IsTrue result ↔ (table.now ≡ table_at tree name) }
{
    is_table_with(table, name.text(), tree, columns_of(name), key_of(name))
}

/// The name of the index that a database makes for a table's key.
fn index_name(table: TableName) -> &'static str
    ensures { result.now ≡ index_text table }
{
    match table {
        TableName::Meta => "sqlite_autoindex_meta_1",
        TableName::Section => "sqlite_autoindex_section_1",
        TableName::Point => "sqlite_autoindex_point_1",
        TableName::Staff => "sqlite_autoindex_staff_1",
        TableName::Clearance => "sqlite_autoindex_clearance_1",
        TableName::Step => "sqlite_autoindex_step_1",
        TableName::Hold => "sqlite_autoindex_hold_1",
        TableName::NetworkPoint => "sqlite_autoindex_network_point_1",
        TableName::Journal => "sqlite_autoindex_journal_1",
    }
}

/// Whether an index is that of the key of a table in this tree.
fn is_index(index: &Index, table: TableName, tree: u32) -> bool
    requires { tree < 18 }
    ensures { IsTrue result ↔ (index.now ≡ index_at tree table) }
{
    if index.name.as_slice() != index_name(table).as_bytes() {
        return false;
    }
    if index.tree != tree + 1 || index.table != tree {
        return false;
    }
    if index.columns.as_slice() != key_of(table) || index.order.digits != 0 {
        return false;
    }
    index.is_unique
}

fn are_tables(tables: &[Table], layout: Layout) -> bool
    ensures { IsTrue result ↔ (tables.now ≡ map (table_in layout) (names_in layout)) }
{
    let names = layout.tables();
    if tables.len() != names.len() {
        return false;
    }
    for place in 0..names.len() {
        if !is_table(&tables[place], names[place], layout.tree(names[place])) {
            return false;
        }
    }
    true
}

fn are_indexes(indexes: &[Index], layout: Layout) -> bool
    ensures { IsTrue result ↔ (indexes.now ≡ map (index_in layout) (names_in layout)) }
{
    let names = layout.tables();
    if indexes.len() != names.len() {
        return false;
    }
    for place in 0..names.len() {
        if !is_index(&indexes[place], names[place], layout.tree(names[place])) {
            return false;
        }
    }
    true
}

/// Whether a schema has the tables of a layout, and nothing else. A trigger, and a table that is
/// not understood, is among its views.
#[tactic(auto, using(crate::proofs::Alike::indexes_are))]
fn is_laid_out(schema: &Schema, layout: Layout) -> bool
    ensures { IsTrue result ↔ (schema.now ≡ schema_in layout) }
{
    if !are_tables(schema.tables.as_slice(), layout) {
        return false;
    }
    if !are_indexes(schema.indexes.as_slice(), layout) {
        return false;
    }
    schema.views.is_empty()
}

/// The layout that a schema is, if it is one.
#[tactic(auto, using(crate::proofs::Alike::none_of))]
pub(crate) fn layout_in(schema: &Schema) -> Option<Layout>
    ensures found { IfSome result (λ l. schema.now ≡ schema_in l) }
    ensures none { IfNone result ((l : _) → schema.now ≡ schema_in l → ⊥) }
{
    if is_laid_out(schema, Layout::AsMade) {
        return Some(Layout::AsMade);
    }
    if is_laid_out(schema, Layout::AsMoved) {
        return Some(Layout::AsMoved);
    }
    if is_laid_out(schema, Layout::AsMadeLogged) {
        return Some(Layout::AsMadeLogged);
    }
    if is_laid_out(schema, Layout::AsMovedLogged) {
        return Some(Layout::AsMovedLogged);
    }
    if is_laid_out(schema, Layout::OfOne) {
        return Some(Layout::OfOne);
    }
    None
}
