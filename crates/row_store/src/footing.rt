//! What stands in the schema of a file: no object of the table's name, the one table, or something else.
ghost use Rattle.std.specs.Prelude.{◌≡◌, ◌↔◌, false, true, find, option_map, unwrap_or, IsErr, IfOk, OnOk};
ghost use Rattle.std.specs.List.{list_all};
ghost use Rattle.sqlite.specs.Held.{state};
ghost use Rattle.row_store.specs.Calls.{Lasts};
ghost use Rattle.row_store.specs.Table as desk;

use crate::rest::at_rest;
use crate::vacancy::is_absent;
use sqlite::types::Value;
use sqlite::{Alter, Connection, Error};
use sqlite_items::Items;
use sqlite_schema::code::Terms;
use sqlite_schema::names::same_name;
use sqlite_schema::schema::{Column, Index, Kind, Reference, Schema, Stamps, Table};
use sqlite_value::keys::{Collation, Order};
use sqlite_value::value::Bytes;

pub const NAME: &[u8] = b"desk_rows";

pub const INDEX_NAME: &[u8] = b"sqlite_autoindex_desk_rows_1";

const KEY: &[usize] = &[1, 2, 3];

/// What stands in the schema of a file.
#[derive(Clone, Copy, Debug, PartialEq, Eq)]
pub enum Footing {
    /// No table, index or view of the table's name, nor of its index. Others may stand in it.
    Absent,
    /// The table stands in it as this crate makes it. Other tables, indexes and views may stand beside it.
    Desk,
    /// Something else has the name, or touches the table: another writer made it.
    Other,
}

/// What stands in the schema of a connection, where no transaction is under way.
pub fn footing_of<S: Alter>(conn: &Connection<S>) -> Result<Footing, Error>
    ensures footing { IfOk result (λ footing. footing ≡ desk.footing_of (state S.Store conn.now).now.schema) }
    ensures table { IfOk result (λ footing. (footing ≡ Footing.Desk)
        ↔ desk.IsMadeBeside (state S.Store conn.now).now.schema) }
    ensures lasts { OnOk result (Lasts (state S.Store conn.now)) }
    ensures under_way { IsErr result ↔ (conn.now.in_transaction ≡ true) }
{
    at_rest(conn)?;
    Ok(found_in(conn.schema()))
}

/// What stands in a schema.
fn found_in(schema: &Schema) -> Footing
    ensures { result ≡ desk.footing_of schema.now }
{
    if is_absent(schema) {
        Footing::Absent
    } else if is_desk(schema) {
        Footing::Desk
    } else {
        Footing::Other
    }
}

fn is_empty<T>(items: &Items<T>) -> bool
    ensures { result ≡ desk.is_empty items.now }
{
    items.as_slice().is_empty()
}

/// Whether the table stands in the schema, with its own index, and nothing else touches it.
fn is_desk(schema: &Schema) -> bool
    ensures { result ≡ desk.is_desk schema.now }
{
    match called(schema.tables.as_slice()) {
        None => false,
        Some(table) => stands_in(schema, table),
    }
}

/// The table that has the name.
fn called(tables: &[Table]) -> Option<&Table>
    ensures { option_map (λ table. table.now) result ≡ find desk.is_called tables.now }
{
    tables.iter().find(|table| is_called(table))
}

fn is_called(table: &Table) -> bool
    ensures { result ≡ desk.is_called table.now }
{
    same_name(table.name.as_slice(), NAME)
}

fn stands_in(schema: &Schema, table: &Table) -> bool
    ensures { result ≡ desk.stands_in schema.now table.now }
{
    is_desk_table(table)
        && are_beside(schema.tables.as_slice(), table.tree)
        && have_desk_index(schema.indexes.as_slice(), table.tree)
}

fn have_desk_index(indexes: &[Index], tree: u32) -> bool
    ensures { result ≡ desk.have_desk_index tree indexes.now }
{
    begin_with_own(indexes, tree) && are_indexes_beside(indexes, tree)
}

/// Whether the first index on the table is that of its key.
fn begin_with_own(indexes: &[Index], tree: u32) -> bool
    ensures { result ≡ unwrap_or (option_map (desk.is_desk_index tree) (find (desk.is_on tree) indexes.now)) false }
{
    match indexes.iter().find(|index| index.table == tree) {
        None => false,
        Some(index) => is_desk_index(index, tree),
    }
}

fn are_beside(tables: &[Table], tree: u32) -> bool
    ensures { result ≡ list_all (desk.is_beside tree) tables.now }
{
    tables.iter().all(|table| is_beside(table, tree))
}

fn are_indexes_beside(indexes: &[Index], tree: u32) -> bool
    ensures { result ≡ list_all (desk.is_index_beside tree) indexes.now }
{
    indexes.iter().all(|index| is_index_beside(index, tree))
}

fn is_index_beside(index: &Index, tree: u32) -> bool
    ensures { result ≡ desk.is_index_beside tree index.now }
{
    index.table != tree || !index.is_unique || index.columns.as_slice() == KEY
}

fn is_beside(table: &Table, tree: u32) -> bool
    ensures { result ≡ desk.is_beside tree table.now }
{
    (table.tree != tree || is_desk_table(table)) && all_fit_key(table.references.as_slice())
}

pub fn all_fit_key(references: &[Reference]) -> bool
    ensures { result ≡ list_all desk.fits_key references.now }
{
    references.iter().all(|reference| fits_key(reference))
}

/// Whether a foreign key refers to another table, or to the key of this one.
fn fits_key(reference: &Reference) -> bool
    ensures { result ≡ desk.fits_key reference.now }
{
    !same_name(NAME, reference.parent.as_slice()) || refers_to_key(reference)
}

fn refers_to_key(reference: &Reference) -> bool
    ensures { result ≡ desk.refers_to_key reference.now }
{
    reference.columns.as_slice().len() == 3 && names_key(reference.parent_columns.as_slice())
}

fn names_key(names: &[Bytes]) -> bool
    ensures { result ≡ desk.names_key names.now }
{
    match names {
        [] => true,
        [kind, owner, place] => {
            same_name(b"kind", kind.as_slice())
                && same_name(b"owner", owner.as_slice())
                && same_name(b"place", place.as_slice())
        }
        _ => false,
    }
}

fn is_desk_index(index: &Index, tree: u32) -> bool
    ensures { result ≡ desk.is_desk_index tree index.now }
{
    index.name.as_slice() == INDEX_NAME
        && index.table == tree
        && index.columns.as_slice() == KEY
        && index.order.digits == 0
        && index.is_unique
}

fn is_desk_table(table: &Table) -> bool
    ensures { result ≡ desk.is_desk_table table.now }
{
    table.name.as_slice() == NAME
        && table.tree < 65_536
        && are_desk_columns(table.columns.as_slice())
        && has_desk_key(table)
        && is_bare(table)
}

fn are_desk_columns(columns: &[Column]) -> bool
    ensures { result ≡ desk.are_desk_columns columns.now }
{
    match columns {
        [kind, owner, place, body] => {
            is_number_column(b"kind", kind)
                && is_number_column(b"owner", owner)
                && is_number_column(b"place", place)
                && is_bytes_column(b"body", body)
        }
        _ => false,
    }
}

fn is_number_column(name: &[u8], column: &Column) -> bool
    ensures { result ≡ desk.is_number_column name.now column.now }
{
    matches!(column.kind, Kind::Integer) && is_plain_column(name, column)
}

fn is_bytes_column(name: &[u8], column: &Column) -> bool
    ensures { result ≡ desk.is_bytes_column name.now column.now }
{
    matches!(column.kind, Kind::Any) && is_plain_column(name, column)
}

fn is_plain_column(name: &[u8], column: &Column) -> bool
    ensures { result ≡ desk.is_plain_column name.now column.now }
{
    column.name.as_slice() == name
        && !column.is_strict
        && column.not_null
        && matches!(column.default, Value::Null)
        && matches!(column.collation, Collation::Binary)
}

fn has_desk_key(table: &Table) -> bool
    ensures { result ≡ desk.has_desk_key table.now }
{
    table.key.is_none()
        && table.primary.as_slice() == KEY
        && is_only(table.uniques.as_slice(), KEY)
        && is_only_plain(table.orders.as_slice())
}

fn is_only(lists: &[Items<usize>], wanted: &[usize]) -> bool
    ensures { result ≡ desk.is_only lists.now wanted.now }
{
    match lists {
        [list] => list.as_slice() == wanted,
        _ => false,
    }
}

fn is_only_plain(orders: &[Order]) -> bool
    ensures { result ≡ desk.is_only_plain orders.now }
{
    match orders {
        [order] => order.digits == 0,
        _ => false,
    }
}

fn is_bare(table: &Table) -> bool
    ensures { result ≡ desk.is_bare table.now }
{
    has_no_term(&table.checks)
        && is_empty(&table.references)
        && is_empty(&table.computed)
        && are_unstamped(&table.stamps)
        && !table.is_counted
}

fn are_unstamped(stamps: &Stamps) -> bool
    ensures { result ≡ desk.are_unstamped stamps.now }
{
    is_empty(&stamps.places) && has_no_term(&stamps.terms) && is_empty(&stamps.formats)
}

fn has_no_term(terms: &Terms) -> bool
    ensures { result ≡ desk.is_empty terms.now }
{
    is_empty(&terms.roots)
}
