//! Whether the table is missing from a schema, and can be made beside what stands there.
ghost use Rattle.std.specs.Prelude.{◌≡◌, ◌==◌};
ghost use Rattle.std.specs.List.{list_all, list_any};
ghost use Rattle.sqlite_schema.specs.Names.{same_name as named_alike};
ghost use Rattle.row_store.specs.Table as desk;

use crate::footing::{INDEX_NAME, NAME, all_fit_key};
use sqlite_schema::names::same_name;
use sqlite_schema::schema::{Index, Schema, Table, View};

const COUNTS: &[u8] = b"sqlite_sequence";

/// Whether the table is missing, and can be made.
pub fn is_absent(schema: &Schema) -> bool
    ensures { result ≡ desk.is_absent schema.now }
{
    is_free(schema)
        && are_fit(schema.tables.as_slice())
        && are_owned(schema.tables.as_slice(), schema.indexes.as_slice())
        && has_counts(schema.tables.as_slice())
        && has_room(schema)
}

/// Whether neither the name of the table nor that of its index is taken.
fn is_free(schema: &Schema) -> bool
    ensures { result ≡ desk.is_free schema.now }
{
    !has_name(schema, NAME) && !has_name(schema, INDEX_NAME)
}

fn has_name(schema: &Schema, name: &[u8]) -> bool
    ensures { result ≡ desk.has_name schema.now name.now }
{
    names_table(schema.tables.as_slice(), name)
        || names_index(schema.indexes.as_slice(), name)
        || names_view(schema.views.as_slice(), name)
}

fn names_table(tables: &[Table], name: &[u8]) -> bool
    ensures { result ≡ list_any (λ table. named_alike table.name name.now) tables.now }
{
    tables
        .iter()
        .any(|table| same_name(table.name.as_slice(), name))
}

fn names_index(indexes: &[Index], name: &[u8]) -> bool
    ensures { result ≡ list_any (λ index. named_alike index.name name.now) indexes.now }
{
    indexes
        .iter()
        .any(|index| same_name(index.name.as_slice(), name))
}

fn names_view(views: &[View], name: &[u8]) -> bool
    ensures { result ≡ list_any (λ view. named_alike view.name name.now) views.now }
{
    views
        .iter()
        .any(|view| same_name(view.name.as_slice(), name))
}

/// Whether each foreign key that refers to the name refers to the key that the table will have.
fn are_fit(tables: &[Table]) -> bool
    ensures { result ≡ desk.are_fit tables.now }
{
    tables
        .iter()
        .all(|table| all_fit_key(table.references.as_slice()))
}

fn are_owned(tables: &[Table], indexes: &[Index]) -> bool
    ensures { result ≡ list_all (desk.is_owned tables.now) indexes.now }
{
    indexes.iter().all(|index| is_owned(tables, index))
}

fn is_owned(tables: &[Table], index: &Index) -> bool
    ensures { result ≡ desk.is_owned tables.now index.now }
{
    tables.iter().any(|table| table.tree == index.table)
}

/// Whether SQLite's table of counts stands where a table counts its rowids.
fn has_counts(tables: &[Table]) -> bool
    ensures { result ≡ desk.has_counts tables.now }
{
    !are_counted(tables) || names_table(tables, COUNTS)
}

fn are_counted(tables: &[Table]) -> bool
    ensures { result ≡ list_any (λ table. table.is_counted) tables.now }
{
    tables.iter().any(|table| table.is_counted)
}

/// Whether two numbers of trees are left.
fn has_room(schema: &Schema) -> bool
    ensures { result ≡ desk.has_room schema.now }
{
    are_tables_low(schema.tables.as_slice())
        && are_indexes_low(schema.indexes.as_slice())
        && are_views_low(schema.views.as_slice())
}

fn are_tables_low(tables: &[Table]) -> bool
    ensures { result ≡ list_all (λ table. desk.is_low table.tree) tables.now }
{
    tables.iter().all(|table| is_low(table.tree))
}

fn are_indexes_low(indexes: &[Index]) -> bool
    ensures { result ≡ list_all (λ index. desk.is_low index.tree) indexes.now }
{
    indexes.iter().all(|index| is_low(index.tree))
}

fn are_views_low(views: &[View]) -> bool
    ensures { result ≡ list_all (λ view. desk.is_low view.tree) views.now }
{
    views.iter().all(|view| is_low(view.tree))
}

fn is_low(tree: u32) -> bool
    ensures { result ≡ desk.is_low tree }
{
    tree < 65_534
}
