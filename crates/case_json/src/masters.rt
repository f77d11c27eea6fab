//! The master data of a case.
ghost use Rattle.std.specs.Prelude.{◌≡◌, ◌+◌, ◌≤◌, ◌++◌, length, option_map, map, codes, IfOk, OnOk, IsErrOf, Some};
ghost use Rattle.std.specs.Prelude.{None};
ghost use Rattle.serde_json.specs.Data.{Data};
ghost use Rattle.serde_json.specs.View.{view};
ghost use Rattle.case_json.specs.Masters.{columns_of, row_in, table_in};
ghost use Rattle.json_parts.specs.Parts.{each, field, items_in, list_in, text_in};

use crate::attributes::Attributes;
use desk_base::{Grid, List, MAX_COLUMNS, MAX_ROWS, TextList};
use json_parts::{Part, PartFault, items, short_str};
use serde_json::Value;
use std::alloc::Global;
use std::marker::Model;

impl Part<Attributes> for Grid {
    ghost part_in = { λ _. table_in };

    fn read(alloc: Global, _attributes: &Attributes, value: &Value) -> Result<Grid, PartFault> {
        match value.clone() {
            Ok(table) => table_of(alloc, table),
            Err(_) => Err(PartFault::NoMemory),
        }
    }
}

/// The masters of a case, which are taken out of it.
pub fn masters_of(alloc: Global, mut value: Value) -> Result<List<Grid>, PartFault>
    ensures masters { IfOk result (λ grids. field (codes "masters") (list_in table_in) (view value) ≡ Some grids) }
    ensures none { IsErrOf result PartFault.WrongForm
        → field (codes "masters") (list_in table_in) (view value) ≡ None }
{
    match value.get_mut("masters") {
        Some(found) => tables_of(alloc, found.take()),
        None => Err(PartFault::WrongForm),
    }
}

/// The masters that an array has.
fn tables_of(alloc: Global, value: Value) -> Result<List<Grid>, PartFault>
    ensures tables { IfOk result (λ grids. list_in table_in (view value) ≡ Some grids) }
    ensures none { IsErrOf result PartFault.WrongForm → list_in table_in (view value) ≡ None }
{
    match value {
        Value::Array(tables) => each_table(alloc, tables),
        _ => Err(PartFault::WrongForm),
    }
}

fn each_table(alloc: Global, tables: Vec<Value>) -> Result<List<Grid>, PartFault>
    ensures tables { IfOk result (λ grids. each table_in (map view tables.items) ≡ Some grids) }
    ensures none { IsErrOf result PartFault.WrongForm → each table_in (map view tables.items) ≡ None }
{
    let mut grids = List::new(alloc);
    'tables: for table in tables {
        grids.push(table_of(alloc, table)?)?;
    }
    Ok(grids)
}

/// The master that a value is.
fn table_of(alloc: Global, value: Value) -> Result<Grid, PartFault>
    ensures table { IfOk result (λ grid. table_in (view value) ≡ Some grid) }
    ensures none { IsErrOf result PartFault.WrongForm → table_in (view value) ≡ None }
{
    match value {
        Value::Array(rows) => table_among(alloc, rows),
        _ => Err(PartFault::WrongForm),
    }
}

/// The master of a value that is an array of these rows.
fn table_among(alloc: Global, rows: Vec<Value>) -> Result<Grid, PartFault>
    ensures table { (value : Data) → items_in value ≡ Some (map view rows.items)
        → IfOk result (λ grid. table_in value ≡ Some grid) }
    ensures none { (value : Data) → items_in value ≡ Some (map view rows.items)
        → IsErrOf result PartFault.WrongForm → table_in value ≡ None }
{
    if rows.len() > MAX_ROWS as usize {
        return Err(PartFault::WrongForm);
    }
    match columns_of(rows.as_slice()) {
        Some(columns) => grid_of(alloc, columns, rows),
        None => Err(PartFault::WrongForm),
    }
}

/// The items of a value that is an array.
pub fn array(value: &Value) -> Option<&[Value]>
    ensures { option_map (λ items. map view items.now) result ≡ items_in (view value.now) }
{
    match value.as_array() {
        Some(list) => Some(list.as_slice()),
        None => None,
    }
}

/// How many columns the rows have, by the first of them. Where there is none they have the most.
pub fn columns_of(rows: &[Value]) -> Option<u16>
    ensures { result ≡ columns_of (map view rows.now) }
{
    let [first, ..] = rows else {
        return Some(MAX_COLUMNS as u16);
    };
    let count = array(first)?.len();
    if 1 <= count && count <= MAX_COLUMNS {
        Some(count as u16)
    } else {
        None
    }
}

/// A row of so many texts.
#[derive(Drop)]
pub struct Row {
    cells: TextList,
}

impl Model for Row {
    ghost use Rattle.std.specs.Prelude.{ℕ, List};

    ghost Value = { List (List ℕ) };

    ghost view = { λ row. row.cells };
}

impl Part<u16> for Row {
    ghost part_in = { row_in };

    fn read(alloc: Global, columns: &u16, value: &Value) -> Result<Row, PartFault> {
        let mut cells = TextList::new(alloc);
        push_row(&mut cells, *columns, value)?;
        Ok(Row { cells })
    }
}

/// The rows of so many texts. Each text is put straight after those before it, and each row is let go with its texts
/// there, so that their memory serves the next row.
fn grid_of(alloc: Global, columns: u16, rows: Vec<Value>) -> Result<Grid, PartFault>
    requires { length rows.items ≤ MAX_ROWS }
    ensures rows { IfOk result (λ grid. (grid.columns ≡ columns)
        × (each (row_in columns) (map view rows.items) ≡ Some grid.rows)) }
    ensures none { IsErrOf result PartFault.WrongForm → each (row_in columns) (map view rows.items) ≡ None }
{
    let count = rows.len() as u32;
    let mut cells = TextList::new(alloc);
    'rows: for row in rows {
        let pushed = push_row(&mut cells, columns, &row);
        drop(row);
        pushed?;
    }
    Ok(Grid::from_cells(columns, count, cells))
}

/// Puts the texts of a row after the cells.
fn push_row(cells: &mut TextList, columns: u16, row: &Value) -> Result<(), PartFault>
    ensures pushed { OnOk result
        (option_map (λ texts. cells.old ++ texts) (row_in columns (view row.now)) ≡ Some cells.new) }
    ensures full { OnOk result (length cells.new ≡ length cells.old + columns) }
    ensures none { IsErrOf result PartFault.WrongForm → row_in columns (view row.now) ≡ None }
{
    let texts = items(row)?;
    if texts.len() != usize::from(columns) {
        return Err(PartFault::WrongForm);
    }
    push_texts(cells, texts)
}

/// Puts a text for each value after the cells.
fn push_texts(cells: &mut TextList, values: &[Value]) -> Result<(), PartFault>
    ensures pushed { OnOk result
        (option_map (λ texts. cells.old ++ texts) (each text_in (map view values.now)) ≡ Some cells.new) }
    ensures full { OnOk result (length cells.new ≡ length cells.old + length values.now) }
    ensures none { IsErrOf result PartFault.WrongForm → each text_in (map view values.now) ≡ None }
{
    'values: for value in values {
        let Some(text) = short_str(value) else {
            return Err(PartFault::WrongForm);
        };
        cells.push(text)?;
    }
    Ok(())
}
