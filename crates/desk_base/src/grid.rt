//! The cells of master data, in rows. A clause sees a `Grid` as its number of columns and the list of
//! its rows.
ghost use Rattle.std.specs.Prelude.{◌≡◌, ◌*◌, ◌<◌, ◌≤◌, ◌∷◌, ◌++◌, [], length, take, All, IfOk, OnOk, OnErr};
ghost use Rattle.desk_base.specs.Grid.{cell_text, rows_of};
ghost use Rattle.desk_base.specs.Texts.{bytes_of};

use crate::duplicate::Duplicate;
use crate::error::NoMemory;
use crate::limits::{MAX_SHEET_ROWS, MAX_TEXT};
use crate::text_list::TextList;
use std::alloc::Global;
use std::marker::Model;

/// Rows of texts, each with the same number of them. All cells lie in one block of memory, row after row.
#[derive(Debug, Drop)]
pub struct Grid {
    width: u16,
    count: u32,
    cells: TextList,
}

impl Model for Grid {
    ghost use Rattle.std.specs.Prelude.{◌≡◌, ◌*◌, ◌≤◌, length};
    ghost use Rattle.desk_base.specs.Grid.{GridRows, grid_rows_code, rows_of};
    ghost use Rattle.desk_base.specs.declared.limits.TheConstants.{MAX_SHEET_ROWS};

    ghost Value = { GridRows };

    ghost coded = { grid_rows_code };

    ghost view = { λ g. record { columns = g.width; rows = rows_of g.width g.count g.cells } };

    ghost invariant = { λ g. (g.count ≤ MAX_SHEET_ROWS) × (length g.cells ≡ g.count * g.width) };
}

impl Grid {
    /// A grid of so many columns, without rows.
    pub fn new(alloc: Global, columns: u16) -> Grid
        ensures { result ≡ record { columns = columns; rows = [] } }
    {
        Grid {
            width: columns,
            count: 0,
            cells: TextList::new(alloc),
        }
    }

    /// A grid of so many rows, whose cells lie one after another, row after row.
    pub fn from_cells(columns: u16, rows: u32, cells: TextList) -> Grid
        requires few { rows ≤ MAX_SHEET_ROWS }
        requires full { length cells ≡ rows * columns }
        ensures { result ≡ record { columns = columns; rows = rows_of columns rows cells } }
    {
        Grid {
            width: columns,
            count: rows,
            cells,
        }
    }

    /// Adds a row of texts, of at most 200 bytes each, after the others. Where there is no memory the grid is as before.
    pub fn push_row(&mut self, row: &[&str]) -> Result<(), NoMemory>
        requires full { length row.now ≡ self.old.columns }
        requires fits { All (λ text. length text.now ≤ MAX_TEXT) row.now }
        requires room { length self.old.rows < MAX_SHEET_ROWS }
        ensures pushed { OnOk result (self.new ≡ record self.old { rows = self.old.rows ++ bytes_of row.now ∷ [] }) }
        ensures unchanged { OnErr result (self.new ≡ self.old) }
    {
        let before = self.cells.len();
        match push_texts(&mut self.cells, row) {
            Ok(()) => {
                self.count += 1;
                Ok(())
            }
            Err(want) => {
                self.cells.truncate(before);
                Err(want)
            }
        }
    }

    /// How many rows there are, at most 2,000,000, each with a text in every column.
    pub fn rows(&self) -> u32
        ensures rows { result ≡ length self.now.rows }
        ensures few { result ≤ MAX_SHEET_ROWS }
        ensures full { All (λ row. length row ≡ self.now.columns) self.now.rows }
    {
        self.count
    }

    /// How many columns there are.
    pub fn columns(&self) -> u16
        ensures { result ≡ self.now.columns }
    {
        self.width
    }

    /// The text in a row and a column, both counted from 0, which has at most 200 bytes.
    pub fn cell(&self, row: u32, column: u16) -> &str
        requires row_within { row < length self.now.rows }
        requires column_within { column < self.now.columns }
        ensures text { result.now ≡ cell_text self.now row column }
        ensures fits { length result.now ≤ MAX_TEXT }
    {
        self.cells
            .get(row as usize * self.width as usize + column as usize)
    }
}

/// Adds texts after the others. Where there is no memory, some of them may have been added.
fn push_texts(cells: &mut TextList, texts: &[&str]) -> Result<(), NoMemory>
    requires { All (λ text. length text.now ≤ MAX_TEXT) texts.now }
    ensures pushed { OnOk result (cells.new ≡ cells.old ++ bytes_of texts.now) }
    ensures begins { take (length cells.old) cells.new ≡ cells.old }
{
    'texts: for text in texts {
        cells.push(text)?;
    }
    Ok(())
}

impl Duplicate for Grid {
    fn copy(&self) -> Result<Grid, NoMemory> {
        let cells = self.cells.copy()?;
        Ok(Grid {
            width: self.width,
            count: self.count,
            cells,
        })
    }
}
