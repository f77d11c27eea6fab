//! The master `m`.
ghost use Rattle.std.specs.Prelude.{◌≡◌, ◌<◌, ◌≤◌, ◌∷◌, ◌++◌, [], length, IfOk, OnOk};
ghost use Rattle.desk_base.specs.declared.limits.TheConstants.{MAX_ROWS};
ghost use Rattle.master_rows.specs.Master.{IsMaster};
ghost use Rattle.desk_made.specs.Master.{master, numbered, row, rows_of};

use desk_base::{Grid, List, NoMemory, Text};
use master_rows::Master;
use std::alloc::Global;

/// How many rows the master has, and keys there are.
pub const ROWS: u32 = 20_000;

/// The master `m`.
pub fn master(alloc: Global) -> Result<Master, NoMemory>
    ensures master { IfOk result (λ made. made ≡ master) }
    ensures sound { IfOk result IsMaster }
{
    let mut columns = List::new(alloc);
    columns.push(Text::of(alloc, "c1")?)?;
    columns.push(Text::of(alloc, "c2")?)?;
    columns.push(Text::of(alloc, "c3")?)?;
    let grid = rows_of(alloc, ROWS)?;
    Ok(Master { columns, grid })
}

/// The rows with the numbers from 0 on, so many.
#[tactic(auto, unfolding(crate::specs::Master::rows_of))]
fn rows_of(alloc: Global, count: u32) -> Result<Grid, NoMemory>
    requires { count ≤ MAX_ROWS }
    ensures { IfOk result (λ grid. grid ≡ rows_of count) }
{
    let mut grid = Grid::new(alloc, 3);
    'numbers: for number in 0..count {
        push_row(alloc, &mut grid, number)?;
    }
    Ok(grid)
}

/// Adds the row with a number.
fn push_row(alloc: Global, grid: &mut Grid, number: u32) -> Result<(), NoMemory>
    requires number { number < ROWS }
    requires columns { grid.old.columns ≡ 3 }
    requires room { length grid.old.rows < MAX_ROWS }
    ensures { OnOk result (grid.new ≡ record grid.old { rows = grid.old.rows ++ row number ∷ [] }) }
{
    let key = numbered(alloc, "k", number)?;
    let other = numbered(alloc, "k", (7 * number + 1) % ROWS)?;
    let last = numbered(alloc, "z", number)?;
    grid.push_row(&[key.as_str(), other.as_str(), last.as_str()])
}

/// A text with a number after it.
pub fn numbered(alloc: Global, text: &str, number: u32) -> Result<Text, NoMemory>
    requires { length text.now ≤ 32 }
    ensures { IfOk result (λ made. made ≡ numbered text.now number) }
{
    let made = format!(in alloc; "{text}{number}")?;
    Text::of(alloc, made.as_str())
}
