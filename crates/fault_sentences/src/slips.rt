//! Cells that likely are not what was meant.
ghost use Rattle.std.specs.Prelude.{◌≡◌, ◌++◌, ◌<◌, length, slice_index_or, [], IfOk, OnOk};
ghost use Rattle.std.specs.List.{list_any};
ghost use Rattle.desk_base.specs.Grid.{cell_text};
ghost use Rattle.fault_sentences.specs.Notes.{cell_note, cell_notes, cell_told, is_line_end, is_slip, is_spaced};
ghost use Rattle.fault_sentences.specs.Notes.{is_torn, quotes, slip_at, slip_words, slips_in, slips_in_row};

use crate::notes::add;
use crate::sentence::Sentence;
use crate::twins::name_at;
use desk_base::{Grid, List, NoMemory, Str};
use master_rows::Master;
use std::alloc::Global;

/// What is likely a slip in a cell.
#[derive(Clone, Copy, Debug, PartialEq, Eq)]
pub enum Slip {
    /// A line end in it, or a lone quote: a quote may be missing.
    Torn,
    /// A space at one of its ends.
    Spaced,
}

const SPACE: [u8; 1] = [b' '];

/// Adds a note on the cells of a master that have this kind of slip, if there are such.
pub(crate) fn note_cells(notes: &mut List<Str>, slip: Slip, master: &Master) -> Result<(), NoMemory>
    ensures { OnOk result (notes.new ≡ notes.old ++ cell_notes slip master.now) }
{
    let slips = slips_in(notes.allocator(), slip, &master.grid)?;
    let [first, others @ ..] = slips.as_slice() else {
        return Ok(());
    };
    add(
        notes,
        &cell_note(notes.allocator(), slip, master, *first, others.len())?,
    )
}

/// The cells that have this kind of slip, row after row: each by its row and its column, counted from 0.
fn slips_in(alloc: Global, slip: Slip, grid: &Grid) -> Result<List<(u32, u16)>, NoMemory>
    ensures { IfOk result (λ slips. slips ≡ slips_in slip grid.now) }
{
    let mut slips = List::new(alloc);
    'rows: for row in 0..grid.rows() {
        add_row(&mut slips, slip, grid, row)?;
    }
    Ok(slips)
}

/// Adds those of a row.
fn add_row(slips: &mut List<(u32, u16)>, slip: Slip, grid: &Grid, row: u32) -> Result<(), NoMemory>
    requires { row < length grid.now.rows }
    ensures { OnOk result (slips.new ≡ slips.old ++ slips_in_row slip grid.now row) }
{
    'columns: for column in 0..grid.columns() {
        add_cell(slips, slip, grid, row, column)?;
    }
    Ok(())
}

/// Adds a cell, if it has the slip.
fn add_cell(
    slips: &mut List<(u32, u16)>,
    slip: Slip,
    grid: &Grid,
    row: u32,
    column: u16,
) -> Result<(), NoMemory>
    requires row { row < length grid.now.rows }
    requires column { column < grid.now.columns }
    ensures { OnOk result (slips.new ≡ slips.old ++ slip_at slip grid.now row column) }
{
    if is_slip(slip, grid.cell(row, column).as_bytes()) {
        slips.push((row, column))
    } else {
        Ok(())
    }
}

fn is_slip(slip: Slip, cell: &[u8]) -> bool
    ensures { result ≡ is_slip slip cell.now }
{
    match slip {
        Slip::Torn => is_torn(cell),
        Slip::Spaced => is_spaced(cell),
    }
}

fn is_torn(cell: &[u8]) -> bool
    ensures { result ≡ is_torn cell.now }
{
    has_line_end(cell) || quotes(cell) % 2 == 1
}

fn has_line_end(text: &[u8]) -> bool
    ensures { result ≡ list_any is_line_end text.now }
{
    text.iter().any(|byte| is_line_end(*byte))
}

fn is_line_end(byte: u8) -> bool
    ensures { result ≡ is_line_end byte }
{
    byte == b'\n' || byte == b'\r'
}

fn quotes(text: &[u8]) -> usize
    ensures { result ≡ quotes text.now }
{
    text.iter().filter(|&&byte| byte == b'"').count()
}

fn is_spaced(cell: &[u8]) -> bool
    ensures { result ≡ is_spaced cell.now }
{
    cell.starts_with(&SPACE) || cell.ends_with(&SPACE)
}

#[tactic(auto, unfolding(crate::specs::Notes::cell_note))]
fn cell_note(
    alloc: Global,
    slip: Slip,
    master: &Master,
    place: (u32, u16),
    more: usize,
) -> Result<Sentence, NoMemory>
    ensures { IfOk result (λ note. note ≡ cell_note slip master.now place more) }
{
    let mut out = Sentence::new(alloc);
    cell_told(&mut out, master, place.0, place.1)?;
    out.words(slip_words(slip))?;
    out.so_more("; so has 1 more cell", "; so have ", " more cells", more)?;
    Ok(out)
}

/// The row of a cell, what stands there, and its column.
#[tactic(auto, unfolding(crate::specs::Notes::cell_told))]
fn cell_told(out: &mut Sentence, master: &Master, row: u32, column: u16) -> Result<(), NoMemory>
    ensures { OnOk result (out.new ≡ out.old ++ cell_told master.now row column) }
{
    out.words("row ")?;
    out.number(row as u64 + 1)?;
    out.words(" has ")?;
    out.quoted(cell_at(&master.grid, row, column))?;
    out.words(" in the column ")?;
    out.shown(column_at(master, column))
}

/// The name of a column, counted from 0, empty past the last.
fn column_at(master: &Master, column: u16) -> &[u8]
    ensures { result.now ≡ slice_index_or master.now.columns column [] }
{
    name_at(master.columns.as_slice(), usize::from(column))
}

/// The cell of a row and a column, counted from 0, empty past the last.
fn cell_at(grid: &Grid, row: u32, column: u16) -> &[u8]
    ensures { result.now ≡ cell_text grid.now row column }
{
    if row < grid.rows() && column < grid.columns() {
        grid.cell(row, column).as_bytes()
    } else {
        &[]
    }
}

fn slip_words(slip: Slip) -> &'static str
    ensures { result.now ≡ slip_words slip }
{
    match slip {
        Slip::Torn => ", with a line end or a lone quote",
        Slip::Spaced => ", with a space at an end",
    }
}
