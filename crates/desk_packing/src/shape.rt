//! How long the lists of tables are: what has to be known of tables to pack changes of them.
ghost use Rattle.std.specs.Prelude.{◌≡◌, ◌+◌, ◌<◌, ◌^◌, ◌↔◌, IfOk, IsTrue, OnOk, IsErrOf, All, length, map};
ghost use Rattle.std.specs.Prelude.{slice_index, slice_set, unwrap_or};
ghost use Rattle.std.specs.List.{AllByRecursion};
ghost use Rattle.desk_words.specs.Tables.{AreTables, IsShort, lists_of, rows_of};
ghost use Rattle.desk_packing.specs.Lines.{line_of};
ghost use Rattle.desk_packing.specs.Shapes.{FitLengths, FitsFields, FitsIn, FitsPlace, grown, grown_all};
ghost use Rattle.desk_packing.specs.Shapes.{line_of_change, lines_of_changes, shape_of};

use crate::error::{FieldFault, PackFault};
use crate::kinds::{
    BATCHES, CLERKS, EDITIONS, MASTERS, RECORDS, REGIONS, RULEBOOKS, SCHEMAS, SESSIONS,
};
use crate::line::PackedRow;
use crate::row::{MOST_ROWS, pack_row};
use desk_base::{Duplicate, List, NoMemory, Room};
use desk_words::{Change, Tables};
use std::alloc::Global;
use std::marker::Model;

/// How long the lists of tables are. A clause sees it as the `Lengths` of `specs/Shapes.antt`.
#[derive(Debug, Drop)]
pub struct Shape {
    clerks: u32,
    schemas: u32,
    masters: u32,
    rulebooks: u32,
    editions: u32,
    regions: u32,
    sessions: List<u32>,
    records: List<u32>,
    batches: List<u32>,
}

impl Model for Shape {
    ghost use Rattle.desk_packing.specs.Shapes.{Lengths, lengths_code};

    ghost Value = { Lengths };

    ghost coded = { lengths_code };

    ghost view = { λ s. record {
      clerks = s.clerks;
      schemas = s.schemas;
      masters = s.masters;
      rulebooks = s.rulebooks;
      editions = s.editions;
      regions = s.regions;
      sessions = s.sessions;
      records = s.records;
      batches = s.batches;
    } };
}

/// Changes as rows of the SQL table.
#[derive(Debug, Drop)]
pub struct Packed {
    /// The row of each change, in the order of the changes.
    pub rows: List<PackedRow>,
    /// The shape of the tables after the changes.
    pub shape: Shape,
}

impl Shape {
    /// The shape of these tables.
    pub fn of(alloc: Global, tables: &Tables) -> Result<Shape, NoMemory>
        requires { AreTables (rows_of tables.now) }
        ensures { IfOk result (λ shape. shape ≡ shape_of (rows_of tables.now)) }
    {
        let sessions = lengths(alloc, &tables.sessions)?;
        let records = lengths(alloc, &tables.records)?;
        let batches = lengths(alloc, &tables.batches)?;
        Ok(Shape {
            clerks: tables.clerks.len() as u32,
            schemas: tables.schemas.len() as u32,
            masters: tables.masters.len() as u32,
            rulebooks: tables.rulebooks.len() as u32,
            editions: tables.editions.len() as u32,
            regions: tables.regions.len() as u32,
            sessions,
            records,
            batches,
        })
    }

    /// The rows of changes, each for the place where it goes in the tables that it meets.
    pub fn pack(&self, alloc: Global, changes: &List<Change>) -> Result<Packed, PackFault>
        ensures rows { IfOk result (λ packed. map line_of packed.rows ≡ lines_of_changes self.now changes.now) }
        ensures shape { IfOk result (λ packed. packed.shape ≡ grown_all self.now changes.now) }
        ensures fit { OnOk result (FitLengths self.now changes.now) }
        ensures fields { OnOk result (AllByRecursion FitsFields changes.now) }

        // Each refusal, exactly where it may come.
        ensures misfit { IsErrOf result PackFault.Misfit → FitLengths self.now changes.now → ⊥ }
        ensures too_long { IsErrOf result PackFault.TooLong → AllByRecursion FitsFields changes.now → ⊥ }
    {
        let mut shape = self.copy()?;
        let mut rows = List::new(alloc);
        'changes: for change in changes.as_slice() {
            rows.push(shape.pack_change(alloc, change)?)?;
        }
        Ok(Packed { rows, shape })
    }

    /// The row of a change, which is then counted among the others.
    fn pack_change(&mut self, alloc: Global, change: &Change) -> Result<PackedRow, PackFault>
        ensures line { IfOk result (λ row. line_of row ≡ line_of_change self.old change.now) }
        ensures grown { OnOk result (self.new ≡ grown self.old change.now) }
        ensures fits { OnOk result (FitsIn self.old change.now) }
        ensures fields { OnOk result (FitsFields change.now) }
        ensures misfit { IsErrOf result PackFault.Misfit → FitsIn self.old change.now → ⊥ }
        ensures too_long { IsErrOf result PackFault.TooLong → FitsFields change.now → ⊥ }
    {
        if !self.fits(change) {
            return Err(PackFault::Misfit);
        }
        let row = self.row_of(alloc, change)?;
        self.grow(change)?;
        Ok(row)
    }

    /// Whether the change fits lists of these lengths.
    fn fits(&self, change: &Change) -> bool
        ensures { IsTrue result ↔ FitsIn self.now change.now }
    {
        match change {
            Change::Clerk(place, _) => fits_place(*place, self.clerks),
            Change::Schema(_) => fits_place(self.schemas, self.schemas),
            Change::Master(_) => fits_place(self.masters, self.masters),
            Change::Rulebook(_) => fits_place(self.rulebooks, self.rulebooks),
            Change::Edition(_) => fits_place(self.editions, self.editions),
            Change::Region(_) => fits_place(self.regions, self.regions),
            Change::Session(owner, place, _) => fits_own(&self.sessions, *owner, Some(*place)),
            Change::Record(owner, _) => fits_own(&self.records, *owner, None),
            Change::Batch(owner, _) => fits_own(&self.batches, *owner, None),
        }
    }

    /// The row of a change for the place where it goes.
    fn row_of(&self, alloc: Global, change: &Change) -> Result<PackedRow, FieldFault>
        requires { FitsIn self.now change.now }
        ensures line { IfOk result (λ row. line_of row ≡ line_of_change self.now change.now) }
        ensures fields { OnOk result (FitsFields change.now) }
        ensures too_long { IsErrOf result FieldFault.TooLong → FitsFields change.now → ⊥ }
    {
        match change {
            Change::Clerk(place, row) => pack_row(alloc, CLERKS, 0, *place, row),
            Change::Schema(row) => pack_row(alloc, SCHEMAS, 0, self.schemas, row),
            Change::Master(row) => pack_row(alloc, MASTERS, 0, self.masters, row),
            Change::Rulebook(row) => pack_row(alloc, RULEBOOKS, 0, self.rulebooks, row),
            Change::Edition(row) => pack_row(alloc, EDITIONS, 0, self.editions, row),
            Change::Region(row) => pack_row(alloc, REGIONS, 0, self.regions, row),
            Change::Session(owner, place, row) => pack_row(alloc, SESSIONS, *owner, *place, row),
            Change::Record(owner, row) => {
                let place = self.records.as_slice()[*owner as usize];
                pack_row(alloc, RECORDS, *owner, place, row)
            }
            Change::Batch(owner, row) => {
                let place = self.batches.as_slice()[*owner as usize];
                pack_row(alloc, BATCHES, *owner, place, row)
            }
        }
    }

    /// Counts the row of a change among the others.
    fn grow(&mut self, change: &Change) -> Result<(), NoMemory>
        requires { FitsIn self.old change.now }
        ensures { OnOk result (self.new ≡ grown self.old change.now) }
    {
        match change {
            Change::Clerk(place, _) => {
                if *place == self.clerks {
                    self.sessions.push(0)?;
                    self.records.push(0)?;
                    self.batches.push(0)?;
                    self.clerks += 1;
                }
            }
            Change::Schema(_) => self.schemas += 1,
            Change::Master(_) => self.masters += 1,
            Change::Rulebook(_) => self.rulebooks += 1,
            Change::Edition(_) => self.editions += 1,
            Change::Region(_) => self.regions += 1,
            Change::Session(owner, place, _) => {
                let count = self.sessions.as_slice()[*owner as usize];
                if *place == count {
                    self.sessions.set(*owner as usize, count + 1);
                }
            }
            Change::Record(owner, _) => count_more(&mut self.records, *owner),
            Change::Batch(owner, _) => count_more(&mut self.batches, *owner),
        }
        Ok(())
    }
}

impl Duplicate for Shape {
    fn copy(&self) -> Result<Shape, NoMemory> {
        let sessions = self.sessions.copy()?;
        let records = self.records.copy()?;
        let batches = self.batches.copy()?;
        Ok(Shape {
            clerks: self.clerks,
            schemas: self.schemas,
            masters: self.masters,
            rulebooks: self.rulebooks,
            editions: self.editions,
            regions: self.regions,
            sessions,
            records,
            batches,
        })
    }
}

/// Whether a row fits at a place of a list of so many rows.
fn fits_place(place: u32, count: u32) -> bool
    ensures { IsTrue result ↔ FitsPlace place count }
{
    place <= count && (place as usize) < MOST_ROWS - 1
}

/// Whether a row fits at a place of the list of a clerk: at this one, or else after the others.
fn fits_own(counts: &List<u32>, owner: u32, place: Option<u32>) -> bool
    ensures { IsTrue result ↔ ((owner < length counts.now)
        × FitsPlace (unwrap_or place (slice_index counts.now owner)) (slice_index counts.now owner)) }
{
    match counts.as_slice().get(owner as usize) {
        Some(count) => fits_place(place.unwrap_or(*count), *count),
        None => false,
    }
}

/// Counts a row more in the list of a clerk.
fn count_more(counts: &mut List<u32>, owner: u32)
    requires owner { owner < length counts.old }
    requires short { slice_index counts.old owner + 1 < 2 ^ 31 }
    ensures { counts.new ≡ slice_set counts.old owner (slice_index counts.old owner + 1) }
{
    let count = counts.as_slice()[owner as usize];
    counts.set(owner as usize, count + 1);
}

/// The lengths of the clerks' own lists.
fn lengths<T>(alloc: Global, lists: &Room<Room<T>>) -> Result<List<u32>, NoMemory>
    requires { All IsShort (lists_of lists.now) }
    ensures { IfOk result (λ counts. counts ≡ map length (lists_of lists.now)) }
{
    let mut counts = List::new(alloc);
    'lists: for list in lists.as_slice() {
        counts.push(list.len() as u32)?;
    }
    Ok(counts)
}
