//! A master that grows record by record. A clause sees a `Draft` as the records that it has taken, and how many rows
//! it may have.
ghost use Rattle.std.specs.Prelude.{◌≡◌, ◌≢◌, ◌≤◌, ℕ, List, [], ◌∷◌, ◌++◌, IfOk, IfErr, OnOk, OnErr, Err};
ghost use Rattle.csv.specs.Records.{fields_of};
ghost use Rattle.master_rows.specs.Sheet.{records_within, sheet_records};
ghost use Rattle.desk_base.specs.declared.limits.TheConstants.{MAX_SHEET_ROWS};

use crate::error::SheetFault;
use crate::header::header_columns;
use crate::master::Master;
use crate::row::next_row;
use crate::sheet_records::SheetRecords;
use csv::ByteRecord;
use desk_base::{Grid, List, Text};
use std::alloc::Global;
use std::marker::Model;

/// The records that were taken so far, without a fault among them.
#[derive(Drop)]
pub(crate) struct Draft {
    alloc: Global,
    most: u32,
    columns: Option<List<Text>>,
    grid: Grid,
}

impl Model for Draft {
    ghost use Rattle.std.specs.Prelude.{◌≤◌};
    ghost use Rattle.desk_base.specs.declared.limits.TheConstants.{MAX_SHEET_ROWS};
    ghost use Rattle.master_rows.specs.Draft.{DraftRecords, records_taken, HasNoFault};

    ghost Value = { DraftRecords };

    ghost view = { λ d. record { most = d.most; records = records_taken d.columns d.grid } };

    ghost invariant = { λ d. (d.most ≤ MAX_SHEET_ROWS) × HasNoFault d.most d.columns d.grid };
}

impl Draft {
    /// The draft without a record, which may have so many rows.
    fn new(alloc: Global, most: u32) -> Draft
        requires { most ≤ MAX_SHEET_ROWS }
        ensures { result ≡ record { most = most; records = [] } }
    {
        Draft {
            alloc,
            most,
            columns: None,
            grid: Grid::new(alloc, 0),
        }
    }

    /// Takes the next record: the header, or a row under it.
    fn take(&mut self, next: &ByteRecord) -> Result<(), SheetFault>
        ensures taken { OnOk result (self.new ≡ record self.old { records = self.old.records ++ fields_of next.now ∷ [] }) }
        ensures unchanged { OnErr result (self.new ≡ self.old) }
        ensures fault { IfErr result (λ fault. fault ≢ SheetFault.NoMemory
            → (later : List (List (List ℕ)))
            → records_within self.old.most (self.old.records ++ fields_of next.now ∷ later) ≡ Err fault) }
    {
        if self.columns.is_none() {
            let columns = header_columns(self.alloc, next)?;
            self.grid = Grid::new(self.alloc, columns.len() as u16);
            self.columns = Some(columns);
            return Ok(());
        }
        let row = next_row(self.alloc, self.most, &self.grid, next)?;
        self.grid.push_row(row.as_slice())?;
        Ok(())
    }

    /// The master of the records that were taken.
    pub(crate) fn finish(self) -> Result<Master, SheetFault>
        ensures { result ≡ records_within self.most self.records }
    {
        let Draft { columns, grid, .. } = self;
        match columns {
            Some(columns) => Ok(Master { columns, grid }),
            None => Err(SheetFault::NoHeader),
        }
    }

    /// The draft that has taken all records of a sheet, which may have so many rows.
    pub(crate) fn of_sheet(alloc: Global, most: u32, sheet: &[u8]) -> Result<Draft, SheetFault>
        requires { most ≤ MAX_SHEET_ROWS }
        ensures taken { IfOk result (λ draft. draft ≡ record { most = most; records = sheet_records sheet.now }) }
        ensures fault { IfErr result (λ fault. fault ≢ SheetFault.NoMemory
            → records_within most (sheet_records sheet.now) ≡ Err fault) }
    {
        let mut records = SheetRecords::of(alloc, b',', sheet);
        let mut next = ByteRecord::new(alloc);
        let mut draft = Draft::new(alloc, most);
        'records: while records.next_into(&mut next)? {
            draft.take(&next)?;
        }
        Ok(draft)
    }
}
