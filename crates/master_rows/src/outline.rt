//! The outline of a master: its columns, and how many rows it has.
ghost use Rattle.std.specs.Prelude.{◌≡◌, ◌≢◌, ℕ, List, [], ◌∷◌, ◌++◌, IfErr, IfOk, OnOk, Err};
ghost use Rattle.csv.specs.Records.{fields_of};
ghost use Rattle.master_rows.specs.Draft.{AreOutlined};
ghost use Rattle.master_rows.specs.Outline.{outline_of_records};
ghost use Rattle.master_rows.specs.Sheet.{read_records, sheet_records};

use crate::error::SheetFault;
use crate::header::header_columns;
use crate::row::row_fault;
use crate::sheet_records::SheetRecords;
use csv::ByteRecord;
use desk_base::{List, MAX_ROWS, Text};
use std::alloc::Global;

/// The columns of a master, and how many rows it has.
#[derive(Debug, Drop)]
pub struct Outline {
    /// The columns, in their order.
    pub columns: List<Text>,
    /// How many rows there are, at most 20,000.
    pub rows: u32,
}

/// The outline of the records that were taken so far, without a fault among them.
#[derive(Drop)]
pub(crate) struct OutlineDraft {
    pub(crate) columns: Option<List<Text>>,
    pub(crate) rows: u32,
}

impl OutlineDraft {
    /// Takes the next record: the header, or a row under it.
    fn take(&mut self, alloc: Global, next: &ByteRecord) -> Result<(), SheetFault>
        ensures taken { OnOk result ((taken : List (List (List ℕ)))
            → AreOutlined self.old.columns self.old.rows taken
            → AreOutlined self.new.columns self.new.rows (taken ++ fields_of next.now ∷ [])) }
        ensures fault { IfErr result (λ fault. fault ≢ SheetFault.NoMemory
            → (taken later : List (List (List ℕ))) → AreOutlined self.old.columns self.old.rows taken
            → read_records (taken ++ fields_of next.now ∷ later) ≡ Err fault) }
    {
        let Some(columns) = &self.columns else {
            self.columns = Some(header_columns(alloc, next)?);
            return Ok(());
        };
        if let Some(fault) = row_fault(MAX_ROWS, columns.len(), self.rows, next) {
            return Err(fault);
        }
        self.rows += 1;
        Ok(())
    }

    /// The outline of the records that were taken.
    pub(crate) fn finish(self) -> Result<Outline, SheetFault>
        ensures { (taken : List (List (List ℕ))) → AreOutlined self.columns self.rows taken
            → result ≡ outline_of_records taken }
    {
        let OutlineDraft { columns, rows } = self;
        match columns {
            Some(columns) => Ok(Outline { columns, rows }),
            None => Err(SheetFault::NoHeader),
        }
    }

    /// The outline of all records of a sheet.
    pub(crate) fn of_sheet(alloc: Global, sheet: &[u8]) -> Result<OutlineDraft, SheetFault>
        ensures taken { IfOk result (λ draft. AreOutlined draft.columns draft.rows (sheet_records sheet.now)) }
        ensures fault { IfErr result (λ fault. fault ≢ SheetFault.NoMemory
            → read_records (sheet_records sheet.now) ≡ Err fault) }
    {
        let mut records = SheetRecords::of(alloc, b',', sheet);
        let mut next = ByteRecord::new(alloc);
        let mut draft = OutlineDraft {
            columns: None,
            rows: 0,
        };
        'records: while records.next_into(&mut next)? {
            draft.take(alloc, &next)?;
        }
        Ok(draft)
    }
}
