//! The records of a sheet, one after another. A clause sees a `SheetRecords` as the records that are left.
ghost use Rattle.std.specs.Prelude.{◌≡◌, ◌∷◌, [], false, IfOk, Ok, OnErr, if◌then◌else◌};
ghost use Rattle.csv.specs.Reading.{records, strip_bom};
ghost use Rattle.csv.specs.Records.{fields_of};
ghost use Rattle.master_rows.specs.Sheet.{delimited};

use crate::error::stopped;
use csv::{ByteRecord, Reader, ReaderBuilder};
use desk_base::NoMemory;
use std::alloc::Global;
use std::marker::Model;

/// The records of a sheet that are left.
#[derive(Drop)]
pub struct SheetRecords<'s> {
    reader: Reader<&'s [u8]>,
    is_over: bool,
}

impl<'s> Model for SheetRecords<'s> {
    ghost use Rattle.std.specs.Prelude.{◌≡◌, ℕ, List, false};
    ghost use Rattle.master_rows.specs.Reading.{IsBetween, records_left};

    ghost Value = { List (List (List ℕ)) };

    ghost view = { λ s. records_left s.is_over s.reader };

    ghost invariant = { λ s. s.is_over ≡ false → IsBetween s.reader };
}

impl<'s> SheetRecords<'s> {
    /// All records of a sheet with this byte between its fields, after one byte order mark at its start.
    pub fn of(alloc: Global, delimiter: u8, sheet: &'s [u8]) -> SheetRecords<'s>
        ensures { result ≡ records (delimited delimiter) (strip_bom sheet.now) }
    {
        let reader = ReaderBuilder::new()
            .has_headers(false)
            .flexible(true)
            .delimiter(delimiter)
            .from_reader(alloc, sheet);
        SheetRecords {
            reader,
            is_over: false,
        }
    }

    /// Takes the next record into `row`, and tells whether there was one. After the last, and after want of memory,
    /// none is left, and what `row` holds then is not said.
    pub fn next_into(&mut self, row: &mut ByteRecord) -> Result<bool, NoMemory>
        ensures next { IfOk result (λ found. self.old ≡ (if found then fields_of row.new ∷ self.new else [])) }
        ensures ended { result ≡ Ok false → self.new ≡ [] }
        ensures stopped { OnErr result (self.new ≡ []) }
    {
        if self.is_over {
            return Ok(false);
        }
        match self.reader.read_byte_record(row) {
            Ok(true) => Ok(true),
            Ok(false) => {
                self.is_over = true;
                Ok(false)
            }
            Err(error) => {
                self.is_over = true;
                Err(stopped(error))
            }
        }
    }
}
