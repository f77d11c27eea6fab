//! The text of derived rows.
ghost use Rattle.std.specs.Prelude.{◌≡◌, ℕ, List, [], ◌∷◌, ◌++◌, IfOk, OnOk};
ghost use Rattle.desk_sheets.specs.Derived.{IsFull, derived_text, fields_of};
ghost use Rattle.desk_base.specs.Texts.{bytes_of};
ghost use Rattle.desk_sheets.specs.Writing.{HasWritten};

use crate::writing::{begun, finished, push_texts, write};
use csv::Writer;
use desk_base::{List, NoMemory, Text};
use desk_words::DerivedSheet;
use std::alloc::Global;

/// The text of derived rows: a header and a line for each, as CSV (docs/formats.md, *Derived rows*).
pub fn derived_text(alloc: Global, sheet: &DerivedSheet) -> Result<List<u8>, NoMemory>
    requires full { IsFull sheet.now }
    ensures { IfOk result (λ text. text ≡ derived_text sheet.now) }
{
    let header = fields(alloc, "row", sheet.attributes.as_slice())?;
    let mut writer = begun(alloc, header.as_slice())?;
    'rows: for row in sheet.rows.as_slice() {
        write_row(alloc, &mut writer, row)?;
    }
    finished(writer)
}

/// Writes a row of the master.
fn write_row(
    alloc: Global,
    writer: &mut Writer<Vec<u8>>,
    row: &(u32, List<Text>),
) -> Result<(), NoMemory>
    ensures { OnOk result ((rows : List (List (List ℕ)))
        → HasWritten writer.old rows → HasWritten writer.new (rows ++ fields_of row.now ∷ [])) }
{
    let number = row.0.to_string(alloc)?;
    let fields = fields(alloc, number.as_str(), row.1.as_slice())?;
    write(writer, fields.as_slice())
}

/// The fields of a line: the first, and the texts.
fn fields<'a>(alloc: Global, first: &'a str, texts: &'a [Text]) -> Result<Vec<&'a [u8]>, NoMemory>
    ensures { IfOk result (λ fields. bytes_of fields.items ≡ first.now ∷ texts.now) }
{
    let mut fields = Vec::new(alloc);
    fields.push(first.as_bytes())?;
    push_texts(&mut fields, texts)?;
    Ok(fields)
}
