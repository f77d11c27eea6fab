//! The text of records.
ghost use Rattle.std.specs.Prelude.{◌≡◌, ℕ, List, [], ◌∷◌, ◌++◌, IfOk, OnOk};
ghost use Rattle.desk_sheets.specs.Records.{IsFull, certain_word, fields_of, records_text};
ghost use Rattle.desk_base.specs.Texts.{bytes_of};
ghost use Rattle.desk_sheets.specs.Writing.{HasWritten};

use crate::writing::{begun, finished, push_texts, write};
use csv::Writer;
use desk_base::{List, NoMemory, Text};
use desk_words::{RecordLine, RecordSheet};
use std::alloc::Global;

/// The text of records: a header and a row for each, as CSV (docs/formats.md, *Reports and records*).
pub fn records_text(alloc: Global, sheet: &RecordSheet) -> Result<List<u8>, NoMemory>
    requires full { IsFull sheet.now }
    ensures { IfOk result (λ text. text ≡ records_text sheet.now) }
{
    let header = fields(
        alloc,
        "record",
        "session",
        "certain",
        sheet.attributes.as_slice(),
    )?;
    let mut writer = begun(alloc, header.as_slice())?;
    'lines: for line in sheet.lines.as_slice() {
        write_line(alloc, &mut writer, line)?;
    }
    finished(writer)
}

/// Writes the row of a record.
fn write_line(
    alloc: Global,
    writer: &mut Writer<Vec<u8>>,
    line: &RecordLine,
) -> Result<(), NoMemory>
    ensures { OnOk result ((rows : List (List (List ℕ)))
        → HasWritten writer.old rows → HasWritten writer.new (rows ++ fields_of line.now ∷ [])) }
{
    let number = line.number.to_string(alloc)?;
    let session = line.session.to_string(alloc)?;
    let certain = certain_word(line.certain);
    let fields = fields(
        alloc,
        number.as_str(),
        session.as_str(),
        certain,
        line.texts.as_slice(),
    )?;
    write(writer, fields.as_slice())
}

fn certain_word(certain: bool) -> &'static str
    ensures { result.now ≡ certain_word certain }
{
    if certain { "yes" } else { "no" }
}

/// The fields of a row: its number, its session, whether it is certain, and the texts.
fn fields<'a>(
    alloc: Global,
    number: &'a str,
    session: &'a str,
    certain: &'a str,
    texts: &'a [Text],
) -> Result<Vec<&'a [u8]>, NoMemory>
    ensures { IfOk result (λ fields.
        bytes_of fields.items ≡ number.now ∷ session.now ∷ certain.now ∷ texts.now) }
{
    let mut fields = Vec::new(alloc);
    fields.push(number.as_bytes())?;
    fields.push(session.as_bytes())?;
    fields.push(certain.as_bytes())?;
    push_texts(&mut fields, texts)?;
    Ok(fields)
}
