//! The text of the contradictions of a rule.
ghost use Rattle.std.specs.Prelude.{◌≡◌, ℕ, List, [], ◌∷◌, ◌++◌, IfOk, OnOk};
ghost use Rattle.desk_base.specs.Texts.{bytes_of};
ghost use Rattle.desk_sheets.specs.Contradictions.{contradictions_text, fields_of, header};
ghost use Rattle.desk_sheets.specs.Writing.{HasWritten};

use crate::writing::{begun, finished, write};
use csv::Writer;
use desk_base::{List, NoMemory};
use desk_words::{ContradictionLine, ContradictionSheet};
use std::alloc::Global;

/// The text of the contradictions of a rule: a header and a line for each, as CSV (docs/formats.md, *Contradictions*).
pub fn contradictions_text(alloc: Global, sheet: &ContradictionSheet) -> Result<List<u8>, NoMemory>
    ensures { IfOk result (λ text. text ≡ contradictions_text sheet.now) }
{
    let mut writer = begun(alloc, &header())?;
    'lines: for line in sheet.lines.as_slice() {
        write_line(alloc, &mut writer, sheet, line)?;
    }
    finished(writer)
}

/// The fields of the header.
fn header() -> [&'static [u8]; 7]
    ensures { bytes_of result ≡ header }
{
    [
        b"rule",
        b"master",
        b"row",
        b"attribute",
        b"text",
        b"other_row",
        b"other_text",
    ]
}

/// Writes the line of a contradiction.
fn write_line(
    alloc: Global,
    writer: &mut Writer<Vec<u8>>,
    sheet: &ContradictionSheet,
    line: &ContradictionLine,
) -> Result<(), NoMemory>
    ensures { OnOk result ((rows : List (List (List ℕ)))
        → HasWritten writer.old rows → HasWritten writer.new (rows ++ fields_of sheet.now line.now ∷ [])) }
{
    let row = line.row.to_string(alloc)?;
    let other_row = line.other_row.to_string(alloc)?;
    let fields = [
        sheet.rule.as_str().as_bytes(),
        sheet.master.as_str().as_bytes(),
        row.as_str().as_bytes(),
        sheet.attribute.as_str().as_bytes(),
        line.text.as_str().as_bytes(),
        other_row.as_str().as_bytes(),
        line.other_text.as_str().as_bytes(),
    ];
    write(writer, &fields)
}
