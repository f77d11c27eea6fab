//! Writing rows of CSV in memory.
ghost use Rattle.std.specs.Prelude.{◌≡◌, ℕ, List as ListOf, [], ◌∷◌, ◌++◌, IfOk, OnOk, flat_map};
ghost use Rattle.csv.specs.Writing.{default_writer, row_text};
ghost use Rattle.desk_base.specs.Texts.{bytes_of};
ghost use Rattle.desk_sheets.specs.Writing.{HasWritten};

use csv::{Writer, WriterBuilder};
use desk_base::{List, NoMemory, Text};
use std::alloc::Global;

/// Puts texts after the fields of a row.
pub fn push_texts<'a>(fields: &mut Vec<&'a [u8]>, texts: &'a [Text]) -> Result<(), NoMemory>
    ensures { OnOk result (bytes_of fields.new.items ≡ bytes_of fields.old.items ++ texts.now) }
{
    'texts: for text in texts {
        fields.push(text.as_str().as_bytes())?;
    }
    Ok(())
}

/// A writer that has written a header of these fields.
pub fn begun(alloc: Global, header: &[&[u8]]) -> Result<Writer<Vec<u8>>, NoMemory>
    ensures { IfOk result (λ writer. HasWritten writer (bytes_of header.now ∷ [])) }
{
    let mut writer = WriterBuilder::new().from_writer(Vec::new(alloc));
    write(&mut writer, header)?;
    Ok(writer)
}

/// Writes a row of these fields. Over bytes in memory, and with rows as long as the header, only want of memory keeps a
/// writer from it.
pub fn write(writer: &mut Writer<Vec<u8>>, fields: &[&[u8]]) -> Result<(), NoMemory>
    ensures { OnOk result ((rows : ListOf (ListOf (ListOf ℕ)))
        → HasWritten writer.old rows → HasWritten writer.new (rows ++ bytes_of fields.now ∷ [])) }
{
    match writer.write_fields(fields) {
        Ok(()) => Ok(()),
        Err(_) => Err(NoMemory),
    }
}

/// The text of the rows that were written.
pub fn finished(writer: Writer<Vec<u8>>) -> Result<List<u8>, NoMemory>
    ensures { (rows : ListOf (ListOf (ListOf ℕ))) → HasWritten writer rows
        → IfOk result (λ text. text ≡ flat_map (row_text default_writer) rows) }
{
    match writer.into_inner() {
        Ok(bytes) => Ok(List::from_vec(bytes)),
        Err(_) => Err(NoMemory),
    }
}
