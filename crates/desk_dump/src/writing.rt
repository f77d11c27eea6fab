//! The text of a dump as it is written, line by line.
ghost use Rattle.std.specs.Prelude.{◌≡◌, List, [], ◌∷◌, map, OnOk};
ghost use Rattle.serde_json.specs.Data.{Data};
ghost use Rattle.serde_json.specs.Written.{compact_text};
ghost use Rattle.json_parts.specs.Shapes.{whole};
ghost use Rattle.desk_dump.specs.Dumps.{first_line, last_line, row_line};
ghost use Rattle.desk_dump.specs.Writing.{with_lines, with_values};

use desk_base::{List, NoMemory};
use json_parts::JsonText;
use std::alloc::{AllocError, Global};
use std::marker::Model;

/// A row of a table, as a dump has it.
pub trait DumpRow {
    /// Its fields.
    ghost fields: { Self → List Data };

    /// Writes its fields after what was written.
    fn write_fields(&self, out: &mut JsonText) -> Result<(), AllocError>
        ensures { OnOk result (out.new ≡ with_values out.old (fields self.now)) };
}

/// The lines that are written.
#[derive(Drop)]
pub struct DumpText {
    bytes: Vec<u8>,
    /// How many lines there are, each of at least one byte.
    lines: u64,
}

impl Model for DumpText {
    ghost use Rattle.std.specs.Prelude.{◌≤◌, vec_len};
    ghost use Rattle.desk_dump.specs.Writing.{Written};

    ghost Value = { Written };

    ghost view = { λ text. (text.bytes.items, text.lines) };

    ghost invariant = { λ text. text.lines ≤ vec_len text.bytes };
}

impl DumpText {
    /// No lines.
    pub fn new(alloc: Global) -> DumpText
        ensures { result ≡ ([], 0) }
    {
        DumpText {
            bytes: Vec::new(alloc),
            lines: 0,
        }
    }

    /// Writes the first line.
    pub fn begin(&mut self) -> Result<(), NoMemory>
        ensures { OnOk result (self.new ≡ with_lines self.old (first_line ∷ [])) }
    {
        let mut out = JsonText::new(*self.bytes.allocator())?;
        out.begin_array()?;
        out.string("fixdesk")?;
        out.number(1)?;
        out.end_array()?;
        self.add(out.into_bytes())
    }

    /// Writes the line of a row of this kind that stands at these places.
    pub fn row<R: DumpRow>(&mut self, kind: &str, places: &[u64], row: &R) -> Result<(), NoMemory>
        ensures { OnOk result (self.new ≡ with_lines self.old (row_line kind.now places.now (R.fields row.now) ∷ [])) }
    {
        let mut out = JsonText::new(*self.bytes.allocator())?;
        out.begin_array()?;
        out.string(kind)?;
        write_numbers(&mut out, places)?;
        row.write_fields(&mut out)?;
        out.end_array()?;
        self.add(out.into_bytes())
    }

    /// Writes the last line, which tells how many stand before it.
    pub fn end(&mut self) -> Result<(), NoMemory>
        ensures { OnOk result (self.new ≡ with_lines self.old (last_line self.old.1 ∷ [])) }
    {
        let mut out = JsonText::new(*self.bytes.allocator())?;
        out.begin_array()?;
        out.string("end")?;
        out.number(self.lines)?;
        out.end_array()?;
        self.add(out.into_bytes())
    }

    /// Adds a line.
    fn add(&mut self, line: List<u8>) -> Result<(), NoMemory>
        ensures { (value : Data) → line ≡ compact_text value → OnOk result (self.new ≡ with_lines self.old (value ∷ [])) }
    {
        self.bytes.extend_from_slice(line.as_slice())?;
        self.bytes.push(b'\n')?;
        self.lines += 1;
        Ok(())
    }

    /// The bytes of the lines.
    pub fn into_bytes(self) -> List<u8>
        ensures { result ≡ self.0 }
    {
        List::from_vec(self.bytes)
    }
}

/// Writes numbers after what was written.
fn write_numbers(out: &mut JsonText, numbers: &[u64]) -> Result<(), AllocError>
    ensures { OnOk result (out.new ≡ with_values out.old (map whole numbers.now)) }
{
    'numbers: for number in numbers {
        out.number(*number)?;
    }
    Ok(())
}
