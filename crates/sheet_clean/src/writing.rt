//! Writing lines in memory.
ghost use Rattle.std.specs.Prelude.{◌≡◌, ◌++◌, [], ℕ, List, IfOk, OnOk};
ghost use Rattle.csv.specs.Writing.{row_text};
ghost use Rattle.desk_base.specs.Texts.{bytes_of};
ghost use Rattle.sheet_clean.specs.Setting.{writer_of};
ghost use Rattle.sheet_clean.specs.Writing.{HasWritten};
ghost use Rattle.sheet_clean.specs.declared.setting.Setting.{Setting as SettingOf};

use crate::setting::Setting;
use csv::{Writer, WriterBuilder};
use desk_base::NoMemory;
use std::alloc::Global;

/// A writer of lines.
pub(crate) fn writer(alloc: Global, setting: &Setting) -> Writer<Vec<u8>>
    ensures { HasWritten setting.now result [] }
{
    WriterBuilder::new()
        .delimiter(setting.delimiter)
        .from_writer(Vec::new(alloc))
}

/// Writes a line of these fields. Over bytes in memory, and with lines as long as the first, only want of memory keeps
/// a writer from it.
pub(crate) fn write(writer: &mut Writer<Vec<u8>>, fields: &[&[u8]]) -> Result<(), NoMemory>
    ensures { OnOk result ((setting : SettingOf) (text : List ℕ) → HasWritten setting writer.old text
        → HasWritten setting writer.new (text ++ row_text (writer_of setting) (bytes_of fields.now))) }
{
    match writer.write_fields(fields) {
        Ok(()) => Ok(()),
        Err(_) => Err(NoMemory),
    }
}

/// What was written.
pub(crate) fn text_of(writer: Writer<Vec<u8>>) -> Result<Vec<u8>, NoMemory>
    ensures { IfOk result (λ bytes. (setting : SettingOf) (text : List ℕ) → HasWritten setting writer text
        → bytes.items ≡ text) }
{
    match writer.into_inner() {
        Ok(bytes) => Ok(bytes),
        Err(_) => Err(NoMemory),
    }
}
