//! The headers of the sheets.
ghost use Rattle.std.specs.Prelude.{◌≡◌, ◌++◌, List, ℕ, IfOk, OnOk};
ghost use Rattle.desk_base.specs.Texts.{bytes_of};
ghost use Rattle.sheet_clean.specs.Fields.{clean_header};
ghost use Rattle.sheet_clean.specs.Sheets.{change_header, conflict_header, dissent_header, heads, line_text};
ghost use Rattle.sheet_clean.specs.Writing.{HasWritten, sheets_seen};
ghost use Rattle.sheet_clean.specs.declared.setting.Setting.{Setting as SettingOf};

use crate::drafts::{Drafts, SheetTexts};
use crate::setting::Setting;
use crate::writing::write;
use csv::Writer;
use desk_base::{NoMemory, Str};
use std::alloc::Global;

/// The headers of the sheets.
pub fn heads(alloc: Global, setting: &Setting, header: &[Str]) -> Result<SheetTexts, NoMemory>
    ensures { IfOk result (λ texts. sheets_seen texts ≡ heads setting.now header.now) }
{
    let mut drafts = Drafts::new(alloc, setting);
    let clean = clean_header(alloc, setting, header)?;
    write(&mut drafts.clean, clean.as_slice())?;
    write_change_header(&mut drafts.changes)?;
    write_conflict_header(&mut drafts.conflicts)?;
    write_dissent_header(&mut drafts.dissents)?;
    let texts = drafts.finish()?;
    Ok(texts)
}

/// Writes the header of the sheet of changes.
fn write_change_header(writer: &mut Writer<Vec<u8>>) -> Result<(), NoMemory>
    ensures { OnOk result ((setting : SettingOf) (text : List ℕ) → HasWritten setting writer.old text
        → HasWritten setting writer.new (text ++ line_text setting change_header)) }
{
    let fields: [&[u8]; 7] = [
        b"row",
        b"attribute",
        b"typed",
        b"fixed",
        b"rule",
        b"master",
        b"master_row",
    ];
    write(writer, fields.as_slice())?;
    Ok(())
}

/// Writes the header of the sheet of conflicts.
fn write_conflict_header(writer: &mut Writer<Vec<u8>>) -> Result<(), NoMemory>
    ensures { OnOk result ((setting : SettingOf) (text : List ℕ) → HasWritten setting writer.old text
        → HasWritten setting writer.new (text ++ line_text setting conflict_header)) }
{
    let fields: [&[u8]; 10] = [
        b"row",
        b"attribute",
        b"first",
        b"first_rule",
        b"first_master",
        b"first_row",
        b"second",
        b"second_rule",
        b"second_master",
        b"second_row",
    ];
    write(writer, fields.as_slice())?;
    Ok(())
}

/// Writes the header of the sheet of dissents.
fn write_dissent_header(writer: &mut Writer<Vec<u8>>) -> Result<(), NoMemory>
    ensures { OnOk result ((setting : SettingOf) (text : List ℕ) → HasWritten setting writer.old text
        → HasWritten setting writer.new (text ++ line_text setting dissent_header)) }
{
    let fields: [&[u8]; 7] = [
        b"row",
        b"attribute",
        b"text",
        b"rule",
        b"master",
        b"master_row",
        b"other",
    ];
    write(writer, fields.as_slice())?;
    Ok(())
}

/// The header of the clean sheet.
fn clean_header<'a>(
    alloc: Global,
    setting: &'a Setting,
    header: &'a [Str],
) -> Result<Vec<&'a [u8]>, NoMemory>
    ensures { IfOk result (λ fields. bytes_of fields.items ≡ clean_header setting.now header.now) }
{
    let mut fields = Vec::new(alloc);
    'columns: for column in header {
        fields.push(column.as_str().as_bytes())?;
    }
    if let Some(name) = &setting.verdict {
        fields.push(name.as_str().as_bytes())?;
    }
    Ok(fields)
}
