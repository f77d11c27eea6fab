//! The lines of a row in the sheets beside the clean one. Each begins with the row's number and an attribute's name.
ghost use Rattle.std.specs.Prelude.{◌≡◌, ◌<◌, ◌++◌, ◌∷◌, [], ℕ, List, IfOk, OnOk, decimal};
ghost use Rattle.csv.specs.Writing.{row_text};
ghost use Rattle.desk_base.specs.Texts.{bytes_of};
ghost use Rattle.fix_model.specs.Rules.{IsStepOf};
ghost use Rattle.sheet_clean.specs.Fields.{step_fields};
ghost use Rattle.sheet_clean.specs.Setting.{attribute_name, writer_of};
ghost use Rattle.sheet_clean.specs.SheetRows.{IsRowOf};
ghost use Rattle.sheet_clean.specs.Writing.{HasWritten};

use crate::row_cleaner::RowCleaner;
use crate::steps::{digits_of, push_step, row_digits};
use crate::writing::write;
use csv::Writer;
use desk_base::NoMemory;
use fix_model::{Book, Step};

/// The fields that a line on an attribute begins with, where these are the digits of the row's number.
pub(crate) fn line_at<'a, B: Book<()>>(
    cleaner: &'a RowCleaner<'_, B>,
    digits: &'a str,
    attribute: u16,
) -> Result<Vec<&'a [u8]>, NoMemory>
    requires row_of { IsRowOf (B.kit cleaner.now.book.now) cleaner.now.row }
    requires within { attribute < (B.kit cleaner.now.book.now).width }
    ensures { IfOk result (λ line. bytes_of line.items
        ≡ digits.now ∷ attribute_name cleaner.now.row.setting.now attribute ∷ []) }
{
    let name = cleaner.row.setting.attribute_name(usize::from(attribute));
    let mut line = Vec::new(cleaner.alloc);
    line.push(digits.as_bytes())?;
    line.push(name.as_str().as_bytes())?;
    Ok(line)
}

/// Writes the line on an attribute that has these texts, then the step, and then the others.
pub(crate) fn write_step<B: Book<()>>(
    cleaner: &RowCleaner<'_, B>,
    writer: &mut Writer<Vec<u8>>,
    attribute: u16,
    texts: &[&[u8]],
    step: Step,
    others: &[&[u8]],
) -> Result<(), NoMemory>
    requires row_of { IsRowOf (B.kit cleaner.now.book.now) cleaner.now.row }
    requires within { attribute < (B.kit cleaner.now.book.now).width }
    requires step_of { IsStepOf (B.kit cleaner.now.book.now) step }
    ensures { let setting = cleaner.now.row.setting.now in
        OnOk result ((text : List ℕ) → HasWritten setting writer.old text
        → HasWritten setting writer.new (text ++ row_text (writer_of setting)
        (decimal cleaner.now.row.number ∷ attribute_name setting attribute ∷ bytes_of texts.now
        ++ step_fields (B.kit cleaner.now.book.now) setting step ++ bytes_of others.now))) }
{
    let digits = digits_of(cleaner.alloc, cleaner.row.number)?;
    let row = row_digits(cleaner.alloc, Some(step))?;
    let mut line = line_at(cleaner, digits.as_str(), attribute)?;
    line.extend_from_slice(texts)?;
    push_step(&mut line, cleaner, step, row.as_str())?;
    line.extend_from_slice(others)?;
    write(writer, line.as_slice())?;
    Ok(())
}
