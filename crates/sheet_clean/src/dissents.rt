//! The line of a row in the sheet of dissents.
ghost use Rattle.std.specs.Prelude.{[], ◌∷◌, IfOk};
ghost use Rattle.fix_model.specs.Rules.{IsStepOf};
ghost use Rattle.sheet_clean.specs.Fields.{dissent_line};
ghost use Rattle.sheet_clean.specs.SheetRows.{IsRowAt};
ghost use Rattle.sheet_clean.specs.Writing.{Writes};

use crate::line::write_step;
use crate::row_cleaner::RowCleaner;
use crate::steps::rule_of;
use csv::Writer;
use desk_base::NoMemory;
use fix_model::{Book, State, Step, value};

/// Writes the line of a row from which this step dissents, and answers how many lines these are: one.
pub(crate) fn write_dissent<B: Book<()>>(
    cleaner: &RowCleaner<'_, B>,
    writer: &mut Writer<Vec<u8>>,
    end: &State,
    step: Step,
) -> Result<u64, NoMemory>
    requires row_at { IsRowAt (B.kit cleaner.now.book.now) cleaner.now.row end.now }
    requires step_of { IsStepOf (B.kit cleaner.now.book.now) step }
    ensures { let row = cleaner.now.row in
        IfOk result (λ count. Writes row.setting.now writer.old writer.new
        (dissent_line (B.kit cleaner.now.book.now) row.setting.now row.number end.now step ∷ []) count) }
{
    let book = cleaner.book;
    let head = rule_of(book, step).head;
    let text = value::<(), B>(book, end, head).as_bytes();
    let other = book.text(step).as_bytes();
    write_step(cleaner, writer, head, &[text], step, &[other])?;
    Ok(1)
}
