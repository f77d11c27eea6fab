//! The fields that say where a text comes from.
ghost use Rattle.std.specs.Prelude.{◌≡◌, ◌+◌, ◌++◌, IfOk, OnOk, decimal, string_bytes};
ghost use Rattle.desk_base.specs.Texts.{bytes_of};
ghost use Rattle.fix_model.specs.Rules.{IsStepOf, rule_at};
ghost use Rattle.fix_model.specs.Valid.{IsValidRule};
ghost use Rattle.sheet_clean.specs.Fields.{origin_fields, step_fields};
ghost use Rattle.sheet_clean.specs.SheetRows.{IsRowOf};
ghost use Rattle.sheet_clean.specs.Steps.{IsOriginOf, origin_digits};

use crate::row_cleaner::RowCleaner;
use desk_base::NoMemory;
use fix_model::{Book, Rule, Step};
use std::alloc::Global;

/// A number as digits.
pub(crate) fn digits_of(alloc: Global, number: u64) -> Result<String, NoMemory>
    ensures { IfOk result (λ digits. string_bytes digits ≡ decimal number) }
{
    Ok(number.to_string(alloc)?)
}

/// The row of a step in its master, counted from 1, as digits; blank where there is no step.
pub(crate) fn row_digits(alloc: Global, step: Option<Step>) -> Result<String, NoMemory>
    ensures { IfOk result (λ digits. string_bytes digits ≡ origin_digits step) }
{
    match step {
        Some(step) => Ok((u64::from(step.row) + 1).to_string(alloc)?),
        None => Ok(String::new(alloc)),
    }
}

/// The rule of a step.
pub(crate) fn rule_of<B: Book<()>>(book: &B, step: Step) -> &Rule
    requires { IsStepOf (B.kit book.now) step }
    ensures rule { result.now ≡ rule_at (B.kit book.now) step.rule }
    ensures valid { IsValidRule (B.kit book.now) result.now }
{
    &book.rules()[usize::from(step.rule)]
}

/// Puts the rule of a step, the rule's master and the row, of which these are the digits, after the fields of a line.
pub(crate) fn push_step<'a, B: Book<()>>(
    line: &mut Vec<&'a [u8]>,
    cleaner: &'a RowCleaner<'_, B>,
    step: Step,
    digits: &'a str,
) -> Result<(), NoMemory>
    requires row_of { IsRowOf (B.kit cleaner.now.book.now) cleaner.now.row }
    requires step_of { IsStepOf (B.kit cleaner.now.book.now) step }
    requires digits_are { digits.now ≡ decimal (step.row + 1) }
    ensures { OnOk result (bytes_of line.new.items ≡ bytes_of line.old.items
        ++ step_fields (B.kit cleaner.now.book.now) cleaner.now.row.setting.now step) }
{
    let setting = cleaner.row.setting;
    let master = rule_of(cleaner.book, step).master;
    line.push(setting.rule_name(step.rule).as_str().as_bytes())?;
    line.push(setting.master_name(master).as_str().as_bytes())?;
    line.push(digits.as_bytes())?;
    Ok(())
}

/// Puts the same after them, or three blanks where there is no step.
pub(crate) fn push_origin<'a, B: Book<()>>(
    line: &mut Vec<&'a [u8]>,
    cleaner: &'a RowCleaner<'_, B>,
    step: Option<Step>,
    digits: &'a str,
) -> Result<(), NoMemory>
    requires row_of { IsRowOf (B.kit cleaner.now.book.now) cleaner.now.row }
    requires step_of { IsOriginOf (B.kit cleaner.now.book.now) step }
    requires digits_are { digits.now ≡ origin_digits step }
    ensures { OnOk result (bytes_of line.new.items ≡ bytes_of line.old.items
        ++ origin_fields (B.kit cleaner.now.book.now) cleaner.now.row.setting.now step) }
{
    match step {
        Some(step) => push_step(line, cleaner, step, digits),
        None => {
            line.push(b"".as_slice())?;
            line.push(b"".as_slice())?;
            line.push(b"".as_slice())?;
            Ok(())
        }
    }
}
