//! What is decided of a row, and the lines that it gives.
ghost use Rattle.std.specs.Prelude.{◌≡◌, ◌≤◌, IfOk, length};
ghost use Rattle.desk_base.specs.Texts.{bytes_of};
ghost use Rattle.fix_engine.specs.WorkSeen.{IsRoomFor};
ghost use Rattle.fix_engine.specs.declared.verdict.Verdict.TheVariants.{Fix, Conflict};
ghost use Rattle.fix_model.specs.Valid.{IsValid};
ghost use Rattle.fix_model.specs.declared.state.State.{State as StateOf};
ghost use Rattle.sheet_clean.specs.Fields.{dissent_lines};
ghost use Rattle.sheet_clean.specs.Layouts.{IsLayout};
ghost use Rattle.sheet_clean.specs.Setting.{IsSettingOf};
ghost use Rattle.sheet_clean.specs.SheetRows.{IsRowAt};
ghost use Rattle.sheet_clean.specs.Sheets.{verdict_summary};
ghost use Rattle.sheet_clean.specs.Steps.{IsOriginOf};
ghost use Rattle.sheet_clean.specs.Writing.{GivesLines, GivesRow, Writes};

use crate::changes::write_changes;
use crate::clean_row::write_row;
use crate::conflicts::write_conflicts;
use crate::dissents::write_dissent;
use crate::drafts::Drafts;
use crate::layout::Layout;
use crate::row::row_state;
use crate::row_cleaner::RowCleaner;
use crate::setting::Setting;
use crate::sheet_row::SheetRow;
use crate::summary::Summary;
use csv::Writer;
use desk_base::{Duplicate, NoMemory, Steps};
use fix_engine::{Verdict, Work, apply, decide};
use fix_model::{Book, State, Step};
use std::alloc::Global;

/// Decides the row of this number with these cells, in which `row_fault` finds nothing, puts the lines that it gives
/// after those of the drafts, and answers what it comes to. A cell that is no UTF-8 would be told as want of memory.
pub fn write_decided<B: Book<()>>(
    alloc: Global,
    setting: &Setting,
    layout: &Layout,
    book: &B,
    work: &mut Work,
    number: u64,
    cells: &[&[u8]],
    drafts: &mut Drafts,
) -> Result<Summary, NoMemory>
    requires laid { IsLayout setting.now layout.now }
    requires set { IsSettingOf (B.kit book.now) setting.now }
    requires narrow { length setting.now.names.attributes ≤ 48 }
    requires full { length cells.now ≡ length layout.now.header }
    requires valid { IsValid (B.kit book.now) }
    requires room { IsRoomFor work.old (B.kit book.now) }
    ensures row { IfOk result (λ summary. GivesRow (B.kit book.now) setting.now layout.now.header number
        (bytes_of cells.now) drafts.old drafts.new summary) }
    ensures room { IsRoomFor work.new (B.kit book.now) }
{
    let cleaner = RowCleaner {
        alloc,
        book,
        row: SheetRow {
            setting,
            layout,
            number,
            cells,
        },
    };
    let mut state = row_state(alloc, &cleaner.row)?;
    let mut steps = Steps::new(());
    match decide(work, book, &mut state, &mut steps) {
        Verdict::Fix { certain, dissent } => {
            apply::<(), B>(book, &mut state, work.first());
            let counted = write_fix(&cleaner, certain, dissent, &state, drafts)?;
            Ok(counted)
        }
        Verdict::Conflict => {
            let mut second = state.copy()?;
            apply::<(), B>(book, &mut state, work.first());
            apply::<(), B>(book, &mut second, work.second());
            let counted = write_conflict(&cleaner, &state, &second, drafts)?;
            Ok(counted)
        }
    }
}

/// Puts the lines of a row at a fix after those of the drafts.
fn write_fix<B: Book<()>>(
    cleaner: &RowCleaner<'_, B>,
    certain: bool,
    dissent: Option<Step>,
    end: &State,
    drafts: &mut Drafts,
) -> Result<Summary, NoMemory>
    requires row_at { IsRowAt (B.kit cleaner.now.book.now) cleaner.now.row end.now }
    requires step_of { IsOriginOf (B.kit cleaner.now.book.now) dissent }
    ensures { let row = cleaner.now.row in
        IfOk result (λ summary. (second : StateOf) → GivesLines (B.kit cleaner.now.book.now) row.setting.now
        row.layout.now.header row.number
        (record {
          cells = bytes_of row.cells.now;
          decision = record { verdict = Fix certain dissent; first = end.now; second = second };
        }) drafts.old drafts.new summary) }
{
    let verdict = Verdict::Fix { certain, dissent };
    write_row(cleaner, &mut drafts.clean, &verdict, end)?;
    let changed = write_changes(cleaner, &mut drafts.changes, end)?;
    let dissents = write_dissents(cleaner, &mut drafts.dissents, certain, dissent, end)?;
    let counted = verdict_summary(&verdict);
    Ok(Summary {
        changed,
        dissents,
        ..counted
    })
}

/// What one row comes to by its verdict.
fn verdict_summary(verdict: &Verdict) -> Summary
    ensures { result ≡ verdict_summary verdict.now }
{
    let none = Summary::new();
    match verdict {
        Verdict::Fix { certain: true, .. } => Summary {
            rows: 1,
            certain: 1,
            ..none
        },
        Verdict::Fix { certain: false, .. } => Summary {
            rows: 1,
            partial: 1,
            ..none
        },
        Verdict::Conflict => Summary {
            rows: 1,
            conflict: 1,
            ..none
        },
    }
}

/// Writes the line of the least step that dissents from a row at a fix, if one does, and answers how many lines these
/// are.
fn write_dissents<B: Book<()>>(
    cleaner: &RowCleaner<'_, B>,
    writer: &mut Writer<Vec<u8>>,
    certain: bool,
    dissent: Option<Step>,
    end: &State,
) -> Result<u64, NoMemory>
    requires row_at { IsRowAt (B.kit cleaner.now.book.now) cleaner.now.row end.now }
    requires step_of { IsOriginOf (B.kit cleaner.now.book.now) dissent }
    ensures { let row = cleaner.now.row in
        IfOk result (λ count. Writes row.setting.now writer.old writer.new
        (dissent_lines (B.kit cleaner.now.book.now) row.setting.now row.number (Fix certain dissent) end.now) count) }
{
    match dissent {
        Some(step) => write_dissent(cleaner, writer, end, step),
        None => Ok(0),
    }
}

/// Puts the lines of a row at a conflict after those of the drafts.
fn write_conflict<B: Book<()>>(
    cleaner: &RowCleaner<'_, B>,
    first: &State,
    second: &State,
    drafts: &mut Drafts,
) -> Result<Summary, NoMemory>
    requires first { IsRowAt (B.kit cleaner.now.book.now) cleaner.now.row first.now }
    requires second { IsRowAt (B.kit cleaner.now.book.now) cleaner.now.row second.now }
    ensures { let row = cleaner.now.row in
        IfOk result (λ summary. GivesLines (B.kit cleaner.now.book.now) row.setting.now row.layout.now.header
        row.number
        (record {
          cells = bytes_of row.cells.now;
          decision = record { verdict = Conflict; first = first.now; second = second.now };
        }) drafts.old drafts.new summary) }
{
    let verdict = Verdict::Conflict;
    write_row(cleaner, &mut drafts.clean, &verdict, first)?;
    write_conflicts(cleaner, &mut drafts.conflicts, first, second)?;
    Ok(verdict_summary(&verdict))
}
