//! The lines of the four sheets that are still to be written.
ghost use Rattle.std.specs.Prelude.{◌≡◌, IfOk};
ghost use Rattle.sheet_clean.specs.Sheets.{Sheets, no_sheets};
ghost use Rattle.sheet_clean.specs.Writing.{HaveWritten, sheets_seen};
ghost use Rattle.sheet_clean.specs.declared.setting.Setting.{Setting as SettingOf};

use crate::setting::Setting;
use crate::writing::{text_of, writer};
use csv::Writer;
use desk_base::NoMemory;
use std::alloc::Global;

/// A writer in memory for each sheet.
#[derive(Drop)]
pub struct Drafts {
    pub clean: Writer<Vec<u8>>,
    pub changes: Writer<Vec<u8>>,
    pub conflicts: Writer<Vec<u8>>,
    pub dissents: Writer<Vec<u8>>,
}

/// The texts of the four sheets.
#[derive(Debug, Drop)]
pub struct SheetTexts {
    pub clean: Vec<u8>,
    pub changes: Vec<u8>,
    pub conflicts: Vec<u8>,
    pub dissents: Vec<u8>,
}

impl Drafts {
    /// Drafts without a line.
    pub fn new(alloc: Global, setting: &Setting) -> Drafts
        ensures { HaveWritten setting.now result no_sheets }
    {
        Drafts {
            clean: writer(alloc, setting),
            changes: writer(alloc, setting),
            conflicts: writer(alloc, setting),
            dissents: writer(alloc, setting),
        }
    }

    /// The texts of the lines.
    pub fn finish(self) -> Result<SheetTexts, NoMemory>
        ensures { IfOk result (λ texts. (setting : SettingOf) (sheets : Sheets) → HaveWritten setting self sheets
            → sheets_seen texts ≡ sheets) }
    {
        let Drafts {
            clean,
            changes,
            conflicts,
            dissents,
        } = self;
        let clean = text_of(clean)?;
        let changes = text_of(changes)?;
        let conflicts = text_of(conflicts)?;
        let dissents = text_of(dissents)?;
        Ok(SheetTexts {
            clean,
            changes,
            conflicts,
            dissents,
        })
    }
}
