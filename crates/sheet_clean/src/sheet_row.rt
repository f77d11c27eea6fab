//! A row of a sheet under its layout.
ghost use Rattle.std.specs.Prelude.{◌≡◌, ◌<◌, length};
ghost use Rattle.desk_base.specs.Texts.{bytes_of};
ghost use Rattle.sheet_clean.specs.Row.{typed_at};
ghost use Rattle.sheet_clean.specs.SheetRows.{IsSheetRow};

use crate::layout::{Layout, cell_at};
use crate::setting::Setting;

/// A row of a sheet: its number, counted from 1, and its cells, with what the sheet is cleaned by and which of its
/// columns is whose.
#[derive(Drop)]
pub(crate) struct SheetRow<'r> {
    pub(crate) setting: &'r Setting,
    pub(crate) layout: &'r Layout,
    pub(crate) number: u64,
    pub(crate) cells: &'r [&'r [u8]],
}

impl<'r> SheetRow<'r> {
    /// What the row has for an attribute, counted from 0: a cell, or a blank.
    pub(crate) fn typed(&self, attribute: u16) -> &'r [u8]
        requires row { IsSheetRow self.now }
        requires within { attribute < length self.now.setting.now.names.attributes }
        ensures { result.now ≡ typed_at self.now.setting.now self.now.layout.now.header (bytes_of self.now.cells.now)
            attribute }
    {
        match self.layout.columns[usize::from(attribute)] {
            Some(column) => cell_at(self.cells, column),
            None => b"",
        }
    }
}
