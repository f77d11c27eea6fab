//! The tests of a row, and the state in which it is decided.
ghost use Rattle.std.specs.Prelude.{◌≡◌, ◌<◌, ◌≤◌, IfOk, length, map};
ghost use Rattle.std.specs.List.{range_with_len};
ghost use Rattle.desk_base.specs.Texts.{bytes_of};
ghost use Rattle.fix_model.specs.declared.kit.Kit.{Kit};
ghost use Rattle.fix_model.specs.States.{Fits};
ghost use Rattle.sheet_clean.specs.Layouts.{IsLayout};
ghost use Rattle.sheet_clean.specs.Row.{decided_at, decided_text, is_confirmed, is_long};
ghost use Rattle.sheet_clean.specs.Row.{long_fault, row_fault, row_state};
ghost use Rattle.sheet_clean.specs.Setting.{IsSettingOf};
ghost use Rattle.sheet_clean.specs.SheetRows.{IsSheetRow};

use crate::fault::SheetFault;
use crate::fields::are_texts;
use crate::layout::Layout;
use crate::setting::Setting;
use crate::sheet_row::SheetRow;
use desk_base::{List, MAX_TEXT, NoMemory, Text, TextFault};
use fix_model::State;
use std::alloc::Global;

/// The first fault of the row with this number.
pub fn row_fault(
    setting: &Setting,
    layout: &Layout,
    number: u64,
    cells: &[&[u8]],
) -> Option<SheetFault>
    requires laid { IsLayout setting.now layout.now }
    requires known { length setting.now.known ≡ length setting.now.names.attributes }
    requires narrow { length setting.now.names.attributes ≤ 48 }
    ensures { result ≡ row_fault setting.now layout.now.header number (bytes_of cells.now) }
{
    let columns = layout.header.len();
    if cells.len() != columns {
        return Some(SheetFault::Ragged(number, cells.len() as u64, columns as u64));
    }
    if !are_texts(cells) {
        return Some(SheetFault::NotUtf8(number));
    }
    let row = SheetRow {
        setting,
        layout,
        number,
        cells,
    };
    long_fault(&row)
}

/// The first known attribute whose cell is longer than a text of a desk.
fn long_fault(row: &SheetRow<'_>) -> Option<SheetFault>
    requires { IsSheetRow row.now }
    ensures { result ≡ long_fault row.now.setting.now row.now.layout.now.header row.now.number
        (bytes_of row.now.cells.now) }
{
    let count = row.setting.names.attributes.len() as u16;
    'attributes: for attribute in 0..count {
        if is_long(row, attribute) {
            return Some(SheetFault::CellLong(row.number, u64::from(attribute)));
        }
    }
    None
}

/// Whether an attribute is known, and its cell is longer than a text of a desk.
fn is_long(row: &SheetRow<'_>, attribute: u16) -> bool
    requires row { IsSheetRow row.now }
    requires within { attribute < length row.now.setting.now.names.attributes }
    ensures { result ≡ is_long row.now.setting.now row.now.layout.now.header (bytes_of row.now.cells.now) attribute }
{
    row.setting.is_known(usize::from(attribute)) && row.typed(attribute).len() > MAX_TEXT
}

/// The state in which the row is decided.
pub(crate) fn row_state(alloc: Global, row: &SheetRow<'_>) -> Result<State, NoMemory>
    requires { IsSheetRow row.now }
    ensures state { IfOk result (λ state. state ≡ row_state row.now.setting.now row.now.layout.now.header
        (bytes_of row.now.cells.now)) }
    ensures fits { IfOk result (λ state. (kit : Kit) → IsSettingOf kit row.now.setting.now → Fits kit state) }
{
    let typed = decided_texts(alloc, row)?;
    let confirmed = confirmed_flags(alloc, row)?;
    let state = State::new(alloc, typed, confirmed.as_slice())?;
    Ok(state)
}

/// The texts that are decided over.
fn decided_texts(alloc: Global, row: &SheetRow<'_>) -> Result<List<Text>, NoMemory>
    requires { IsSheetRow row.now }
    ensures texts { IfOk result (λ typed. typed
        ≡ map (decided_at row.now.setting.now row.now.layout.now.header (bytes_of row.now.cells.now))
        (range_with_len 0 (length row.now.setting.now.names.attributes))) }
    ensures full { IfOk result (λ typed. length typed ≡ length row.now.setting.now.names.attributes) }
{
    let count = row.setting.names.attributes.len() as u16;
    let mut texts = List::new(alloc);
    'attributes: for attribute in 0..count {
        let cell = row.typed(attribute);
        texts.push(decided_text(alloc, cell)?)?;
    }
    Ok(texts)
}

/// The text that is decided over.
fn decided_text(alloc: Global, text: &[u8]) -> Result<Text, NoMemory>
    ensures { IfOk result (λ made. made ≡ decided_text text.now) }
{
    match Text::new(alloc, text) {
        Ok(made) => Ok(made),
        Err(TextFault::TooLong) => Text::of(alloc, ""),
        // The cells of a row that is decided are UTF-8.
        Err(TextFault::NotUtf8) => Err(NoMemory),
        Err(TextFault::NoMemory) => Err(NoMemory),
    }
}

/// For each attribute whether it is known, and not blank.
fn confirmed_flags(alloc: Global, row: &SheetRow<'_>) -> Result<List<bool>, NoMemory>
    requires { IsSheetRow row.now }
    ensures flags { IfOk result (λ flags. flags
        ≡ map (is_confirmed row.now.setting.now row.now.layout.now.header (bytes_of row.now.cells.now))
        (range_with_len 0 (length row.now.setting.now.names.attributes))) }
    ensures full { IfOk result (λ flags. length flags ≡ length row.now.setting.now.names.attributes) }
{
    let count = row.setting.names.attributes.len() as u16;
    let mut flags = List::new(alloc);
    'attributes: for attribute in 0..count {
        flags.push(is_confirmed(row, attribute))?;
    }
    Ok(flags)
}

/// Whether an attribute is known, and not blank.
fn is_confirmed(row: &SheetRow<'_>, attribute: u16) -> bool
    requires row { IsSheetRow row.now }
    requires within { attribute < length row.now.setting.now.names.attributes }
    ensures { result ≡ is_confirmed row.now.setting.now row.now.layout.now.header (bytes_of row.now.cells.now)
        attribute }
{
    row.setting.is_known(usize::from(attribute)) && !row.typed(attribute).is_empty()
}
