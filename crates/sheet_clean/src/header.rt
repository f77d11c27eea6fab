//! The tests of a header.
ghost use Rattle.std.specs.Prelude.{◌≡◌, ◌<◌, [], length};
ghost use Rattle.master_rows.specs.Mark.{begins_with_mark};
ghost use Rattle.sheet_clean.specs.Header.{column_fault, columns_fault, known_fault, lacks_column};
ghost use Rattle.sheet_clean.specs.Header.{texts_fault, verdict_fault};

use crate::fault::SheetFault;
use crate::fields::{has_text, place_of};
use crate::setting::Setting;
use desk_base::{Str, Text};

/// U+FEFF in UTF-8.
const BYTE_ORDER_MARK: [u8; 3] = [0xEF, 0xBB, 0xBF];

/// The first fault of a header of these texts.
pub(crate) fn header_fault(setting: &Setting, header: &[Str]) -> Option<SheetFault>
    requires { length setting.now.known ≡ length setting.now.names.attributes }
    ensures { result ≡ texts_fault setting.now header.now }
{
    if let Some(fault) = columns_fault(setting, header) {
        return Some(fault);
    }
    if let Some(fault) = known_fault(setting, header) {
        return Some(fault);
    }
    verdict_fault(&setting.verdict, header)
}

/// What is wrong first with the columns.
fn columns_fault(setting: &Setting, header: &[Str]) -> Option<SheetFault>
    ensures { result ≡ columns_fault setting.now [] header.now }
{
    'columns: for (place, column) in header.iter().enumerate() {
        if let Some(fault) = column_fault(setting, &header[..place], column.as_str()) {
            return Some(fault);
        }
    }
    None
}

/// What is wrong with a column after others.
fn column_fault(setting: &Setting, earlier: &[Str], column: &str) -> Option<SheetFault>
    ensures { result ≡ column_fault setting.now earlier.now column.now }
{
    if begins_with_mark(column.as_bytes()) {
        return Some(SheetFault::MarkedColumn(earlier.len() as u64 + 1));
    }
    if !has_text(earlier, column) {
        return None;
    }
    match setting.attribute_of(column) {
        Some(attribute) => Some(SheetFault::AttributeTwice(attribute as u64)),
        None => None,
    }
}

/// Whether the text begins with a byte order mark.
pub fn begins_with_mark(text: &[u8]) -> bool
    ensures { result ≡ begins_with_mark text.now }
{
    text.starts_with(&BYTE_ORDER_MARK)
}

/// The first known attribute that has no column.
fn known_fault(setting: &Setting, header: &[Str]) -> Option<SheetFault>
    requires { length setting.now.known ≡ length setting.now.names.attributes }
    ensures { result ≡ known_fault setting.now header.now }
{
    let count = setting.names.attributes.len();
    'attributes: for attribute in 0..count {
        if lacks_column(setting, header, attribute) {
            return Some(SheetFault::NoColumn(attribute as u64));
        }
    }
    None
}

/// Whether an attribute is known, and has no column.
fn lacks_column(setting: &Setting, header: &[Str], attribute: usize) -> bool
    requires known { length setting.now.known ≡ length setting.now.names.attributes }
    requires within { attribute < length setting.now.names.attributes }
    ensures { result ≡ lacks_column setting.now header.now attribute }
{
    setting.is_known(attribute)
        && place_of(header, setting.attribute_name(attribute).as_str()).is_none()
}

/// What is wrong where a column has the name that the column of verdicts is to have.
fn verdict_fault(verdict: &Option<Text>, header: &[Str]) -> Option<SheetFault>
    ensures { result ≡ verdict_fault verdict.now header.now }
{
    if let Some(name) = verdict {
        if has_text(header, name.as_str()) {
            return Some(SheetFault::VerdictTaken);
        }
    }
    None
}
