//! Which column is whose.
ghost use Rattle.std.specs.Prelude.{◌≡◌, ◌<◌, ◌≤◌, [], IfOk, IfSome, IsErrOf, None};
ghost use Rattle.std.specs.Prelude.{OnOk, Some, is_some, length, map, slice_index_or};
ghost use Rattle.desk_base.specs.Places.{place_of};
ghost use Rattle.desk_base.specs.Texts.{bytes_of};
ghost use Rattle.sheet_clean.specs.Header.{attribute_of, column_of, header_fault};
ghost use Rattle.sheet_clean.specs.declared.fault.SheetFault.{SheetFault as FaultOf};
ghost use Rattle.sheet_clean.specs.declared.layout.LayoutFault.TheVariants as fault;
ghost use Rattle.sheet_clean.specs.Layouts.{IsLayout};

use crate::fault::SheetFault;
use crate::fields::{place_of, texts_of};
use crate::header::{begins_with_mark, header_fault};
use crate::setting::Setting;
use desk_base::{List, NoMemory, Str};
use std::alloc::Global;

/// The columns of a sheet; for each attribute the column that has its cells, and for each column the attribute whose
/// cells it has, counted from 0, as far as there are such.
#[derive(Debug, Drop)]
pub struct Layout {
    /// The columns, as the header names them.
    pub header: List<Str>,
    pub(crate) columns: Vec<Option<usize>>,
    pub(crate) attributes: Vec<Option<usize>>,
}

impl Layout {
    /// The layout of a header.
    pub(crate) fn of_header(
        alloc: Global,
        setting: &Setting,
        header: List<Str>,
    ) -> Result<Layout, NoMemory>
        ensures laid { IfOk result (λ layout. IsLayout setting.now layout) }
        ensures header { IfOk result (λ layout. layout.header ≡ header) }
    {
        let columns = columns_of(alloc, setting, header.as_slice())?;
        let attributes = attributes_of(alloc, setting, header.as_slice())?;
        Ok(Layout {
            header,
            columns,
            attributes,
        })
    }

    /// The attribute of a column, counted from 0, if it is one.
    pub(crate) fn attribute_at(&self, setting: &Setting, column: usize) -> Option<usize>
        requires laid { IsLayout setting.now self.now }
        requires within { column < length self.now.header }
        requires narrow { length setting.now.names.attributes ≤ 48 }
        ensures attribute { result ≡ attribute_of setting.now (slice_index_or self.now.header column []) }
        ensures bound { IfSome result (λ attribute. attribute < 48) }
    {
        self.attributes[column]
    }

    /// Whether an attribute, counted from 0, has a column.
    pub(crate) fn has_column(&self, setting: &Setting, attribute: u16) -> bool
        requires laid { IsLayout setting.now self.now }
        requires within { attribute < length setting.now.names.attributes }
        ensures { result ≡ is_some (column_of setting.now self.now.header attribute) }
    {
        self.columns[usize::from(attribute)].is_some()
    }
}

/// The layout of the header with these fields, or why it is refused. Columns may be empty, long and of any number, and
/// those that are no attribute may stand twice.
pub fn layout_of(alloc: Global, setting: &Setting, fields: &[&[u8]]) -> Result<Layout, LayoutFault>
    requires { length setting.now.known ≡ length setting.now.names.attributes }
    ensures laid { IfOk result (λ layout. IsLayout setting.now layout) }
    ensures header { IfOk result (λ layout. layout.header ≡ bytes_of fields.now) }
    ensures fits { OnOk result (header_fault setting.now (bytes_of fields.now) ≡ None) }
    ensures refused { (fault : FaultOf) → IsErrOf result (LayoutFault.Refused fault)
        → header_fault setting.now (bytes_of fields.now) ≡ Some fault }
{
    if begins_with_mark(cell_at(fields, 0)) {
        return Err(LayoutFault::Refused(SheetFault::MarkedColumn(1)));
    }
    let Some(header) = texts_of(alloc, fields)? else {
        return Err(LayoutFault::Refused(SheetFault::NotUtf8(0)));
    };
    if let Some(fault) = header_fault(setting, header.as_slice()) {
        return Err(LayoutFault::Refused(fault));
    }
    let layout = Layout::of_header(alloc, setting, header)?;
    Ok(layout)
}

/// Why there is no layout.
#[derive(Clone, Copy, Debug, PartialEq, Eq)]
pub enum LayoutFault {
    /// The header has this fault.
    Refused(SheetFault),
    /// There was no memory.
    NoMemory,
}

impl From<NoMemory> for LayoutFault {
    ghost from_gives = { λ _ result. result ≡ fault.NoMemory };

    fn from(_want: NoMemory) -> LayoutFault {
        LayoutFault::NoMemory
    }
}

/// The cell in a column, or a blank where there is none.
pub(crate) fn cell_at<'a>(cells: &[&'a [u8]], column: usize) -> &'a [u8]
    ensures { result.now ≡ slice_index_or (bytes_of cells.now) column [] }
{
    match cells.get(column) {
        Some(cell) => cell,
        None => b"",
    }
}

/// The column of each attribute.
fn columns_of(
    alloc: Global,
    setting: &Setting,
    header: &[Str],
) -> Result<Vec<Option<usize>>, NoMemory>
    ensures { IfOk result (λ columns. columns.items ≡ map (place_of header.now) setting.now.names.attributes) }
{
    let mut columns = Vec::new(alloc);
    'attributes: for name in setting.names.attributes.as_slice() {
        columns.push(place_of(header, name.as_str()))?;
    }
    Ok(columns)
}

/// The attribute of each column.
fn attributes_of(
    alloc: Global,
    setting: &Setting,
    header: &[Str],
) -> Result<Vec<Option<usize>>, NoMemory>
    ensures { IfOk result (λ attributes. attributes.items ≡ map (attribute_of setting.now) header.now) }
{
    let mut attributes = Vec::new(alloc);
    'columns: for column in header {
        attributes.push(setting.attribute_of(column.as_str()))?;
    }
    Ok(attributes)
}
