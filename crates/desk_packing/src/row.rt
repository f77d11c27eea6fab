//! One row of one table as a row of the SQL table.
ghost use Rattle.std.specs.Prelude.{◌≡◌, ◌+◌, ◌<◌, ◌^◌, Bool, Some, None, IfOk, OnOk, IsErrOf};
ghost use Rattle.desk_packing.specs.Formats.{Format, whole};
ghost use Rattle.desk_packing.specs.Lines.{line_of};
ghost use Rattle.desk_packing.specs.Reading.{is_of, row_at};
ghost use Rattle.desk_packing.specs.RowFormats.{batch, clerk, committed, region, rulebook, session, text_row};
ghost use Rattle.desk_packing.specs.Stands.{edition_in, row_line};

use crate::error::{FieldFault, UnpackFault};
use crate::line::PackedRow;
use crate::packs::{Packs, unpack_whole};
use crate::rows::unpack_old_edition;
use desk_base::List;
use desk_words::{
    BatchRow, ClerkRow, EditionRow, RecordRow, RegionRow, RulebookRow, SessionRow, TextRow,
};
use std::alloc::Global;

/// A list has fewer rows than this.
pub const MOST_ROWS: usize = 2_147_483_648;

/// A row of one of the nine tables.
pub trait TableRow: Sized {
    /// How the row is packed, in the old version or in the new one.
    ghost format_in: { Bool → Format Self };

    /// The row that is packed so.
    fn read(alloc: Global, is_old: bool, body: &[u8]) -> Result<Self, UnpackFault>
        ensures read { IfOk result (λ row. whole (format_in is_old) body.now ≡ Some row) }
        ensures damaged { IsErrOf result UnpackFault.Damaged → whole (format_in is_old) body.now ≡ None };
}

impl TableRow for ClerkRow {
    ghost format_in = { λ _. clerk };

    fn read(alloc: Global, _is_old: bool, body: &[u8]) -> Result<ClerkRow, UnpackFault> {
        unpack_whole(alloc, body)
    }
}

impl TableRow for TextRow {
    ghost format_in = { λ _. text_row };

    fn read(alloc: Global, _is_old: bool, body: &[u8]) -> Result<TextRow, UnpackFault> {
        unpack_whole(alloc, body)
    }
}

impl TableRow for RulebookRow {
    ghost format_in = { λ _. rulebook };

    fn read(alloc: Global, _is_old: bool, body: &[u8]) -> Result<RulebookRow, UnpackFault> {
        unpack_whole(alloc, body)
    }
}

impl TableRow for EditionRow {
    ghost format_in = { edition_in };

    fn read(alloc: Global, is_old: bool, body: &[u8]) -> Result<EditionRow, UnpackFault> {
        if is_old {
            unpack_old_edition(alloc, body)
        } else {
            unpack_whole(alloc, body)
        }
    }
}

impl TableRow for RegionRow {
    ghost format_in = { λ _. region };

    fn read(alloc: Global, _is_old: bool, body: &[u8]) -> Result<RegionRow, UnpackFault> {
        unpack_whole(alloc, body)
    }
}

impl TableRow for SessionRow {
    ghost format_in = { λ _. session };

    fn read(alloc: Global, _is_old: bool, body: &[u8]) -> Result<SessionRow, UnpackFault> {
        unpack_whole(alloc, body)
    }
}

impl TableRow for RecordRow {
    ghost format_in = { λ _. committed };

    fn read(alloc: Global, _is_old: bool, body: &[u8]) -> Result<RecordRow, UnpackFault> {
        unpack_whole(alloc, body)
    }
}

impl TableRow for BatchRow {
    ghost format_in = { λ _. batch };

    fn read(alloc: Global, _is_old: bool, body: &[u8]) -> Result<BatchRow, UnpackFault> {
        unpack_whole(alloc, body)
    }
}

/// A row at a place of a list, packed.
pub fn pack_row<T: Packs>(
    alloc: Global,
    kind: u32,
    owner: u32,
    place: u32,
    row: &T,
) -> Result<PackedRow, FieldFault>
    ensures line { IfOk result (λ packed. line_of packed ≡ row_line T.format kind owner place row.now) }
    ensures fits { OnOk result (T.format.Fits row.now) }
    ensures too_long { IsErrOf result FieldFault.TooLong → T.format.Fits row.now → ⊥ }
{
    let mut body = Vec::new(alloc);
    row.pack(&mut body)?;
    Ok(PackedRow {
        kind,
        owner,
        place,
        body: List::from_vec(body),
    })
}

/// Whether the packed row is one of this list.
pub fn is_of(kind: u32, owner: u32, row: &PackedRow) -> bool
    ensures { result ≡ is_of kind owner (line_of row.now) }
{
    row.kind == kind && row.owner == owner
}

/// Reads the packed row that is to stand at this place of a list.
pub fn unpack_row<T: TableRow>(
    alloc: Global,
    is_old: bool,
    place: usize,
    row: &PackedRow,
) -> Result<T, UnpackFault>
    ensures read { IfOk result (λ found. row_at (T.format_in is_old) place (line_of row.now) ≡ Some found) }
    ensures short { OnOk result (place + 1 < 2 ^ 31) }
    ensures damaged { IsErrOf result UnpackFault.Damaged
        → row_at (T.format_in is_old) place (line_of row.now) ≡ None }
{
    if row.place as usize != place || place >= MOST_ROWS - 1 {
        return Err(UnpackFault::Damaged);
    }
    T::read(alloc, is_old, row.body.as_slice())
}
