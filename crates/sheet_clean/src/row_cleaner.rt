//! What a row is cleaned with.
use crate::sheet_row::SheetRow;
use std::alloc::Global;

/// A row that is being cleaned, with the book whose rules decide it, and where memory comes from.
#[derive(Drop)]
pub(crate) struct RowCleaner<'r, B> {
    pub(crate) alloc: Global,
    pub(crate) book: &'r B,
    pub(crate) row: SheetRow<'r>,
}
