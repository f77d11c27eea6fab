//! The rows of a master by the texts of one column.
ghost use Rattle.std.specs.Prelude.{◌≡◌, ◌<◌, ◌≤◌, ◌∷◌, ◌++◌, [], ℕ, List, length, IfOk, OnOk, if◌then◌else◌};
ghost use Rattle.std.specs.Str.{bytes_eq};
ghost use Rattle.fix_model.specs.Alike.{compared};
ghost use Rattle.master_index.specs.RowMap.{IsMapOf, rows_at};

use desk_base::{Grid, MAX_TEXT, NoMemory};
use std::alloc::Global;
use std::collections::BTreeMap;

/// The rows of one column of a master, ascending at each of its texts, as these are compared.
#[derive(Debug, Drop)]
pub(crate) struct RowMap {
    rows: BTreeMap<Vec<u8>, Vec<u32>>,
}

impl RowMap {
    /// The map of a column, whose texts are compared with their ASCII case or without. Rows with a blank
    /// there are left out.
    pub(crate) fn build(
        alloc: Global,
        grid: &Grid,
        column: u16,
        folded: bool,
    ) -> Result<RowMap, NoMemory>
        requires { column < grid.now.columns }
        ensures { IfOk result (IsMapOf grid.now column folded) }
    {
        let mut map = RowMap {
            rows: BTreeMap::new(alloc),
        };
        'rows: for row in 0..grid.rows() {
            let text = grid.cell(row, column);
            if !text.is_empty() {
                map.add(key_of(alloc, text, folded)?, row)?;
            }
        }
        Ok(map)
    }

    /// Adds a row after those at its key.
    fn add(&mut self, key: Vec<u8>, row: u32) -> Result<(), NoMemory>
        ensures { OnOk result ((other : List ℕ) → rows_at self.new other
            ≡ (if bytes_eq other key.items then rows_at self.old other ++ row ∷ [] else rows_at self.old other)) }
    {
        match self.rows.entry(key) {
            Ok(entry) => match entry.or_default().push(row) {
                Ok(()) => Ok(()),
                Err(_) => Err(NoMemory),
            },
            Err(_) => Err(NoMemory),
        }
    }

    /// The rows whose text is alike this one. It succeeds whatever memory there is.
    pub(crate) fn alike(&self, text: &str, folded: bool) -> &[u32]
        requires { length text.now ≤ MAX_TEXT }
        ensures { result.now ≡ rows_at self.now (compared folded text.now) }
    {
        let bytes = text.as_bytes();
        if !folded {
            return self.at(bytes);
        }
        let mut buffer = [0; MAX_TEXT];
        let key = &mut buffer[..bytes.len()];
        key.copy_from_slice(bytes);
        key.make_ascii_lowercase();
        self.at(key)
    }

    /// The rows at a key.
    fn at(&self, key: &[u8]) -> &[u32]
        ensures { result.now ≡ rows_at self.now key.now }
    {
        match self.rows.get(key) {
            Some(rows) => rows.as_slice(),
            None => &[],
        }
    }
}

/// A text as it is compared.
fn key_of(alloc: Global, text: &str, folded: bool) -> Result<Vec<u8>, NoMemory>
    ensures { IfOk result (λ key. key.items ≡ compared folded text.now) }
{
    let bytes = text.as_bytes();
    if folded {
        Ok(bytes.to_ascii_lowercase(alloc)?)
    } else {
        Ok(bytes.to_vec(alloc)?)
    }
}
