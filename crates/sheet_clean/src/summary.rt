//! What the rows of a sheet come to.
ghost use Rattle.std.specs.Prelude.{◌≡◌, IfSome, None};
ghost use Rattle.sheet_clean.specs.Sheets.{IsTooGreat, added, no_rows};

/// How many rows were written, how many of each verdict, how many cells were changed, and from how many rows a step
/// dissents.
#[derive(Clone, Copy, Debug, PartialEq, Eq)]
pub struct Summary {
    pub rows: u64,
    pub certain: u64,
    pub partial: u64,
    pub conflict: u64,
    pub changed: u64,
    pub dissents: u64,
}

impl Summary {
    /// That of no row.
    pub fn new() -> Summary
        ensures { result ≡ no_rows }
    {
        Summary {
            rows: 0,
            certain: 0,
            partial: 0,
            conflict: 0,
            changed: 0,
            dissents: 0,
        }
    }

    /// Both added up, or none where a count passes 2^64 - 1.
    pub fn plus(self, other: Summary) -> Option<Summary>
        ensures sum { IfSome result (λ sum. sum ≡ added self other) }
        ensures none { result ≡ None → IsTooGreat (added self other) }
    {
        Some(Summary {
            rows: self.rows.checked_add(other.rows)?,
            certain: self.certain.checked_add(other.certain)?,
            partial: self.partial.checked_add(other.partial)?,
            conflict: self.conflict.checked_add(other.conflict)?,
            changed: self.changed.checked_add(other.changed)?,
            dissents: self.dissents.checked_add(other.dissents)?,
        })
    }
}
