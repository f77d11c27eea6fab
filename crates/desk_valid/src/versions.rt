//! Names and versions of what is published.
ghost use Rattle.std.specs.Prelude.{◌≡◌, ◌↔◌, ◌≤◌, ℕ, List, count_by, length, IsTrue};
ghost use Rattle.std.specs.Str.{bytes_eq};
ghost use Rattle.desk_valid.specs.Versions.{IsVersion};

use desk_base::{Text, is_name};
use desk_words::{EditionRow, RulebookRow, TextRow};

/// A row that is published as a version of a name.
pub trait Versioned {
    ghost name_of: { Self → List ℕ };

    ghost version_of: { Self → ℕ };

    /// The name.
    fn name(&self) -> &Text
        ensures { result.now ≡ name_of self.now };

    /// How many versions of the name there are up to this one.
    fn version(&self) -> u32
        ensures { result ≡ version_of self.now };
}

impl Versioned for TextRow {
    ghost name_of = { λ row. row.name };

    ghost version_of = { λ row. row.version };

    fn name(&self) -> &Text {
        &self.name
    }

    fn version(&self) -> u32 {
        self.version
    }
}

impl Versioned for RulebookRow {
    ghost name_of = { λ row. row.name };

    ghost version_of = { λ row. row.version };

    fn name(&self) -> &Text {
        &self.name
    }

    fn version(&self) -> u32 {
        self.version
    }
}

impl Versioned for EditionRow {
    ghost name_of = { λ row. row.name };

    ghost version_of = { λ row. row.version };

    fn name(&self) -> &Text {
        &self.name
    }

    fn version(&self) -> u32 {
        self.version
    }
}

/// Whether the row at a place is the next version of its name.
pub(crate) fn is_version<T: Versioned>(rows: &[T], place: usize, row: &T) -> bool
    requires { place ≤ length rows.now }
    ensures { IsTrue result ↔ IsVersion T.name_of rows.now place (T.name_of row.now) (T.version_of row.now) }
{
    is_name(row.name().as_str().as_bytes())
        && row.version() > 0
        && row.version() as usize - 1 == count_of(&rows[..place], row.name())
}

/// How many of these rows have the name.
fn count_of<T: Versioned>(rows: &[T], name: &Text) -> usize
    ensures count { result ≡ count_by (λ row. bytes_eq (T.name_of row) name.now) rows.now }
    ensures within { result ≤ length rows.now }
{
    rows.iter()
        .filter(|row| row.name().as_str() == name.as_str())
        .count()
}
