//! How rows are found that were published as versions of names.
ghost use Rattle.std.specs.Prelude.{◌≡◌, ◌<◌, ◌^◌, count_by, length, IfOk, IfSome, MatchOption};
ghost use Rattle.std.specs.Str.{bytes_eq};
ghost use Rattle.desk_words.specs.declared.refusal.Refusal.TheVariants.{NoSuch};
ghost use Rattle.machine_core.specs.Checked.{some_or};
ghost use Rattle.machine_core.specs.Finding.{newest_of, next_version, place_of};
ghost use Rattle.machine_core.specs.Outcomes.{Finds, WantsNone};
ghost use Rattle.machine_core.specs.Versions.{AreVersions, IsLastNamed};

use crate::stop::Stop;
use desk_base::Str;
use desk_valid::Versioned;
use desk_words::{Kind, Refusal};

/// The place of the row with this name and version, counted from 0.
pub(crate) fn place_of<T: Versioned>(rows: &[T], name: &str, version: u32) -> Option<usize>
    ensures place { result ≡ place_of T.name_of T.version_of rows.now name.now version }
    ensures within { IfSome result (λ place. place < length rows.now) }
{
    rows.iter().position(|row| row.name().as_str() == name && row.version() == version)
}

/// The place of the row with this name and version, counted from 0; refused where no row of the kind has them. No
/// want of memory is answered.
pub fn named<T: Versioned>(rows: &[T], name: &Str, version: u32, kind: Kind) -> Result<u32, Stop>
    requires { length rows.now < 2 ^ 31 }
    ensures finds { Finds result (some_or (place_of T.name_of T.version_of rows.now name.now version) (NoSuch kind)) }
    ensures memory { WantsNone result }
    ensures within { IfOk result (λ place. place < length rows.now) }
{
    match place_of(rows, name.as_str(), version) {
        Some(place) => Ok(place as u32),
        None => Err(Stop::Refused(Refusal::NoSuch(kind))),
    }
}

/// The place of the newest version of a name, counted from 0.
pub fn newest_of<T: Versioned>(rows: &[T], name: &str) -> Option<usize>
    requires { AreVersions T.name_of T.version_of rows.now }
    ensures place { result ≡ newest_of T.name_of T.version_of rows.now name.now }
    ensures within { IfSome result (λ place. place < length rows.now) }
{
    last_named(rows, name)
}

/// The version that the next row of a name has.
pub fn next_version<T: Versioned>(rows: &[T], name: &str) -> u32
    requires versions { AreVersions T.name_of T.version_of rows.now }
    requires few { length rows.now < 2 ^ 31 }
    ensures { result ≡ next_version T.name_of rows.now name.now }
{
    match last_named(rows, name) {
        Some(place) => rows[place].version() + 1,
        None => 1,
    }
}

/// The last row of a name. Versions go up, so it is the newest, and its version says how many there are: no rows but
/// those after it are looked at, and none is counted.
fn last_named<T: Versioned>(rows: &[T], name: &str) -> Option<usize>
    ensures last { MatchOption result (count_by (λ row. bytes_eq (T.name_of row) name.now) rows.now ≡ 0)
        (λ place. IsLastNamed T.name_of rows.now name.now place) }
{
    let mut place = rows.len();
    'rows: while place > 0 {
        place -= 1;
        if rows[place].name().as_str() == name {
            return Some(place);
        }
    }
    None
}
