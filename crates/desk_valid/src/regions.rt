//! Whether the rows of the regions are what they have to be.
ghost use Rattle.std.specs.Prelude.{◌≡◌, ◌==◌, ◌<◌, ◌≤◌, ◌↔◌, All, count_by, length, IfSome, IsTrue};
ghost use Rattle.desk_valid.specs.declared.table.Table.TheVariants.{Regions};
ghost use Rattle.desk_valid.specs.FirstDamaged.{IsFirstDamaged};
ghost use Rattle.desk_valid.specs.Readings.{width_at};
ghost use Rattle.desk_valid.specs.ReadTables.{AreRead, published_in, rows_in};
ghost use Rattle.desk_valid.specs.Rows.Region.{IsRegionRow};

use crate::attributes::are_below;
use crate::read_tables::ReadTables;
use desk_base::{MAX_REGION_ROWS, MAX_REGIONS, are_apart};
use desk_words::RegionRow;

/// The first damaged row of the regions.
pub(crate) fn first_damaged(read: &ReadTables<'_>) -> Option<u64>
    requires { AreRead read.now }
    ensures { IsFirstDamaged (rows_in read.now) Regions result }
{
    'rows: for (place, row) in read.tables.regions.as_slice().iter().enumerate() {
        if !is_region_row(read, place, row) {
            return Some(place as u64);
        }
    }
    None
}

fn is_region_row(read: &ReadTables<'_>, place: usize, row: &RegionRow) -> bool
    requires read { AreRead read.now }
    requires place { place ≤ length (published_in read.now).regions }
    ensures { IsTrue result ↔ IsRegionRow (published_in read.now) place row.now }
{
    let earlier = &read.tables.regions.as_slice()[..place];
    (row.edition as usize) < read.tables.editions.len()
        && count_of(earlier, row.edition) < MAX_REGIONS
        && are_apart(row.region.attrs.as_slice())
        && are_within(read, row)
        && row.region.rows.len() <= MAX_REGION_ROWS
        && are_whole(row)
}

/// How many of these regions the edition has.
fn count_of(regions: &[RegionRow], edition: u32) -> usize
    ensures { result ≡ count_by (λ one. one.edition == edition) regions.now }
{
    regions.iter().filter(|one| one.edition == edition).count()
}

/// Whether the attributes are below the number of the edition's, where its rules read.
fn are_within(read: &ReadTables<'_>, row: &RegionRow) -> bool
    requires { AreRead read.now }
    ensures { IsTrue result ↔ IfSome (width_at (published_in read.now) row.now.edition)
        (λ width. All (λ attribute. attribute < width) row.now.region.attrs) }
{
    match read.width_at(row.edition as usize) {
        Some(width) => are_below(row.region.attrs.as_slice(), width),
        None => true,
    }
}

/// Whether each row has a text for each attribute.
fn are_whole(row: &RegionRow) -> bool
    ensures { IsTrue result
        ↔ All (λ texts. length texts ≡ length row.now.region.attrs) row.now.region.rows }
{
    let width = row.region.attrs.len();
    row.region
        .rows
        .as_slice()
        .iter()
        .all(|texts| texts.len() == width)
}
