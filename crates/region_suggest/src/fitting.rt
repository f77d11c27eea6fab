//! Whether a region is one of a kit.
ghost use Rattle.std.specs.Prelude.{◌≡◌, ◌≢◌, ◌<◌, ◌↔◌, All, AllPairs, Any, length, IsTrue};
ghost use Rattle.fix_model.specs.Regions.{AreAttributesOf, IsRegionOf};

use fix_model::{Kit, Region};

/// Whether the region's attributes are attributes of the kit, none of them twice, and each of its rows has a text for
/// each attribute. `check` and `suggest` ask this of a region.
pub fn is_region_of(kit: &Kit, region: &Region) -> bool
    ensures { IsTrue result ↔ IsRegionOf kit.now region.now }
{
    are_attributes_of(kit, region.attrs.as_slice()) && are_whole(region)
}

fn are_attributes_of(kit: &Kit, attributes: &[u16]) -> bool
    ensures { IsTrue result ↔ AreAttributesOf kit.now attributes.now }
{
    are_below(attributes, kit.width) && are_apart(attributes)
}

/// Whether each of these attributes is below the number.
fn are_below(attributes: &[u16], width: u16) -> bool
    ensures { IsTrue result ↔ All (λ attribute. attribute < width) attributes.now }
{
    attributes.iter().all(|attribute| *attribute < width)
}

/// Whether no attribute stands twice among these.
fn are_apart(attributes: &[u16]) -> bool
    ensures { IsTrue result ↔ AllPairs (λ one other. one ≢ other) attributes.now }
{
    'attributes: for (place, attribute) in attributes.iter().enumerate() {
        if stands_in(&attributes[place + 1..], *attribute) {
            return false;
        }
    }
    true
}

fn stands_in(attributes: &[u16], attribute: u16) -> bool
    ensures { IsTrue result ↔ Any (λ other. attribute ≡ other) attributes.now }
{
    attributes.iter().any(|other| *other == attribute)
}

/// Whether each row has a text for each attribute.
fn are_whole(region: &Region) -> bool
    ensures { IsTrue result ↔ All (λ texts. length texts ≡ length region.now.attrs) region.now.rows }
{
    let width = region.attrs.len();
    region
        .rows
        .as_slice()
        .iter()
        .all(|texts| texts.len() == width)
}
