//! Attributes of a schema by their places.
ghost use Rattle.std.specs.Prelude.{◌<◌, ◌↔◌, All, IsTrue};
ghost use Rattle.std.specs.List.Sorted.{IsStrictlyIncreasing};

/// Whether each of these attributes is below the number.
pub(crate) fn are_below(attributes: &[u16], width: usize) -> bool
    ensures { IsTrue result ↔ All (λ attribute. attribute < width) attributes.now }
{
    attributes
        .iter()
        .all(|attribute| usize::from(*attribute) < width)
}

/// Whether each of these attributes is below the next.
pub(crate) fn ascend(attributes: &[u16]) -> bool
    ensures { IsTrue result ↔ IsStrictlyIncreasing attributes.now }
{
    'attributes: for place in 1..attributes.len() {
        if attributes[place - 1] >= attributes[place] {
            return false;
        }
    }
    true
}
