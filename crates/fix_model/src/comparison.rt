//! The comparison of texts at an attribute.
ghost use Rattle.std.specs.Prelude.{◌≡◌, ◌↔◌, IsTrue, map};
ghost use Rattle.std.specs.Char.{to_ascii_lowercase};
ghost use Rattle.std.specs.Cmp.Lexicographic.{slice_cmp};
ghost use Rattle.std.specs.Ordering.{nat_cmp};
ghost use Rattle.fix_model.specs.Alike.{AreAlike};
ghost use Rattle.fix_model.specs.Comparison.{text_order};

use std::cmp::Ordering;

/// Whether two texts count as one at an attribute: they are equal, or the attribute is folded and they
/// are equal but for ASCII case.
pub fn alike(one: &str, other: &str, folded: bool) -> bool
    ensures { IsTrue result ↔ AreAlike folded one.now other.now }
{
    if folded {
        one.eq_ignore_ascii_case(other)
    } else {
        one == other
    }
}

/// The order of two texts at an attribute: by their bytes, in which capital ASCII letters count as small
/// ones where the attribute is folded. Texts that are alike are equal in it.
pub fn text_order(one: &str, other: &str, folded: bool) -> Ordering
    ensures { result ≡ text_order folded one.now other.now }
{
    if folded {
        folded_order(one.as_bytes(), other.as_bytes())
    } else {
        one.cmp(other)
    }
}

fn folded_order(one: &[u8], other: &[u8]) -> Ordering
    ensures { result ≡ slice_cmp nat_cmp (map to_ascii_lowercase one.now) (map to_ascii_lowercase other.now) }
{
    let both = one.len().min(other.len());
    'bytes: for place in 0..both {
        let byte = one[place].to_ascii_lowercase();
        let order = byte.cmp(&other[place].to_ascii_lowercase());
        if order.is_ne() {
            return order;
        }
    }
    one.len().cmp(&other.len())
}
