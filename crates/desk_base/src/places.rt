//! Texts and numbers among others, and the flags of listed places.
ghost use Rattle.std.specs.Prelude.{◌≡◌, ◌≢◌, ◌<◌, ◌↔◌, length, AllPairs, IfOk, IfSome, IsTrue};
ghost use Rattle.std.specs.Str.{is_utf8};
ghost use Rattle.desk_base.specs.Places.{place_of, has_text, is_listed, flags_of};

use crate::error::NoMemory;
use crate::list::List;
use crate::text::Text;
use std::alloc::Global;

/// The place of the first of these texts that equals this one, counted from 0.
pub fn place_of(texts: &[Text], text: &str) -> Option<usize>
    ensures found { result ≡ place_of texts.now text.now }
    ensures within { IfSome result (λ place. place < length texts.now) }
{
    texts.iter().position(|one| text == one.as_str())
}

/// Whether this text is one of these.
pub fn has_text(texts: &[Text], text: &str) -> bool
    ensures { result ≡ has_text texts.now text.now }
{
    texts.iter().any(|one| text == one.as_str())
}

/// Whether no text stands twice among these.
pub fn are_distinct(texts: &[Text]) -> bool
    ensures { IsTrue result ↔ AllPairs (λ earlier later. earlier ≢ later) texts.now }
{
    'texts: for (place, text) in texts.iter().enumerate() {
        if has_text(&texts[place + 1..], text.as_str()) {
            return false;
        }
    }
    true
}

/// Whether no number stands twice among these.
pub fn are_apart(numbers: &[u16]) -> bool
    ensures { IsTrue result ↔ AllPairs (λ earlier later. earlier ≢ later) numbers.now }
{
    'numbers: for (place, number) in numbers.iter().enumerate() {
        if is_listed(&numbers[place + 1..], *number) {
            return false;
        }
    }
    true
}

/// For each of so many places, counted from 0, whether it is listed.
pub fn flags_of(alloc: Global, count: u16, places: &[u16]) -> Result<List<bool>, NoMemory>
    ensures flags { IfOk result (λ flags. flags ≡ flags_of count places.now) }
    ensures full { IfOk result (λ flags. length flags ≡ count) }
{
    let mut flags = List::with_capacity(alloc, usize::from(count))?;
    'places: for place in 0..count {
        flags.push(is_listed(places, place))?;
    }
    Ok(flags)
}

fn is_listed(places: &[u16], place: u16) -> bool
    ensures { result ≡ is_listed places.now place }
{
    places.iter().any(|one| place == *one)
}

/// Whether these bytes are UTF-8.
pub fn is_utf8(bytes: &[u8]) -> bool
    ensures { result ≡ is_utf8 bytes.now }
{
    matches!(std::str::from_utf8(bytes), Ok(_))
}
