//! Tests of the attributes that a request names.
ghost use Rattle.std.specs.Prelude.{◌≡◌, ◌<◌, ◌==◌, ℕ, List, All, IfOk, IfSome, length, position, []};
ghost use Rattle.std.specs.List.{list_any};
ghost use Rattle.std.specs.Str.{bytes_eq};
ghost use Rattle.machine_core.specs.Checked.{each, each_following};
ghost use Rattle.machine_core.specs.Outcomes.{Finds};
ghost use Rattle.machine_core.specs.Tests.{another_attribute, attribute_of, typed_cell};

use crate::stop::Stop;
use desk_base::{Duplicate, List, MAX_TEXT, Str, Text, place_of};
use desk_words::Refusal;
use std::alloc::Global;

/// The place of the attribute with this word, counted from 0.
pub fn attribute_of(attributes: &[Text], word: &Str) -> Result<usize, Stop>
    ensures finds { Finds result (attribute_of attributes.now word.now) }
    ensures within { IfOk result (λ place. place < length attributes.now) }
{
    match place_of(attributes, word.as_str()) {
        Some(place) => Ok(place),
        None => Err(Stop::Refused(Refusal::UnknownAttr(word.copy()?))),
    }
}

/// The places of the attributes with these words, counted from 0, in their order.
pub fn attributes_of(alloc: Global, attributes: &[Text], words: &[Str]) -> Result<List<u16>, Stop>
    requires { length attributes.now < 65536 }
    ensures { Finds result (each (attribute_of attributes.now) words.now) }
{
    let mut places = List::new(alloc);
    'words: for word in words {
        let place = attribute_of(attributes, word)?;
        places.push(place as u16)?;
    }
    Ok(places)
}

/// A text that is typed for an attribute, with the attribute's place.
fn typed_cell(alloc: Global, attributes: &[Text], cell: &(Str, Str)) -> Result<(usize, Text), Stop>
    ensures finds { Finds result (typed_cell attributes.now cell.now) }
    ensures within { IfOk result (λ cell. cell.0 < length attributes.now) }
{
    let place = attribute_of(attributes, &cell.0)?;
    if cell.1.as_str().len() > MAX_TEXT {
        return Err(Stop::Refused(Refusal::ValueLong(cell.0.copy()?)));
    }
    let text = Text::of(alloc, cell.1.as_str())?;
    Ok((place, text))
}

/// The texts that are typed for attributes, each with the attribute's place, in their order.
pub fn typed_cells(
    alloc: Global,
    attributes: &[Text],
    cells: &[(Str, Str)],
) -> Result<List<(usize, Text)>, Stop>
    ensures finds { Finds result (each (typed_cell attributes.now) cells.now) }
    ensures within { IfOk result (All (λ cell. cell.0 < length attributes.now)) }
{
    let mut typed = List::new(alloc);
    'cells: for cell in cells {
        let found = typed_cell(alloc, attributes, cell)?;
        typed.push(found)?;
    }
    Ok(typed)
}

/// The place of an attribute that is none of those before it.
pub(crate) fn another_attribute(
    attributes: &[Text],
    before: &[u16],
    word: &Str,
) -> Result<u16, Stop>
    requires { length attributes.now < 65536 }
    ensures finds { Finds result (another_attribute attributes.now before.now word.now) }
    ensures within { IfOk result (λ place. place < length attributes.now) }
{
    let place = attribute_of(attributes, word)? as u16;
    if is_among(before, place) {
        return Err(Stop::Refused(Refusal::Twice(word.copy()?)));
    }
    Ok(place)
}

/// Whether one of these places is this one.
pub(crate) fn is_among(places: &[u16], place: u16) -> bool
    ensures { result ≡ list_any (λ earlier. earlier == place) places.now }
{
    places.iter().any(|earlier| *earlier == place)
}

/// The places of attributes of which none stands twice, in their order.
pub fn another_attributes(
    alloc: Global,
    attributes: &[Text],
    words: &[Str],
) -> Result<List<u16>, Stop>
    requires { length attributes.now < 65536 }
    ensures finds { Finds result (each_following [] (another_attribute attributes.now) words.now) }
    ensures within { IfOk result (All (λ place. place < length attributes.now)) }
{
    let mut places = List::new(alloc);
    'words: for word in words {
        let place = another_attribute(attributes, places.as_slice(), word)?;
        places.push(place)?;
    }
    Ok(places)
}
