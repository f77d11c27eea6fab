//! What a session keeps where its attributes become others.
ghost use Rattle.std.specs.Prelude.{◌≡◌, ◌≤◌, [], false, length, map, IfOk};
ghost use Rattle.desk_carry.specs.Moves.{IsMoved, kept, places_apart};

use crate::session::Moved;
use desk_base::{Duplicate, List, MAX_ATTRIBUTES, NoMemory, Text, has_text, place_of};
use std::alloc::Global;

/// The session with these typed texts and flags, moved from the attributes before to those after, which are told by
/// their words: each has the text and the flag of the attribute with its word, or is an unconfirmed blank where there
/// was none. The one refusal is want of memory for the lists.
pub fn moved(
    alloc: Global,
    before: &[Text],
    after: &[Text],
    typed: &[Text],
    confirmed: &[bool],
) -> Result<Moved, NoMemory>
    requires few_before { length before.now ≤ MAX_ATTRIBUTES }
    requires few_after { length after.now ≤ MAX_ATTRIBUTES }
    requires typed { length typed.now ≡ length before.now }
    requires confirmed { length confirmed.now ≡ length before.now }
    ensures { IfOk result (IsMoved before.now after.now typed.now confirmed.now) }
{
    let texts = texts_kept(alloc, before, after, typed)?;
    let flags = flags_kept(alloc, before, after, confirmed)?;
    let added = places_apart(alloc, after, before)?;
    let dropped = places_apart(alloc, before, after)?;
    Ok(Moved {
        typed: texts,
        confirmed: flags,
        added,
        dropped,
    })
}

fn texts_kept(
    alloc: Global,
    before: &[Text],
    after: &[Text],
    typed: &[Text],
) -> Result<List<Text>, NoMemory>
    requires { length typed.now ≡ length before.now }
    ensures { IfOk result (λ texts. texts ≡ map (kept before.now typed.now []) after.now) }
{
    let mut texts = List::new(alloc);
    'words: for word in after {
        let text = match place_of(before, word.as_str()) {
            Some(place) => typed[place].copy()?,
            None => Text::of(alloc, "")?,
        };
        texts.push(text)?;
    }
    Ok(texts)
}

fn flags_kept(
    alloc: Global,
    before: &[Text],
    after: &[Text],
    confirmed: &[bool],
) -> Result<List<bool>, NoMemory>
    requires { length confirmed.now ≡ length before.now }
    ensures { IfOk result (λ flags. flags ≡ map (kept before.now confirmed.now false) after.now) }
{
    let mut flags = List::new(alloc);
    'words: for word in after {
        let flag = match place_of(before, word.as_str()) {
            Some(place) => confirmed[place],
            None => false,
        };
        flags.push(flag)?;
    }
    Ok(flags)
}

/// The places of the words that are not among the others.
fn places_apart(alloc: Global, words: &[Text], others: &[Text]) -> Result<List<u16>, NoMemory>
    requires { length words.now ≤ MAX_ATTRIBUTES }
    ensures { IfOk result (λ places. places ≡ places_apart words.now others.now) }
{
    let mut places = List::new(alloc);
    'words: for (place, word) in words.iter().enumerate() {
        if !has_text(others, word.as_str()) {
            places.push(place as u16)?;
        }
    }
    Ok(places)
}
