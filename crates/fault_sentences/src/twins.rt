//! Names that equal earlier ones up to the case of ASCII letters.
ghost use Rattle.std.specs.Prelude.{◌≡◌, ◌++◌, ◌-◌, ◌<◌, length, position, IfOk, IfSome, OnOk, slice_index_or, []};
ghost use Rattle.std.specs.Str.{str_eq_ignore_ascii_case};
ghost use Rattle.fault_sentences.specs.Notes.{earlier_twin, name_told, twin_at, twin_note, twin_notes, twins};

use crate::notes::add;
use crate::sentence::Sentence;
use desk_base::{List, NoMemory, Str, Text};
use std::alloc::Global;

/// Adds a note on the names that equal earlier ones up to case, if there are such.
pub(crate) fn note_twins(notes: &mut List<Str>, what: &str, names: &[Text]) -> Result<(), NoMemory>
    ensures { OnOk result (notes.new ≡ notes.old ++ twin_notes what.now names.now) }
{
    let twins = twins_of(notes.allocator(), names)?;
    let [first, others @ ..] = twins.as_slice() else {
        return Ok(());
    };
    add(
        notes,
        &twin_note(notes.allocator(), what, names, *first, others.len())?,
    )
}

/// Each name that equals an earlier one up to case: its number and that of the first such, counted from 1.
fn twins_of(alloc: Global, names: &[Text]) -> Result<List<(u64, u64)>, NoMemory>
    ensures { IfOk result (λ pairs. pairs ≡ twins names.now) }
{
    let mut pairs = List::new(alloc);
    'names: for later in 0..names.len() {
        add_twin(&mut pairs, names, later)?;
    }
    Ok(pairs)
}

/// Adds the pair of the name at a place, if it equals an earlier one.
fn add_twin(pairs: &mut List<(u64, u64)>, names: &[Text], later: usize) -> Result<(), NoMemory>
    requires { later < length names.now }
    ensures { OnOk result (pairs.new ≡ pairs.old ++ twin_at names.now later) }
{
    match earlier_twin(names, later) {
        Some(earlier) => pairs.push((later as u64 + 1, earlier as u64 + 1)),
        None => Ok(()),
    }
}

fn earlier_twin(names: &[Text], later: usize) -> Option<usize>
    requires { later < length names.now }
    ensures found { result ≡ earlier_twin names.now later }
    ensures within { IfSome result (λ earlier. earlier < later) }
{
    place_alike(&names[..later], names[later].as_str())
}

/// The place of the first of these names that equals this one up to case, counted from 0.
fn place_alike(names: &[Text], name: &str) -> Option<usize>
    ensures found { result ≡ position (str_eq_ignore_ascii_case name.now) names.now }
    ensures within { IfSome result (λ place. place < length names.now) }
{
    names
        .iter()
        .position(|other| name.eq_ignore_ascii_case(other.as_str()))
}

#[tactic(auto, unfolding(crate::specs::Notes::twin_note))]
fn twin_note(
    alloc: Global,
    what: &str,
    names: &[Text],
    pair: (u64, u64),
    more: usize,
) -> Result<Sentence, NoMemory>
    ensures { IfOk result (λ note. note ≡ twin_note what.now names.now pair more) }
{
    let mut out = Sentence::new(alloc);
    name_told(&mut out, what, names, pair.0)?;
    out.words(", equals ")?;
    name_told(&mut out, what, names, pair.1)?;
    out.words(", up to case")?;
    out.so_more("; so does 1 more", "; so do ", " more", more)?;
    Ok(out)
}

fn name_told(out: &mut Sentence, what: &str, names: &[Text], number: u64) -> Result<(), NoMemory>
    ensures { OnOk result (out.new ≡ out.old ++ name_told what.now names.now number) }
{
    out.numbered(what, number, name_numbered(names, number))
}

/// The name with a number, counted from 1, empty past the last.
fn name_numbered(names: &[Text], number: u64) -> &[u8]
    ensures { result.now ≡ slice_index_or names.now (number - 1) [] }
{
    name_at(names, number.saturating_sub(1) as usize)
}

/// The name at a place, empty past the last.
pub(crate) fn name_at(names: &[Text], place: usize) -> &[u8]
    ensures { result.now ≡ slice_index_or names.now place [] }
{
    match names.get(place) {
        Some(name) => name.as_str().as_bytes(),
        None => &[],
    }
}
