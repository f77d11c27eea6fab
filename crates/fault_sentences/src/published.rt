//! The sentences on what is not there, stands twice or is too much where something is published.
ghost use Rattle.std.specs.Prelude.{◌≡◌, ◌++◌, IfOk, OnOk};
ghost use Rattle.fault_sentences.specs.Published.{absent_sentence, bad_name_sentence, cells_sentence};
ghost use Rattle.fault_sentences.specs.Published.{folded_sentence, full_sentence, masters_sentence, name_form};
ghost use Rattle.fault_sentences.specs.Published.{twice_sentence, versions, word_of, words_of};

use crate::sentence::Sentence;
use desk_base::NoMemory;
use schema_core::Schema;
use std::alloc::Global;

/// What is published under a name, in versions.
#[derive(Clone, Copy, Debug, PartialEq, Eq)]
pub enum Published {
    Schema,
    Master,
    Rulebook,
    Edition,
}

impl Sentence {
    /// Adds the form of names.
    pub(crate) fn name_form(&mut self) -> Result<(), NoMemory>
        ensures { OnOk result (self.new ≡ self.old ++ name_form) }
    {
        self.words(
            " is no name; take a small letter, and then small letters, digits or _, at most 32 bytes",
        )
    }
}

/// Says that a text is no name.
#[tactic(auto, unfolding(crate::specs::Published::bad_name_sentence))]
pub fn bad_name_sentence(alloc: Global, text: &str) -> Result<Sentence, NoMemory>
    ensures { IfOk result (λ sentence. sentence ≡ bad_name_sentence text.now) }
{
    let mut out = Sentence::new(alloc);
    out.shown(text.as_bytes())?;
    out.name_form()?;
    Ok(out)
}

/// Says that no version of a name, or not this one, is there; `newest` is 0 where none is.
#[tactic(auto, unfolding(crate::specs::Published::absent_sentence))]
pub fn absent_sentence(
    alloc: Global,
    what: Published,
    name: &str,
    version: u32,
    newest: u32,
) -> Result<Sentence, NoMemory>
    ensures { IfOk result (λ sentence. sentence ≡ absent_sentence what name.now version newest) }
{
    let mut out = Sentence::new(alloc);
    if newest == 0 {
        out.words("there is no ")?;
        out.words(word_of(what))?;
        out.shown(name.as_bytes())?;
        out.words("; publish it first, or name another")?;
    } else {
        out.words("the ")?;
        out.words(word_of(what))?;
        out.shown(name.as_bytes())?;
        versions(&mut out, version, newest)?;
    }
    Ok(out)
}

/// The word for it, and a blank.
fn word_of(what: Published) -> &'static str
    ensures { result.now ≡ word_of what }
{
    match what {
        Published::Schema => "schema ",
        Published::Master => "master ",
        Published::Rulebook => "rulebook ",
        Published::Edition => "edition ",
    }
}

/// The word for several of them, after a blank.
fn words_of(what: Published) -> &'static str
    ensures { result.now ≡ words_of what }
{
    match what {
        Published::Schema => " schemas",
        Published::Master => " masters",
        Published::Rulebook => " rulebooks",
        Published::Edition => " editions",
    }
}

#[tactic(auto, unfolding(crate::specs::Published::versions))]
fn versions(out: &mut Sentence, version: u32, newest: u32) -> Result<(), NoMemory>
    ensures { OnOk result (out.new ≡ out.old ++ versions version newest) }
{
    out.words(" has no version ")?;
    out.number(version as u64)?;
    out.words("; its newest is ")?;
    out.number(newest as u64)
}

/// Says that the schema has not an attribute that is to be folded.
#[tactic(auto, unfolding(crate::specs::Published::folded_sentence))]
pub fn folded_sentence(
    alloc: Global,
    attribute: &str,
    schema: &Schema,
) -> Result<Sentence, NoMemory>
    ensures { IfOk result (λ sentence. sentence ≡ folded_sentence attribute.now schema.now) }
{
    let mut out = Sentence::new(alloc);
    out.words("folded names ")?;
    out.shown(attribute.as_bytes())?;
    out.words(", which is no attribute of the schema ")?;
    out.schema(schema)?;
    Ok(out)
}

/// Says that a list, which has this key, names something twice.
#[tactic(auto, unfolding(crate::specs::Published::twice_sentence))]
pub fn twice_sentence(alloc: Global, key: &str, name: &str) -> Result<Sentence, NoMemory>
    ensures { IfOk result (λ sentence. sentence ≡ twice_sentence key.now name.now) }
{
    let mut out = Sentence::new(alloc);
    out.words(key)?;
    out.words(" names ")?;
    out.shown(name.as_bytes())?;
    out.words(" twice; name it once")?;
    Ok(out)
}

/// Says that an edition has more masters than it may have.
#[tactic(auto, unfolding(crate::specs::Published::masters_sentence))]
pub fn masters_sentence(alloc: Global, count: u64) -> Result<Sentence, NoMemory>
    ensures { IfOk result (λ sentence. sentence ≡ masters_sentence count) }
{
    let mut out = Sentence::new(alloc);
    out.words("the edition has ")?;
    out.number(count)?;
    out.words(" masters, and may have 8; leave some out")?;
    Ok(out)
}

/// Says that the desk has as many of these as it keeps.
#[tactic(auto, unfolding(crate::specs::Published::full_sentence))]
pub fn full_sentence(alloc: Global, what: Published, most: u64) -> Result<Sentence, NoMemory>
    ensures { IfOk result (λ sentence. sentence ≡ full_sentence what most) }
{
    let mut out = Sentence::new(alloc);
    out.words("the desk has ")?;
    out.number(most)?;
    out.words(words_of(what))?;
    out.words(" already, and keeps no more; begin another desk")?;
    Ok(out)
}

/// Says that the masters of the desk have more cells than it keeps.
#[tactic(auto, unfolding(crate::specs::Published::cells_sentence))]
pub fn cells_sentence(alloc: Global) -> Result<Sentence, NoMemory>
    ensures { IfOk result (λ sentence. sentence ≡ cells_sentence) }
{
    let mut out = Sentence::new(alloc);
    out.words(
        "the masters of the desk may have 4000000 cells, and with this sheet they have more; leave out rows or columns",
    )?;
    Ok(out)
}
