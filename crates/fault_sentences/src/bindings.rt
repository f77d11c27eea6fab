//! The sentences on rules that do not bind to masters.
ghost use Rattle.std.specs.Prelude.{◌≡◌, ◌++◌, option_map, IfOk, OnOk};
ghost use Rattle.fault_sentences.specs.Bindings.{bind_sentence, column_named, columns_of, index_sentence};
ghost use Rattle.fault_sentences.specs.Bindings.{lacking, lacks};
ghost use Rattle.fault_sentences.specs.Bindings.{line_at, no_column, no_master, wants_column};

use crate::sentence::Sentence;
use desk_base::{NoMemory, Text};
use master_rows::Master;
use rule_text::{BindFault, RuleLine, Rulebook, master_named};
use std::alloc::Global;

/// What rules are bound over.
#[derive(Clone, Copy, Debug, PartialEq, Eq)]
pub enum Over {
    /// The masters of an edition.
    Edition,
    /// The masters that a caller gives.
    Given,
    /// The newest versions of all masters of the desk.
    Desk,
}

/// Says which name in a rulebook nothing has: the rule, the name, and what there is in its stead.
#[tactic(auto, unfolding(crate::specs::Bindings::bind_sentence))]
pub fn bind_sentence(
    alloc: Global,
    fault: BindFault,
    over: Over,
    rulebook: &Rulebook,
    masters: &[(Text, Master)],
) -> Result<Sentence, NoMemory>
    ensures { IfOk result (λ sentence. sentence ≡ bind_sentence fault over rulebook.now masters.now) }
{
    let mut out = Sentence::new(alloc);
    match fault {
        BindFault::NoMaster(number) => {
            if let Some(line) = line_at(rulebook, number) {
                no_master(&mut out, over, line)?;
            }
        }
        BindFault::NoColumn(number, place) => {
            if let Some(line) = line_at(rulebook, number) {
                no_column(&mut out, line, place, columns_of(masters, &line.master))?;
            }
        }
        BindFault::NoMemory => out.no_memory()?,
    }
    Ok(out)
}

/// The rule with this number, counted from 1.
fn line_at(rulebook: &Rulebook, number: u64) -> Option<&RuleLine>
    ensures { option_map (λ line. line.now) result ≡ line_at rulebook.now number }
{
    rulebook
        .lines
        .as_slice()
        .get(number.saturating_sub(1) as usize)
}

#[tactic(auto, unfolding(crate::specs::Bindings::no_master))]
pub(crate) fn no_master(out: &mut Sentence, over: Over, line: &RuleLine) -> Result<(), NoMemory>
    ensures { OnOk result (out.new ≡ out.old ++ no_master over line.now) }
{
    out.words("rule ")?;
    out.shown(line.name.as_str().as_bytes())?;
    out.words(" looks into the master ")?;
    out.shown(line.master.as_str().as_bytes())?;
    out.words(lacks(over))
}

fn lacks(over: Over) -> &'static str
    ensures { result.now ≡ lacks over }
{
    match over {
        Over::Edition => ", which the edition does not have",
        Over::Given => ", which is not given",
        Over::Desk => ", which the desk does not have",
    }
}

#[tactic(auto, unfolding(crate::specs::Bindings::no_column))]
fn no_column(
    out: &mut Sentence,
    line: &RuleLine,
    place: u64,
    columns: &[Text],
) -> Result<(), NoMemory>
    ensures { OnOk result (out.new ≡ out.old ++ no_column line.now place columns.now) }
{
    wants_column(out, line, place)?;
    lacking(out, &line.master, columns)
}

/// The master that has not a column, and those that it has.
#[tactic(auto, unfolding(crate::specs::Bindings::lacking))]
fn lacking(out: &mut Sentence, master: &Text, columns: &[Text]) -> Result<(), NoMemory>
    ensures { OnOk result (out.new ≡ out.old ++ lacking master.now columns.now) }
{
    out.words(", which the master ")?;
    out.shown(master.as_str().as_bytes())?;
    out.words(" does not have; its columns are ")?;
    out.listed(columns)
}

/// A rule, and the column that it looks for or copies.
#[tactic(auto, unfolding(crate::specs::Bindings::wants_column))]
pub(crate) fn wants_column(out: &mut Sentence, line: &RuleLine, place: u64) -> Result<(), NoMemory>
    ensures { OnOk result (out.new ≡ out.old ++ wants_column line.now place) }
{
    out.words("rule ")?;
    out.shown(line.name.as_str().as_bytes())?;
    if place == 0 {
        out.words(" copies the column ")?;
        out.shown(line.from.as_str().as_bytes())
    } else {
        out.words(" looks for the column ")?;
        out.shown(column_named(line, place))
    }
}

/// The column of a key, counted from 1.
fn column_named(line: &RuleLine, place: u64) -> &[u8]
    ensures { result.now ≡ column_named line.now place }
{
    match line.keys.as_slice().get(place.saturating_sub(1) as usize) {
        Some(key) => key.1.as_str().as_bytes(),
        None => &[],
    }
}

/// The columns of the master of this name.
fn columns_of<'a>(masters: &'a [(Text, Master)], name: &Text) -> &'a [Text]
    ensures { result.now ≡ columns_of masters.now name.now }
{
    match master_named(masters, name) {
        Some(place) => masters[place].1.columns.as_slice(),
        None => &[],
    }
}

/// Says that an index has more entries than it may have.
#[tactic(auto, unfolding(crate::specs::Bindings::index_sentence))]
pub fn index_sentence(alloc: Global, entries: u64) -> Result<Sentence, NoMemory>
    ensures { IfOk result (λ sentence. sentence ≡ index_sentence entries) }
{
    let mut out = Sentence::new(alloc);
    out.words("the index of these rules over these masters has ")?;
    out.number(entries)?;
    out.words(" entries, and may have 2000000; leave out rules or rows")?;
    Ok(out)
}
