//! Edition: a version of an edition, with what it was made of.
ghost use Rattle.std.specs.Prelude.{◌≡◌, ◌<◌, All, IfOk, List, Some, length, map, slice_get};
ghost use Rattle.std.specs.List.{AllByRecursion};
ghost use Rattle.desk_words.specs.declared.rows.text.TextRow.{TextRow as RowOf};
ghost use Rattle.desk_words.specs.Tables.{published_of, rows_of};
ghost use Rattle.desk_valid.specs.Readings.{all_of};
ghost use Rattle.desk_valid.specs.Valid.{AreValid};
ghost use Rattle.rule_text.specs.Rulebooks.{IsLine};
ghost use Rattle.schema_core.specs.declared.schema.Schema.{Schema as SchemaOf};
ghost use Rattle.machine_core.specs.Checked.{IsFound};
ghost use Rattle.machine_core.specs.DeskLook.Edition.{edition_shown, rule_summary, sheet_at};
ghost use Rattle.machine_core.specs.Outcomes.{Finds};
ghost use Rattle.machine_core.specs.Views.{name_at};

use crate::looks::published::version_of;
use crate::views::{name_at, named_attributes};
use desk_base::{Duplicate, List, NoMemory, Str, Text};
use desk_valid::rules_of;
use desk_words::{EditionSheet, Kind, RuleSummary, Tables, TextRow};
use machine_core::{Stop, named, region_count};
use rule_text::RuleLine;
use std::alloc::Global;

/// The edition of this name and version. Of its masters the names alone are looked at, and no book is asked for.
pub fn edition_shown(
    alloc: Global,
    tables: &Tables,
    edition: &Str,
    version: u32,
) -> Result<EditionSheet, Stop>
    requires valid { AreValid (rows_of tables.now) }
    ensures sheet { Finds result (edition_shown (published_of (rows_of tables.now)) edition.now version) }
{
    let place = named(tables.editions.as_slice(), edition, version, Kind::Edition)?;
    let sheet = sheet_at(alloc, tables, place)?;
    Ok(sheet)
}

/// The edition at a place, counted from 0.
fn sheet_at(alloc: Global, tables: &Tables, place: u32) -> Result<EditionSheet, NoMemory>
    requires valid { AreValid (rows_of tables.now) }
    requires place { place < length tables.now.editions.items }
    ensures { IfOk result (IsFound (sheet_at (published_of (rows_of tables.now)) place)) }
{
    let edition = &tables.editions.as_slice()[place as usize];
    let rulebook = &tables.rulebooks.as_slice()[edition.rulebook as usize];
    let schema = &tables.schemas.as_slice()[rulebook.schema as usize];
    let rules = rules_of(alloc, tables, edition.rulebook)?;
    let words = rules.schema.attributes.as_slice();
    Ok(EditionSheet {
        edition: edition.name.copy()?,
        version: edition.version,
        folded: named_attributes(alloc, words, edition.folded.as_slice())?,
        schema: version_of(schema)?,
        rulebook: version_of(rulebook)?,
        masters: masters_at(alloc, tables.masters.as_slice(), edition.masters.as_slice())?,
        rules: rule_summaries(alloc, words, rules.rulebook.lines.as_slice())?,
        regions: region_count(tables.regions.as_slice(), place),
        attributes: rules.schema.attributes,
    })
}

/// The masters at these places, counted from 0, by their names and versions.
fn masters_at(
    alloc: Global,
    masters: &[TextRow],
    places: &[u32],
) -> Result<List<(Text, u32)>, NoMemory>
    requires { All (λ place. place < length masters.now) places.now }
    ensures { IfOk result (λ named. (rows : List RowOf) × (all_of (map (slice_get masters.now) places.now) ≡ Some rows)
        × (named ≡ map (λ row. (row.name, row.version)) rows)) }
{
    let mut named = List::new(alloc);
    'places: for place in places {
        named.push(version_of(&masters[*place as usize])?)?;
    }
    Ok(named)
}

/// Rules by names.
fn rule_summaries(
    alloc: Global,
    words: &[Text],
    lines: &[RuleLine],
) -> Result<List<RuleSummary>, NoMemory>
    requires { (schema : SchemaOf) × (schema.attributes ≡ words.now) × AllByRecursion (IsLine schema) lines.now }
    ensures { IfOk result (λ rules. rules ≡ map (rule_summary words.now) lines.now) }
{
    let mut rules = List::new(alloc);
    'lines: for line in lines {
        rules.push(rule_summary(alloc, words, line)?)?;
    }
    Ok(rules)
}

/// A rule by names.
fn rule_summary(alloc: Global, words: &[Text], line: &RuleLine) -> Result<RuleSummary, NoMemory>
    requires keys { All (λ key. key.0 < length words.now) line.now.keys }
    requires head { line.now.head < length words.now }
    ensures { IfOk result (λ rule. rule ≡ rule_summary words.now line.now) }
{
    Ok(RuleSummary {
        name: line.name.copy()?,
        keys: key_names(alloc, words, line.keys.as_slice())?,
        head: name_at(words, usize::from(line.head))?,
        master: line.master.copy()?,
    })
}

/// The words of the attributes of keys.
fn key_names(alloc: Global, words: &[Text], keys: &[(u16, Text)]) -> Result<List<Text>, NoMemory>
    requires { All (λ key. key.0 < length words.now) keys.now }
    ensures { IfOk result (λ names. names ≡ map (λ key. name_at words.now key.0) keys.now) }
{
    let mut names = List::new(alloc);
    'keys: for key in keys {
        names.push(name_at(words, usize::from(key.0))?)?;
    }
    Ok(names)
}
