//! What was published in valid tables, as it reads.
ghost use Rattle.std.specs.Prelude.{◌≡◌, ◌<◌, ◌≤◌, All, length, map, Some, IfOk, OnOk};
ghost use Rattle.master_rows.specs.Master.{IsMaster};
ghost use Rattle.desk_base.specs.declared.limits.TheConstants.{MAX_MASTERS};
ghost use Rattle.desk_words.specs.Tables.{published_of, rows_of};
ghost use Rattle.rule_text.specs.Binding.{AreMasters};
ghost use Rattle.rule_text.specs.Rulebooks.{IsRulebook};
ghost use Rattle.schema_core.specs.Schemas.{IsSchema};
ghost use Rattle.desk_valid.specs.Readings.{all_of, master_at, rules_at, schema_at};
ghost use Rattle.desk_valid.specs.Rows.Edition.{AreNamedApart};
ghost use Rattle.desk_valid.specs.Valid.{AreValid};

use crate::parts::{masters_at, rules_at};
use crate::reading::{Rules, schema_in, sheet_in};
use desk_base::{Duplicate, List, NoMemory, Text};
use desk_words::Tables;
use master_rows::Master;
use schema_core::Schema;
use std::alloc::Global;

/// The schema at a place, counted from 0.
pub fn schema_of(alloc: Global, tables: &Tables, place: u32) -> Result<Schema, NoMemory>
    requires valid { AreValid (rows_of tables.now) }
    requires place { place < length tables.now.schemas.items }
    ensures schema { IfOk result (λ schema. schema_at (published_of (rows_of tables.now)) place ≡ Some schema) }
    ensures sound { IfOk result IsSchema }
{
    let row = &tables.schemas.as_slice()[place as usize];
    let Some(schema) = schema_in(alloc, row)? else {
        // In valid tables a schema reads.
        unreachable!()
    };
    Ok(schema)
}

/// The rules of the rulebook at a place, counted from 0, with their schema.
pub fn rules_of(alloc: Global, tables: &Tables, place: u32) -> Result<Rules, NoMemory>
    requires valid { AreValid (rows_of tables.now) }
    requires place { place < length tables.now.rulebooks.items }
    ensures rules { IfOk result (λ rules. rules_at (published_of (rows_of tables.now)) place ≡ Some rules) }
    ensures schema { IfOk result (λ rules. IsSchema rules.schema) }
    ensures rulebook { IfOk result (λ rules. IsRulebook rules.schema rules.rulebook) }
{
    let Some(rules) = rules_at(alloc, tables, place)? else {
        // In valid tables a rulebook reads.
        unreachable!()
    };
    Ok(rules)
}

/// The master at a place, counted from 0, under its name.
pub fn master_of(alloc: Global, tables: &Tables, place: u32) -> Result<(Text, Master), NoMemory>
    requires valid { AreValid (rows_of tables.now) }
    requires place { place < length tables.now.masters.items }
    ensures master { IfOk result (λ named. master_at (published_of (rows_of tables.now)) place ≡ Some named) }
    ensures sound { IfOk result (λ named. IsMaster named.1) }
{
    let row = &tables.masters.as_slice()[place as usize];
    let Some(master) = sheet_in(alloc, row)? else {
        // In valid tables a master reads.
        unreachable!()
    };
    Ok((row.name.copy()?, master))
}

/// The masters at these places, counted from 0, under their names.
pub fn masters_of(
    alloc: Global,
    tables: &Tables,
    places: &[u32],
) -> Result<List<(Text, Master)>, NoMemory>
    requires valid { AreValid (rows_of tables.now) }
    requires places { All (λ place. place < length tables.now.masters.items) places.now }
    ensures masters { IfOk result
        (λ masters. all_of (map (master_at (published_of (rows_of tables.now))) places.now) ≡ Some masters) }
    ensures sound { (length places.now ≤ MAX_MASTERS) → AreNamedApart (published_of (rows_of tables.now)) places.now
        → IfOk result AreMasters }
{
    let Some(masters) = masters_at(alloc, tables, places)? else {
        // In valid tables masters read.
        unreachable!()
    };
    Ok(masters)
}
