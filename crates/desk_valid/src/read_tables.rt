//! Tables whose published bodies were read, each once.
ghost use Rattle.std.specs.Prelude.{◌≡◌, map, IfOk};
ghost use Rattle.std.specs.Option.{option_copied};
ghost use Rattle.desk_words.specs.Tables.{published_of, rows_of};
ghost use Rattle.desk_valid.specs.Readings.{rules_at, rules_in, schema_at, schema_in, width_at};
ghost use Rattle.desk_valid.specs.ReadTables.{AreRead, found_at, header_at, header_in, published_in, rows_in};

use crate::reading::{Header, Rules, header_in, rulebook_in, schema_in};
use desk_base::{Duplicate, List, NoMemory};
use desk_words::{RulebookRow, Tables, TextRow};
use schema_core::Schema;
use std::alloc::Global;

/// Tables, with what each published body reads as, or nothing where it does not read. Of a master the header
/// and the number of rows are kept.
#[derive(Drop)]
pub(crate) struct ReadTables<'a> {
    pub(crate) tables: &'a Tables,
    pub(crate) schemas: List<Option<Schema>>,
    pub(crate) headers: List<Option<Header>>,
    pub(crate) rules: List<Option<Rules>>,
}

impl<'a> ReadTables<'a> {
    /// Reads each body once.
    pub(crate) fn new(alloc: Global, tables: &'a Tables) -> Result<ReadTables<'a>, NoMemory>
        ensures read { IfOk result AreRead }
        ensures tables { IfOk result (λ read. rows_in read ≡ rows_of tables.now) }
    {
        let schemas = schemas_in(alloc, tables.schemas.as_slice())?;
        let headers = headers_in(alloc, tables.masters.as_slice())?;
        let rules = all_rules(alloc, tables, schemas.as_slice())?;
        Ok(ReadTables {
            tables,
            schemas,
            headers,
            rules,
        })
    }

    /// The schema at a place.
    pub(crate) fn schema_at(&self, place: usize) -> Option<&Schema>
        requires { AreRead self.now }
        ensures { option_copied result ≡ schema_at (published_in self.now) place }
    {
        found_at(self.schemas.as_slice(), place)
    }

    /// The header of the master at a place.
    pub(crate) fn header_at(&self, place: usize) -> Option<&Header>
        requires { AreRead self.now }
        ensures { option_copied result ≡ header_at (published_in self.now) place }
    {
        found_at(self.headers.as_slice(), place)
    }

    /// The rules at a place.
    pub(crate) fn rules_at(&self, place: usize) -> Option<&Rules>
        requires { AreRead self.now }
        ensures { option_copied result ≡ rules_at (published_in self.now) place }
    {
        found_at(self.rules.as_slice(), place)
    }

    /// How many attributes the edition at a place has.
    pub(crate) fn width_at(&self, edition: usize) -> Option<usize>
        requires { AreRead self.now }
        ensures { result ≡ width_at (published_in self.now) edition }
    {
        let row = self.tables.editions.as_slice().get(edition)?;
        let rules = self.rules_at(row.rulebook as usize)?;
        Some(rules.schema.attributes.len())
    }
}

/// What stands at a place, if something does.
pub(crate) fn found_at<T>(found: &[Option<T>], place: usize) -> Option<&T>
    ensures { option_copied result ≡ found_at found.now place }
{
    match found.get(place) {
        Some(one) => one.as_ref(),
        None => None,
    }
}

/// The schemas of all rows.
fn schemas_in(alloc: Global, rows: &[TextRow]) -> Result<List<Option<Schema>>, NoMemory>
    ensures { IfOk result (λ schemas. schemas ≡ map schema_in rows.now) }
{
    let mut schemas = List::new(alloc);
    'rows: for row in rows {
        schemas.push(schema_in(alloc, row)?)?;
    }
    Ok(schemas)
}

/// The headers of the masters of all rows.
fn headers_in(alloc: Global, rows: &[TextRow]) -> Result<List<Option<Header>>, NoMemory>
    ensures { IfOk result (λ headers. headers ≡ map header_in rows.now) }
{
    let mut headers = List::new(alloc);
    'rows: for row in rows {
        headers.push(header_in(alloc, row)?)?;
    }
    Ok(headers)
}

/// The rules of all rows, over the schemas that they name.
fn all_rules(
    alloc: Global,
    tables: &Tables,
    schemas: &[Option<Schema>],
) -> Result<List<Option<Rules>>, NoMemory>
    requires { schemas.now ≡ map schema_in (published_of (rows_of tables.now)).schemas }
    ensures { IfOk result (λ rules. rules
        ≡ map (rules_in (published_of (rows_of tables.now))) (published_of (rows_of tables.now)).rulebooks) }
{
    let mut rules = List::new(alloc);
    'rows: for row in tables.rulebooks.as_slice() {
        rules.push(rules_in(alloc, tables, schemas, row)?)?;
    }
    Ok(rules)
}

/// The rules of a row, over the schema that it names.
fn rules_in(
    alloc: Global,
    tables: &Tables,
    schemas: &[Option<Schema>],
    row: &RulebookRow,
) -> Result<Option<Rules>, NoMemory>
    requires { schemas.now ≡ map schema_in (published_of (rows_of tables.now)).schemas }
    ensures { IfOk result (λ found. found ≡ rules_in (published_of (rows_of tables.now)) row.now) }
{
    let Some(schema) = found_at(schemas, row.schema as usize) else {
        return Ok(None);
    };
    let Some(rulebook) = rulebook_in(alloc, row, schema)? else {
        return Ok(None);
    };
    Ok(Some(Rules {
        schema: schema.copy()?,
        rulebook,
    }))
}
