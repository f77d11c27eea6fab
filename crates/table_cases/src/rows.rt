//! The rows of the first six tables.
use crate::fields::{act, attributes, body, field, number, numbers, text, texts};
use crate::own::own_row;
use desk_base::{List, Room, Text};
use desk_cases::Case;
use desk_words::{ClerkRow, Digest, EditionRow, RegionRow, RulebookRow, Tables, TextRow};
use fix_model::Region;
use std::alloc::Global;
use std::test::Fail;

/// The tables of a case: each part is a row, in the order of the rows, but for what is wanted and what a keeper is
/// asked.
pub fn tables(alloc: Global, case: &Case) -> Result<Tables, Fail> {
    let mut tables = Tables {
        clerks: Room::new(alloc),
        schemas: Room::new(alloc),
        masters: Room::new(alloc),
        rulebooks: Room::new(alloc),
        editions: Room::new(alloc),
        regions: Room::new(alloc),
        sessions: Room::new(alloc),
        records: Room::new(alloc),
        batches: Room::new(alloc),
    };
    match fill(alloc, &mut tables, case) {
        Ok(()) => Ok(tables),
        Err(fail) => {
            drop(tables);
            Err(fail)
        }
    }
}

/// Puts each row of a case into its table.
fn fill(alloc: Global, tables: &mut Tables, case: &Case) -> Result<(), Fail> {
    for part in &case.parts {
        let Ok(line) = std::str::from_utf8(part.content.as_slice()) else {
            return Err(Fail::new("a row is no text"));
        };
        row(alloc, tables, part.name.as_str(), line)?;
    }
    Ok(())
}

fn row(alloc: Global, tables: &mut Tables, table: &str, line: &str) -> Result<(), Fail> {
    match table {
        "clerk" => clerk(alloc, tables, line),
        "schema" => Ok(tables.schemas.push(text_row(alloc, line)?)?),
        "master" => Ok(tables.masters.push(text_row(alloc, line)?)?),
        "rulebook" => rulebook(alloc, tables, line),
        "edition" => edition(alloc, tables, line),
        "region" => region(alloc, tables, line),
        "wanted" | "fails" | "calls" | "made" | "failed" => Ok(()),
        _ => own_row(alloc, tables, table, line),
    }
}

/// A row of the clerks, with its lists.
fn clerk(alloc: Global, tables: &mut Tables, line: &str) -> Result<(), Fail> {
    tables.clerks.push(clerk_row(alloc, line)?)?;
    tables.sessions.push(Room::new(alloc))?;
    tables.records.push(Room::new(alloc))?;
    tables.batches.push(Room::new(alloc))?;
    Ok(())
}

/// Name, number, act, target, and the byte that the digest repeats.
fn clerk_row(alloc: Global, line: &str) -> Result<ClerkRow, Fail> {
    let (name, line) = field(line)?;
    let (last, line) = field(line)?;
    let (done, line) = field(line)?;
    let (target, byte) = field(line)?;
    let (Ok(last), Ok(byte)) = (last.parse(), byte.parse()) else {
        return Err(Fail::new("a clerk has a field that is no number"));
    };
    let (act, target) = (act(done)?, number(target)?);
    let name = text(alloc, name)?;
    Ok(ClerkRow {
        name,
        last,
        digest: Digest { bytes: [byte; 32] },
        act,
        target,
    })
}

/// Name, version and body: a schema or a master.
fn text_row(alloc: Global, line: &str) -> Result<TextRow, Fail> {
    let (name, line) = field(line)?;
    let (version, rest) = field(line)?;
    let version = number(version)?;
    Ok(TextRow {
        name: text(alloc, name)?,
        version,
        body: body(alloc, rest)?,
    })
}

/// Name, version, schema and body.
fn rulebook(alloc: Global, tables: &mut Tables, line: &str) -> Result<(), Fail> {
    let (name, line) = field(line)?;
    let (version, line) = field(line)?;
    let (schema, rest) = field(line)?;
    let (version, schema) = (number(version)?, number(schema)?);
    let row = RulebookRow {
        name: text(alloc, name)?,
        version,
        schema,
        body: body(alloc, rest)?,
    };
    tables.rulebooks.push(row)?;
    Ok(())
}

/// Name, version, rulebook, masters and folded attributes.
fn edition(alloc: Global, tables: &mut Tables, line: &str) -> Result<(), Fail> {
    let (name, line) = field(line)?;
    let (version, line) = field(line)?;
    let (rulebook, line) = field(line)?;
    let (masters, folded) = field(line)?;
    let (version, rulebook) = (number(version)?, number(rulebook)?);
    let row = EditionRow {
        name: text(alloc, name)?,
        version,
        rulebook,
        masters: numbers(alloc, masters)?,
        folded: attributes(alloc, folded)?,
    };
    tables.editions.push(row)?;
    Ok(())
}

/// Edition, attributes, and rows of texts with `|` between.
fn region(alloc: Global, tables: &mut Tables, line: &str) -> Result<(), Fail> {
    let (edition, line) = field(line)?;
    let (attrs, tableau) = field(line)?;
    let edition = number(edition)?;
    let region = Region {
        attrs: attributes(alloc, attrs)?,
        rows: tableau_of(alloc, tableau)?,
    };
    tables.regions.push(RegionRow { edition, region })?;
    Ok(())
}

fn tableau_of(alloc: Global, tableau: &str) -> Result<List<List<Text>>, Fail> {
    let mut rows = List::new(alloc);
    for row in tableau.split("|") {
        rows.push(texts(alloc, row)?)?;
    }
    Ok(rows)
}
