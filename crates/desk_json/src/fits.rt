//! How it is shown what a proposal that fits would be made to, with the notes on it.
ghost use Rattle.std.specs.Prelude.{◌≡◌, ◌++◌, ℕ, List, map, IfOk, OnOk};
ghost use Rattle.serde_json.specs.Data.{Data, string};
ghost use Rattle.serde_json.specs.Written.{compact_text};
ghost use Rattle.json_parts.specs.Shapes.{list_of, members_from};
ghost use Rattle.json_parts.specs.Writing.{with_members, with_value};
ghost use Rattle.desk_json.specs.Fits.{edition_fits, fits_shown, master_fits, noted, rulebook_fits, schema_fits};

use crate::shown::{field, show_all};
use desk_base::{List, NoMemory, Str, Text};
use desk_words::{Fits, Kind};
use json_parts::JsonText;
use std::alloc::{AllocError, Global};

/// The text of what a proposal would be made to, with the notes on it where there are any.
pub fn fits_text(alloc: Global, fits: &Fits, notes: &[Str]) -> Result<List<u8>, NoMemory>
    ensures { IfOk result (λ text. text ≡ compact_text (fits_shown fits.now notes.now)) }
{
    let mut out = JsonText::new(alloc)?;
    show_fits(&mut out, fits, notes)?;
    Ok(out.into_bytes())
}

fn show_fits(out: &mut JsonText, fits: &Fits, notes: &[Str]) -> Result<(), AllocError>
    ensures { OnOk result (out.new ≡ with_value out.old (fits_shown fits.now notes.now)) }
{
    match fits {
        Fits::Schema {
            name,
            version,
            attributes,
        } => show_schema(out, name, *version, attributes, notes),
        Fits::Master {
            name,
            version,
            columns,
            rows,
        } => show_master(out, name, *version, columns, *rows, notes),
        Fits::Rulebook {
            name,
            version,
            rules,
        } => show_rulebook(out, name, *version, rules, notes),
        Fits::Edition {
            name,
            version,
            entries,
        } => show_edition(out, name, *version, *entries, notes),
    }
}

/// The key `notes`, where there are any.
fn show_notes(out: &mut JsonText, notes: &[Str]) -> Result<(), AllocError>
    ensures { OnOk result ((others : List (List ℕ × Data)) → with_members out.new (members_from others)
        ≡ with_members out.old (members_from (noted notes.now ++ others))) }
{
    if notes.is_empty() {
        return Ok(());
    }
    out.key("notes")?;
    show_all(out, notes)
}

/// A version of a schema, with its attributes.
fn show_schema(
    out: &mut JsonText,
    name: &Text,
    version: u32,
    attributes: &List<Text>,
    notes: &[Str],
) -> Result<(), AllocError>
    ensures { OnOk result (out.new ≡ with_value out.old (schema_fits name.now version attributes.now notes.now)) }
{
    out.begin_object()?;
    field(out, "attributes", attributes)?;
    field(out, "fits", &Kind::Schema)?;
    field(out, "name", name)?;
    show_notes(out, notes)?;
    field(out, "version", &version)?;
    out.end_object()
}

/// A version of a master, with its columns, and how many rows it has.
fn show_master(
    out: &mut JsonText,
    name: &Text,
    version: u32,
    columns: &List<Text>,
    rows: u64,
    notes: &[Str],
) -> Result<(), AllocError>
    ensures { OnOk result (out.new ≡ with_value out.old (master_fits name.now version columns.now rows notes.now)) }
{
    out.begin_object()?;
    field(out, "columns", columns)?;
    field(out, "fits", &Kind::Master)?;
    field(out, "name", name)?;
    show_notes(out, notes)?;
    field(out, "rows", &rows)?;
    field(out, "version", &version)?;
    out.end_object()
}

/// A version of a rulebook, with the names of its rules.
fn show_rulebook(
    out: &mut JsonText,
    name: &Text,
    version: u32,
    rules: &List<Text>,
    notes: &[Str],
) -> Result<(), AllocError>
    ensures { OnOk result (out.new ≡ with_value out.old (rulebook_fits name.now version rules.now notes.now)) }
{
    out.begin_object()?;
    field(out, "fits", &Kind::Rulebook)?;
    field(out, "name", name)?;
    show_notes(out, notes)?;
    field(out, "rules", rules)?;
    field(out, "version", &version)?;
    out.end_object()
}

/// A version of an edition, with how many entries its index would have.
fn show_edition(
    out: &mut JsonText,
    name: &Text,
    version: u32,
    entries: u64,
    notes: &[Str],
) -> Result<(), AllocError>
    ensures { OnOk result (out.new ≡ with_value out.old (edition_fits name.now version entries notes.now)) }
{
    out.begin_object()?;
    field(out, "entries", &entries)?;
    field(out, "fits", &Kind::Edition)?;
    field(out, "name", name)?;
    show_notes(out, notes)?;
    field(out, "version", &version)?;
    out.end_object()
}
