//! The texts that are read: a schema of eight attributes, a sheet of eight columns, and rules over both.
use std::alloc::{AllocError, Global};

/// The schema of the records.
pub const SCHEMA: &[u8] =
    b"name = \"wide\"\nattributes = [\"a0\", \"a1\", \"a2\", \"a3\", \"a4\", \"a5\", \"a6\", \"a7\"]";

/// The header of the sheet.
const HEADER: &str = "c0,c1,c2,c3,c4,c5,c6,c7\n";

/// A sheet of so many rows. No text in it stands twice.
pub fn sheet_text(alloc: Global, rows: u32) -> Result<String, AllocError> {
    let mut text = String::from_str(alloc, HEADER)?;
    for row in 0..rows {
        writeln!(
            text,
            "a{row},b{row},c{row},d{row},e{row},f{row},g{row},h{row}"
        )?;
    }
    Ok(text)
}

/// A sheet of so many rows of which each two that follow one another have the same text in the first column. No other
/// text in it stands twice.
pub fn paired_text(alloc: Global, rows: u32) -> Result<String, AllocError> {
    let mut text = String::from_str(alloc, HEADER)?;
    for row in 0..rows {
        let pair = row / 2;
        writeln!(
            text,
            "a{pair},b{row},c{row},d{row},e{row},f{row},g{row},h{row}"
        )?;
    }
    Ok(text)
}

/// So many rules, each of which fixes one attribute by another. The first 56 look up another triple each.
pub fn rules_text(alloc: Global, rules: u32) -> Result<String, AllocError> {
    let mut text = String::new(alloc);
    for rule in 0..rules {
        let key = rule % 8;
        let head = (key + 1 + rule / 8 % 7) % 8;
        writeln!(
            text,
            "rule r{rule} from m: a{key} = c{key} -> a{head} = c{head};"
        )?;
    }
    Ok(text)
}
