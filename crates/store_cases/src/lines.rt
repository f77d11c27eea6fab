//! Rows of the SQL table as lines of a case: kind, owner, place, and the body in hexadecimal digits.
ghost use Rattle.std.specs.Prelude.{◌<◌, IfOk};

use desk_base::List;
use desk_packing::PackedRow;
use std::alloc::{AllocError, Global};
use std::test::Fail;

/// The rows that the lines of a text are.
pub fn rows_in(alloc: Global, text: &str) -> Result<List<PackedRow>, Fail> {
    let mut rows = List::new(alloc);
    for line in text.lines() {
        rows.push(row_in(alloc, line)?)?;
    }
    Ok(rows)
}

/// The lines that rows are.
pub fn lines_of(alloc: Global, rows: &[PackedRow]) -> Result<String, Fail> {
    let mut lines = String::new(alloc);
    tell_rows(&mut lines, rows)?;
    Ok(lines)
}

fn row_in(alloc: Global, line: &str) -> Result<PackedRow, Fail> {
    let (kind, rest) = field(line)?;
    let (owner, rest) = field(rest)?;
    let (place, digits) = field(rest)?;
    let (kind, owner, place) = (number(kind)?, number(owner)?, number(place)?);
    let body = bytes_in(alloc, digits)?;
    Ok(PackedRow {
        kind,
        owner,
        place,
        body,
    })
}

/// The first field, and what stands after it.
fn field(line: &str) -> Result<(&str, &str), Fail> {
    match line.split_once(" ") {
        Some(parts) => Ok(parts),
        None => Err(Fail::new("a line has too few fields")),
    }
}

fn number(field: &str) -> Result<u32, Fail> {
    match field.parse() {
        Ok(number) => Ok(number),
        Err(_) => Err(Fail::new("a line has a field that is no number")),
    }
}

/// The bytes that pairs of digits are.
fn bytes_in(alloc: Global, digits: &str) -> Result<List<u8>, Fail> {
    let mut bytes = List::new(alloc);
    for pair in digits.as_bytes().chunks(2) {
        bytes.push(byte_in(pair)?)?;
    }
    Ok(bytes)
}

fn byte_in(pair: &[u8]) -> Result<u8, Fail> {
    match pair {
        [high, low] => Ok(digit(*high)? * 16 + digit(*low)?),
        _ => Err(Fail::new("a body has half a byte")),
    }
}

fn digit(byte: u8) -> Result<u8, Fail>
    ensures { IfOk result (λ value. value < 16) }
{
    match byte {
        b'0'..=b'9' => Ok(byte - b'0'),
        b'a'..=b'f' => Ok(byte - b'a' + 10),
        _ => Err(Fail::new("a body has a digit that is none")),
    }
}

fn tell_rows(lines: &mut String, rows: &[PackedRow]) -> Result<(), AllocError> {
    for row in rows {
        let (kind, owner, place) = (row.kind, row.owner, row.place);
        write!(lines, "{kind} {owner} {place} ")?;
        for byte in row.body.as_slice() {
            write!(lines, "{byte:02x}")?;
        }
        lines.push_str("\n")?;
    }
    Ok(())
}
