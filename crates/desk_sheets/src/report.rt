//! The text of a report.
ghost use Rattle.std.specs.Prelude.{◌≡◌, ◌++◌, flat_map, IfOk, OnOk};
ghost use Rattle.desk_sheets.specs.Report.{edition_line, numbers_of, report_text, spaced, title, total_line};

use desk_base::{List, NoMemory, Text};
use desk_words::{ReportLine, ReportSheet};
use std::alloc::Global;

const HEADING: &[u8] =
    b"edition version sessions active committed abandoned certain partial conflict confirmed fixed uncovered\n";

/// The text of a report: whose sessions they are, a heading, a line for each edition and the sum of the sessions
/// (docs/formats.md, *Reports and records*).
pub fn report_text(alloc: Global, sheet: &ReportSheet) -> Result<List<u8>, NoMemory>
    ensures { IfOk result (λ text. text ≡ report_text sheet.now) }
{
    let mut text = Vec::new(alloc);
    push_title(&mut text, &sheet.clerk)?;
    text.extend_from_slice(HEADING)?;
    push_lines(&mut text, sheet.lines.as_slice())?;
    push_total(&mut text, sheet.total)?;
    Ok(List::from_vec(text))
}

/// Puts the first line after a text: a clerk's name, or that these are the sessions of all.
fn push_title(text: &mut Vec<u8>, clerk: &Option<Text>) -> Result<(), NoMemory>
    ensures { OnOk result (text.new.items ≡ text.old.items ++ title clerk.now) }
{
    match clerk {
        None => text.extend_from_slice(b"desk\n")?,
        Some(clerk) => {
            text.extend_from_slice(b"clerk ")?;
            text.extend_from_slice(clerk.as_str().as_bytes())?;
            text.push(b'\n')?;
        }
    }
    Ok(())
}

fn push_lines(text: &mut Vec<u8>, lines: &[ReportLine]) -> Result<(), NoMemory>
    ensures { OnOk result (text.new.items ≡ text.old.items ++ flat_map edition_line lines.now) }
{
    'lines: for line in lines {
        push_line(text, line)?;
    }
    Ok(())
}

/// Puts the line of an edition after a text.
fn push_line(text: &mut Vec<u8>, line: &ReportLine) -> Result<(), NoMemory>
    ensures { OnOk result (text.new.items ≡ text.old.items ++ edition_line line.now) }
{
    text.extend_from_slice(line.edition.as_str().as_bytes())?;
    push_numbers(text, &numbers_of(line))?;
    text.push(b'\n')?;
    Ok(())
}

/// The numbers of an edition, in the order of the heading.
fn numbers_of(line: &ReportLine) -> [u64; 11]
    ensures { result ≡ numbers_of line.now }
{
    [
        u64::from(line.version),
        line.sessions,
        line.active,
        line.committed,
        line.abandoned,
        line.certain,
        line.partial,
        line.conflict,
        line.confirmed,
        line.fixed,
        line.uncovered,
    ]
}

fn push_numbers(text: &mut Vec<u8>, numbers: &[u64]) -> Result<(), NoMemory>
    ensures { OnOk result (text.new.items ≡ text.old.items ++ flat_map spaced numbers.now) }
{
    'numbers: for number in numbers {
        push_number(text, *number)?;
    }
    Ok(())
}

/// Puts a space and a number after a text.
fn push_number(text: &mut Vec<u8>, number: u64) -> Result<(), NoMemory>
    ensures { OnOk result (text.new.items ≡ text.old.items ++ spaced number) }
{
    let digits = number.to_string(*text.allocator())?;
    text.push(b' ')?;
    text.extend_from_slice(digits.as_str().as_bytes())?;
    Ok(())
}

/// Puts the sum of the sessions after a text.
fn push_total(text: &mut Vec<u8>, total: u64) -> Result<(), NoMemory>
    ensures { OnOk result (text.new.items ≡ text.old.items ++ total_line total) }
{
    text.extend_from_slice(b"total")?;
    push_number(text, total)?;
    text.push(b'\n')?;
    Ok(())
}
