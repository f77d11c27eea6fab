//! What stands in tables, as texts.
use desk_base::{Room, Text};
use desk_words::{SessionRow, Tables};
use std::alloc::AllocError;

/// How many rows each table has, in the order of the tables, with a space between.
pub fn tell_counts(text: &mut String, tables: &Tables) -> Result<(), AllocError> {
    let (clerks, schemas) = (tables.clerks.len(), tables.schemas.len());
    let (masters, rulebooks) = (tables.masters.len(), tables.rulebooks.len());
    let (editions, regions) = (tables.editions.len(), tables.regions.len());
    let sessions = own_count(tables.sessions.as_slice());
    let records = own_count(tables.records.as_slice());
    let batches = own_count(tables.batches.as_slice());
    write!(
        text,
        "{clerks} {schemas} {masters} {rulebooks} {editions} {regions}"
    )?;
    write!(text, " {sessions} {records} {batches}")
}

/// How many rows all clerks have together.
fn own_count<T>(lists: &[Room<T>]) -> usize {
    let mut count: usize = 0;
    for list in lists {
        count = count.saturating_add(list.len());
    }
    count
}

/// A line for each session of each clerk: the clerk, the place of the edition, texts, flags, stage and batch.
pub fn tell_sessions(lines: &mut String, tables: &Tables) -> Result<(), AllocError> {
    let clerks = tables.clerks.as_slice().iter();
    for (clerk, list) in clerks.zip(tables.sessions.as_slice()) {
        tell_own(lines, clerk.name.as_str(), list.as_slice())?;
    }
    Ok(())
}

fn tell_own(lines: &mut String, clerk: &str, rows: &[SessionRow]) -> Result<(), AllocError> {
    for row in rows {
        let (edition, batch, stage) = (row.edition, row.batch, row.stage.word());
        write!(lines, "{clerk} {edition} ")?;
        tell_texts(lines, row.typed.as_slice())?;
        lines.push_str(" ")?;
        tell_flags(lines, row.confirmed.as_slice())?;
        writeln!(lines, " {stage} {batch}")?;
    }
    Ok(())
}

/// Texts with commas between.
fn tell_texts(line: &mut String, items: &[Text]) -> Result<(), AllocError> {
    for (place, text) in items.iter().enumerate() {
        if place > 0 {
            line.push_str(",")?;
        }
        line.push_str(text.as_str())?;
    }
    Ok(())
}

/// Flags, `y` or `n` each.
fn tell_flags(line: &mut String, items: &[bool]) -> Result<(), AllocError> {
    for flag in items {
        line.push_str(if *flag { "y" } else { "n" })?;
    }
    Ok(())
}
