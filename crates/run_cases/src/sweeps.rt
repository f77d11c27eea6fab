//! The script, cut off after each of its first bytes, and over links of which each call fails in turn.
use crate::streams::alone;
use desk_cases::{Answer, Case};
use desk_trials::{Call, End, Script, Table, Told, fresh, leave, serve, shown, words_of};
use keeper_core::MemKeeper;
use std::alloc::Global;
use std::test::Fail;

/// The most calls that are tried.
const MOST: usize = 10_000;

/// What the script is answered that ends after each of its first bytes: the status, and how many responses are written.
pub fn each_end(script: &Script, case: &Case, answer: &mut Answer) -> Result<(), Fail> {
    let most = count(case, "bytes")?;
    let bytes = script.first(answer.alloc(), script.len())?;
    let mut table = Table::new(answer.alloc());
    tell_ends(answer.alloc(), script, bytes.as_slice(), most, &mut table)?;
    add_table(table, answer)
}

fn tell_ends(
    alloc: Global,
    script: &Script,
    bytes: &[u8],
    most: usize,
    table: &mut Table,
) -> Result<(), Fail> {
    for taken in 0..=most.min(bytes.len()) {
        let front = bytes.get(..taken).unwrap_or(&[]);
        table.add(alloc, taken, answered(alloc, script, front)?)?;
    }
    Ok(())
}

/// What these bytes are answered by an empty desk.
fn answered(alloc: Global, script: &Script, bytes: &[u8]) -> Result<String, Fail> {
    let told = alone(alloc, b"pipe", bytes)?;
    ended(alloc, script, &told)
}

/// What the script is answered where one read fails: the first, the second, and so on to the first that is not made.
pub fn each_read_fails(script: &Script, case: &Case, answer: &mut Answer) -> Result<(), Fail> {
    each_fails(End::Source, script.len(), script, case, answer)
}

/// What the script's first requests are answered where one write fails: the first, the second, and so on to the first
/// that is not made.
pub fn each_write_fails(script: &Script, case: &Case, answer: &mut Answer) -> Result<(), Fail> {
    each_fails(End::Sink, count(case, "requests")?, script, case, answer)
}

/// What the script's first so many requests are answered where one call of an end of the link fails.
fn each_fails(
    end: End,
    requests: usize,
    script: &Script,
    case: &Case,
    answer: &mut Answer,
) -> Result<(), Fail> {
    let words = words_of(answer.alloc(), b"pipe")?;
    let requests = script.first(answer.alloc(), requests)?;
    let mut call = Call::new(words.as_slice(), requests.as_slice());
    call.cut = case.cut();
    add_lines(end, script, &mut call, answer)
}

fn add_lines(
    end: End,
    script: &Script,
    call: &mut Call<'_>,
    answer: &mut Answer,
) -> Result<(), Fail> {
    let mut table = Table::new(answer.alloc());
    tell_lines(answer.alloc(), end, script, call, &mut table)?;
    add_table(table, answer)
}

fn tell_lines(
    alloc: Global,
    end: End,
    script: &Script,
    call: &mut Call<'_>,
    table: &mut Table,
) -> Result<(), Fail> {
    for number in 1..MOST {
        call.fails = Some((end, number as u64));
        let (line, is_last) = line(alloc, end, script, call)?;
        table.add(alloc, number, line)?;
        if is_last {
            return Ok(());
        }
    }
    Err(Fail::new("each call of many fails"))
}

/// What is told of a call in which a call of this end fails, and whether none failed.
fn line(alloc: Global, end: End, script: &Script, call: &Call<'_>) -> Result<(String, bool), Fail> {
    let mut keeper = fresh(alloc)?;
    line_over(alloc, end, script, call, &mut keeper)
}

fn line_over(
    alloc: Global,
    end: End,
    script: &Script,
    call: &Call<'_>,
    keeper: &mut MemKeeper,
) -> Result<(String, bool), Fail> {
    let told = call.make(alloc, keeper)?;
    let line = line_of(alloc, end, script, keeper, &told);
    Ok((line?, told.status == 0))
}

fn line_of(
    alloc: Global,
    end: End,
    script: &Script,
    keeper: &mut MemKeeper,
    told: &Told,
) -> Result<String, Fail> {
    let whole = whole_of(script, told);
    match end {
        End::Source => {
            let same = is_left(alloc, script, keeper, whole)?;
            taken(alloc, script, told, same)
        }
        End::Sink => {
            let same = is_answered_again(alloc, script, keeper, whole)?;
            written(alloc, script, told, same)
        }
    }
}

/// How many responses were written in full, none where something else was.
fn whole_of(script: &Script, told: &Told) -> usize {
    match script.progress(told.output.as_slice()) {
        Some((whole, _)) => whole,
        None => 0,
    }
}

/// The status, and how many responses were written, where nothing else was.
fn ended(alloc: Global, script: &Script, told: &Told) -> Result<String, Fail> {
    let status = told.status;
    match script.progress(told.output.as_slice()) {
        Some((whole, 0)) => Ok(format!(in alloc; "{status} {whole}")?),
        _ => Ok(format!(in alloc; "{status} otherwise")?),
    }
}

/// The same, and whether the tables are those that so many requests leave.
fn taken(alloc: Global, script: &Script, told: &Told, same: bool) -> Result<String, Fail> {
    let mut line = ended(alloc, script, told)?;
    let same = yes_or_no(same);
    write!(line, " {same}")?;
    Ok(line)
}

/// Whether the tables are those that so many requests leave.
fn is_left(
    alloc: Global,
    script: &Script,
    keeper: &mut MemKeeper,
    whole: usize,
) -> Result<bool, Fail> {
    let found = shown(alloc, keeper)?;
    let requests = script.first(alloc, whole)?;
    leave(alloc, requests.as_slice(), found.as_str())
}

/// The status, how many responses were written in full, and how many bytes of the next. Where a write failed, also
/// whether the request of that one is answered as in the script when it is sent again in a stream of its own.
fn written(alloc: Global, script: &Script, told: &Told, same: bool) -> Result<String, Fail> {
    let status = told.status;
    let Some((whole, bytes)) = script.progress(told.output.as_slice()) else {
        return Ok(format!(in alloc; "{status} otherwise")?);
    };
    if status == 0 {
        return Ok(format!(in alloc; "{status} {whole} {bytes}")?);
    }
    let same = yes_or_no(same);
    Ok(format!(in alloc; "{status} {whole} {bytes} {same}")?)
}

/// Whether the request at a place of the script, counted from 0, is answered as in the script, in a stream of its own.
fn is_answered_again(
    alloc: Global,
    script: &Script,
    keeper: &mut MemKeeper,
    place: usize,
) -> Result<bool, Fail> {
    let Some((request, response)) = script.at(place) else {
        return Ok(false);
    };
    let told = serve(alloc, keeper, request)?;
    Ok(told.status == 0 && told.output.as_slice() == response)
}

fn yes_or_no(holds: bool) -> &'static str {
    if holds { "yes" } else { "no" }
}

/// The number of a part that has to be there.
fn count(case: &Case, name: &str) -> Result<usize, Fail> {
    match case.number(name) {
        Some(number) => Ok(usize::try_from(number).unwrap_or(usize::MAX)),
        None => Err(Fail::new("a sweep does not say how far it goes")),
    }
}

fn add_table(table: Table, answer: &mut Answer) -> Result<(), Fail> {
    let lines = table.finish(answer.alloc())?;
    answer.text("wanted", lines.as_str())
}
