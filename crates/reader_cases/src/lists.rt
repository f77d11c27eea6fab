//! Lists, rooms, grids, counts, and the adapters over std.
use crate::base::read;
use desk_base::{
    Both, Duplicate, Grid, List, Room, StdSink, StdSource, Steps, Str, Text, TextList,
    are_distinct, flags_of, has_text, place_of, write_all,
};
use desk_cases::{Answer, Case};
use std::alloc::{AllocError, Global};
use std::test::Fail;

/// The texts of a part, which stand with spaces between.
fn texts(alloc: Global, case: &Case, name: &str) -> Result<List<Text>, Fail> {
    let mut texts = List::new(alloc);
    push_texts(&mut texts, case.text(name).unwrap_or(""), alloc)?;
    Ok(texts)
}

fn push_texts(texts: &mut List<Text>, words: &str, alloc: Global) -> Result<(), Fail> {
    for word in words.split_whitespace() {
        match Text::new(alloc, word.as_bytes()) {
            Ok(text) => texts.push(text)?,
            Err(_) => return Err(Fail::new("a case has a text that is none")),
        }
    }
    Ok(())
}

/// Where a text stands among others, whether it does, and whether no two of them are equal; and the flags of places.
pub fn places(case: &Case, answer: &mut Answer) -> Result<(), Fail> {
    add_places(case, answer)?;
    add_flags(case, answer)
}

fn add_places(case: &Case, answer: &mut Answer) -> Result<(), Fail> {
    let texts = texts(answer.alloc(), case, "texts")?;
    tell_place(texts.as_slice(), case.text("sought").unwrap_or(""), answer)
}

fn tell_place(texts: &[Text], sought: &str, answer: &mut Answer) -> Result<(), Fail> {
    answer.shown("place", &place_of(texts, sought))?;
    answer.truth("there", has_text(texts, sought))?;
    answer.truth("distinct", are_distinct(texts))
}

fn add_flags(case: &Case, answer: &mut Answer) -> Result<(), Fail> {
    let mut listed = Vec::new(answer.alloc());
    push_places(&mut listed, case, answer.alloc())?;
    let flags = flags_of(answer.alloc(), 4, listed.as_slice())?;
    answer.shown("flags", &flags.as_slice())
}

fn push_places(listed: &mut Vec<u16>, case: &Case, alloc: Global) -> Result<(), Fail> {
    for number in &case.numbers(alloc, "listed")? {
        listed.push(u16::try_from(*number).unwrap_or(u16::MAX))?;
    }
    Ok(())
}

/// The copies of a list and of a room of the numbers. In the list the first is set to 7; in the room the last goes to a
/// reserved place, and a lent slot makes the first 9.
pub fn list(case: &Case, answer: &mut Answer) -> Result<(), Fail> {
    let numbers = case.numbers(answer.alloc(), "numbers")?;
    add_copies(numbers.as_slice(), answer)
}

fn add_copies(numbers: &[u64], answer: &mut Answer) -> Result<(), Fail> {
    let Some((last, front)) = numbers.split_last() else {
        return Err(Fail::new("a case has no numbers"));
    };
    add_list(front, *last, answer)?;
    add_room(front, *last, answer)
}

fn add_list(front: &[u64], last: u64, answer: &mut Answer) -> Result<(), Fail> {
    let mut list = List::new(answer.alloc());
    for number in front {
        list.push(*number)?;
    }
    list.push(last)?;
    list.set(0, 7);
    let copy = list.copy()?.into_vec();
    answer.shown("list", &copy.as_slice())
}

fn add_room(front: &[u64], last: u64, answer: &mut Answer) -> Result<(), Fail> {
    let mut room = Room::new(answer.alloc());
    for number in front {
        room.push((*number, true))?;
    }
    room.reserve(1)?;
    room.push_reserved((last, false));
    *room.slot(0) = (9, false);
    let copy = room.copy()?.into_vec();
    answer.shown("room", &copy.as_slice())
}

/// The cells of a grid of two columns, from its cells at once, each as its row, its column and its text; and how often
/// its first column was looked at and compared.
pub fn grid(case: &Case, answer: &mut Answer) -> Result<(), Fail> {
    let cells = in_one_block(&texts(answer.alloc(), case, "cells")?)?;
    let rows = cells.len() / 2;
    if cells.len() != 2 * rows || rows > 20_000 {
        return Err(Fail::new("the cells of a case are no rows of two"));
    }
    add_grid(&Grid::from_cells(2, rows as u32, cells), answer)
}

/// The same texts, one after another in one block.
fn in_one_block(texts: &List<Text>) -> Result<TextList, Fail> {
    let mut list = TextList::new(texts.allocator());
    for text in texts.as_slice() {
        list.push(text.as_str())?;
    }
    Ok(list)
}

fn add_grid(grid: &Grid, answer: &mut Answer) -> Result<(), Fail> {
    let mut lines = String::new(answer.alloc());
    let steps = tell_cells(&mut lines, grid)?;
    answer.text("wanted", lines.as_str())?;
    add_counts(&steps, answer)
}

fn tell_cells(lines: &mut String, grid: &Grid) -> Result<Steps<()>, AllocError> {
    let mut steps = Steps::new(());
    for row in 0..grid.rows() {
        for column in 0..grid.columns() {
            let text = grid.cell(row, column);
            writeln!(lines, "{row} {column} {text}")?;
            steps.compare();
        }
        steps.look();
    }
    Ok(steps)
}

fn add_counts(steps: &Steps<()>, answer: &mut Answer) -> Result<(), Fail> {
    let counts = format!(in answer.alloc(); "{} {}", steps.looks(), steps.compares())?;
    answer.text("counts", counts.as_str())
}

/// What the adapters over std read of the bytes, by calls of 4 bytes, and what is written through them.
pub fn adapter(case: &Case, answer: &mut Answer) -> Result<(), Fail> {
    let bytes = case.bytes("bytes")?;
    add_link(bytes, answer)?;
    let copy = Str::new(answer.alloc(), case.text("bytes").unwrap_or(""))?.copy()?;
    answer.text("copy", copy.as_str())
}

fn add_link(bytes: &[u8], answer: &mut Answer) -> Result<(), Fail> {
    let mut given = Vec::new(answer.alloc());
    let mut kept = Vec::new(answer.alloc());
    let is_whole = pass(bytes, &mut given, &mut kept)?;
    answer.bytes("read", given.as_slice())?;
    answer.truth("whole", is_whole)?;
    answer.bytes("written", kept.as_slice())
}

/// Reads the bytes, writes them, and tells whether all were written.
fn pass(bytes: &[u8], given: &mut Vec<u8>, kept: &mut Vec<u8>) -> Result<bool, Fail> {
    let mut link = Both {
        source: StdSource::new(bytes),
        sink: StdSink::new(kept),
    };
    read(&mut link, 4, given)?;
    Ok(write_all(&mut link, bytes).is_ok())
}
