//! Texts, words, and streams in memory.
use desk_base::{List, MemSink, MemSource, Source, Text, TextFault, is_name, is_word, write_all};
use desk_cases::{Answer, Case};
use std::alloc::Global;
use std::test::Fail;

/// The text that the bytes are, and whether it is blank; or why they are none.
pub fn text(case: &Case, answer: &mut Answer) -> Result<(), Fail> {
    match Text::new(answer.alloc(), case.bytes("bytes")?) {
        Ok(text) => add_text(&text, answer),
        Err(TextFault::NoMemory) => Err(Fail::new("there was no memory")),
        Err(fault) => answer.shown("wanted", &fault),
    }
}

fn add_text(text: &Text, answer: &mut Answer) -> Result<(), Fail> {
    answer.text("wanted", text.as_str())?;
    answer.truth("blank", text.is_blank())
}

/// Whether the text is a name, and whether it is a word.
pub fn word(case: &Case, answer: &mut Answer) -> Result<(), Fail> {
    let text = case.bytes("text")?;
    answer.truth("name", is_name(text))?;
    answer.truth("word", is_word(text))
}

/// What so many reads of a source give, and how many of them fail.
pub fn source(case: &Case, answer: &mut Answer) -> Result<(), Fail> {
    let calls = size(case, "calls")?;
    let mut source = source_of(answer.alloc(), case)?;
    add_reads(&mut source, calls, answer)
}

fn source_of(alloc: Global, case: &Case) -> Result<MemSource, Fail> {
    let cut = size(case, "cut")?.max(1);
    let fails = List::from_vec(case.numbers(alloc, "fails")?);
    let bytes = List::from_vec(Vec::from_slice(alloc, b"abcdef")?);
    Ok(MemSource::new(bytes, cut, fails))
}

fn add_reads(source: &mut MemSource, calls: usize, answer: &mut Answer) -> Result<(), Fail> {
    let mut given = Vec::new(answer.alloc());
    let faults = read(source, calls, &mut given)?;
    answer.bytes("wanted", given.as_slice())?;
    answer.number("faults", faults)
}

/// Takes what so many calls of 4 bytes give, and counts those that fail.
pub fn read<S: Source>(source: &mut S, calls: usize, given: &mut Vec<u8>) -> Result<u64, Fail> {
    let mut faults: u64 = 0;
    for _ in 0..calls {
        let mut buffer = [0u8; 4];
        match source.read(&mut buffer) {
            Ok(count) => given.extend_from_slice(&buffer[..count])?,
            Err(_) => faults = faults.saturating_add(1),
        }
    }
    Ok(faults)
}

/// What a sink holds after a text was written to it, and whether all of it was taken.
pub fn sink(case: &Case, answer: &mut Answer) -> Result<(), Fail> {
    let mut sink = sink_of(answer.alloc(), case)?;
    let is_whole = write_all(&mut sink, b"abcdef").is_ok();
    add_sink(&sink, is_whole, answer)
}

fn sink_of(alloc: Global, case: &Case) -> Result<MemSink, Fail> {
    let (cut, room) = (size(case, "cut")?.max(1), size(case, "room")?);
    let fails = List::from_vec(case.numbers(alloc, "fails")?);
    Ok(MemSink::new(alloc, cut, room, fails)?)
}

fn add_sink(sink: &MemSink, is_whole: bool, answer: &mut Answer) -> Result<(), Fail> {
    answer.bytes("wanted", sink.bytes())?;
    answer.truth("whole", is_whole)
}

/// A number of a case.
fn size(case: &Case, name: &str) -> Result<usize, Fail> {
    match case.number(name) {
        Some(number) => Ok(number as usize),
        None => Err(Fail::new("a case has no number where one is wanted")),
    }
}
