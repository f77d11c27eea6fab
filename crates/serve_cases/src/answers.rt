//! What calls left, as parts of an answer.
use desk_base::MemLink;
use desk_cases::{Answer, Case};
use desk_trials::add_word;
use std::test::Fail;

/// Adds the status, what was said and how many links were handed out, `none` where the door was not bound, each unless
/// it was told so before.
pub fn add_end(
    status: u8,
    said: &[u8],
    accepted: Option<u32>,
    answer: &mut Answer,
) -> Result<(), Fail> {
    answer.number_once("status", u64::from(status))?;
    answer.bytes_once("said", said)?;
    match accepted {
        Some(count) => answer.number_once("accepted", u64::from(count)),
        None => answer.bytes_once("accepted", b"none"),
    }
}

/// Adds for each closed link the name of the part that it was written, or else the bytes themselves.
pub fn add_answers(case: &Case, closed: &[MemLink], answer: &mut Answer) -> Result<(), Fail> {
    let mut names = Vec::new(answer.alloc());
    for link in closed {
        add_word(&mut names, name_of(case, link.sink.bytes()))?;
    }
    answer.bytes("answers", names.as_slice())
}

/// The name of the first part of a case with these bytes, and `nothing` for none; else the bytes.
fn name_of<'a>(case: &'a Case, bytes: &'a [u8]) -> &'a [u8] {
    if bytes.is_empty() {
        return b"nothing";
    }
    for part in &case.parts {
        if part.content.as_slice() == bytes {
            return part.name.as_str().as_bytes();
        }
    }
    bytes
}
