//! Links of which each call fails in turn.
use crate::calls::{call_of, line, words};
use desk_cases::{Answer, Case};
use desk_trials::{Call, End};
use std::test::Fail;

/// The status and the output of each call of `run` in which one read fails: the first, the second, and so on to the
/// one that finds the end; told once where it is the same.
pub fn each_read_fails(case: &Case, answer: &mut Answer) -> Result<(), Fail> {
    let words = words(answer.alloc(), case)?;
    let mut call = call_of(case, words.as_slice())?;
    let reads = call.input.len().div_ceil(call.cut.max(1));
    for read in 0..=reads {
        call.fails = Some((End::Source, (read as u64).saturating_add(1)));
        add_read(&call, answer)?;
    }
    Ok(())
}

fn add_read(call: &Call<'_>, answer: &mut Answer) -> Result<(), Fail> {
    let told = call.make_alone(answer.alloc())?;
    answer.number_once("status", u64::from(told.status))?;
    answer.bytes_once("output", told.output.as_slice())
}

/// The status of each call of `run` in which one write fails: the first, the second, and so on to the last; told once
/// where it is the same. Where something else is written than the bytes of the output before it, that is a part
/// besides.
pub fn each_write_fails(case: &Case, answer: &mut Answer) -> Result<(), Fail> {
    let words = words(answer.alloc(), case)?;
    let mut call = call_of(case, words.as_slice())?;
    let whole = call.make_alone(answer.alloc())?;
    add_writes(&mut call, whole.output.as_slice(), answer)
}

fn add_writes(call: &mut Call<'_>, whole: &[u8], answer: &mut Answer) -> Result<(), Fail> {
    answer.bytes("output", line(whole))?;
    for (place, _) in whole.iter().enumerate() {
        call.fails = Some((End::Sink, (place as u64).saturating_add(1)));
        add_write(call, &whole[..place], answer)?;
    }
    Ok(())
}

fn add_write(call: &Call<'_>, before: &[u8], answer: &mut Answer) -> Result<(), Fail> {
    let told = call.make_alone(answer.alloc())?;
    answer.number_once("status", u64::from(told.status))?;
    if told.output.as_slice() != before {
        answer.bytes("output before a fault", told.output.as_slice())?;
    }
    Ok(())
}
