//! How many comparisons one look into a sorted index takes.
use crate::looks::{Look, add_found, over_sorted};
use case_json::case_of;
use desk_cases::{Answer, Case};
use std::alloc::{AllocError, Global};
use std::test::Fail;

/// How many rows the master has.
const ROWS: u64 = 20_000;

/// The most comparisons that a look may take: one more than 20,000 has binary digits.
const MOST: u64 = 16;

/// What a look for the rule finds, and how many comparisons it takes: `none`, `1 to 16`, or else the number.
pub fn told(case: &Case, answer: &mut Answer) -> Result<(), Fail> {
    let Some(keys) = case.number("keys") else {
        return Err(Fail::new("a case has no number of keys"));
    };
    let mut input = String::new(answer.alloc());
    let stem = case.text("stem").unwrap_or("k");
    tell_input(&mut input, stem, keys, case.text("sought").unwrap_or(""))?;
    let look = looked(answer.alloc(), input.as_bytes())?;
    add_look(look, answer)
}

fn add_look(look: Look, answer: &mut Answer) -> Result<(), Fail> {
    add_found(look.found, answer)?;
    match look.compares {
        0 => answer.text("compares", "none"),
        1..=MOST => answer.text("compares", "1 to 16"),
        more => answer.number("compares", more),
    }
}

/// A case of `once`: the code that is sought is confirmed, and the master has so many different codes, in turn, each
/// the stem with a number, and each row with a town of its own.
fn tell_input(text: &mut String, stem: &str, keys: u64, sought: &str) -> Result<(), AllocError> {
    text.push_str("{\"attributes\":[\"code\",\"town\"],\"confirmed\":[\"code\"],")?;
    text.push_str(
        "\"rules\":[{\"conds\":[],\"from\":2,\"head\":\"town\",\"keys\":[[\"code\",1]],\"master\":1}],",
    )?;
    write!(text, "\"record\":[\"{sought}\",\"\"],\"masters\":[[")?;
    for row in 0..ROWS {
        let key = row % keys.max(1);
        let between = if row > 0 { "," } else { "" };
        write!(text, "{between}[\"{stem}{key}\",\"t{row}\"]")?;
    }
    text.push_str("]]}")
}

/// What a look for the first rule of a case of `once` finds in a sorted index.
fn looked(alloc: Global, input: &[u8]) -> Result<Look, Fail> {
    let record = case_of(alloc, input)?;
    let look = over_sorted(alloc, &record.kit, &record.state);
    drop(record);
    look
}
