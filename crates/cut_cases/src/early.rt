//! Streams whose source ends early.
use crate::streams::lines_of;
use desk_cases::{Answer, Case};
use http_cut::Routes;
use std::alloc::Global;
use std::test::Fail;

/// How the fronts of a stream are to end: where each request of it ends, and from how many bytes on the rest is a bad
/// head.
#[derive(Drop)]
struct Ends {
    ends: Vec<u64>,
    bad_from: u64,
}

/// `all` where a stream that ends after each of its first bytes ends as is wanted; else the first number of bytes at
/// which it does not.
///
/// Wanted are, of so many bytes, those requests that end within them, and that the rest is truncated; or, from so many
/// bytes on, that the rest is a bad head.
pub fn told(routes: &Routes, case: &Case, answer: &mut Answer) -> Result<(), Fail> {
    let bad_from = case.number("bad").unwrap_or(u64::MAX);
    let ends = case.numbers(answer.alloc(), "ends")?;
    let ends = Ends { ends, bad_from };
    match first_otherwise(answer.alloc(), routes, case.bytes("bytes")?, &ends)? {
        None => answer.text("wanted", "all"),
        Some(taken) => add_otherwise(taken, answer),
    }
}

fn add_otherwise(taken: usize, answer: &mut Answer) -> Result<(), Fail> {
    let text = format!(in answer.alloc(); "not {taken}")?;
    answer.text("wanted", text.as_str())
}

/// The first number of bytes at which a stream does not end as is wanted.
fn first_otherwise(
    alloc: Global,
    routes: &Routes,
    bytes: &[u8],
    ends: &Ends,
) -> Result<Option<usize>, Fail> {
    for taken in 0..=bytes.len() {
        let lines = lines_of(alloc, routes, &bytes[..taken], 64)?;
        if !ends.are_in(lines.as_str(), taken as u64) {
            return Ok(Some(taken));
        }
    }
    Ok(None)
}

impl Ends {
    /// Whether the lines are as many as the requests that end within so many bytes, and then the end that is wanted.
    fn are_in(&self, lines: &str, taken: u64) -> bool {
        let mut requests: usize = 0;
        let mut start: u64 = 0;
        for end in &self.ends {
            if *end <= taken {
                requests = requests.saturating_add(1);
                start = *end;
            }
        }
        lines.lines().count() == requests.saturating_add(1)
            && self.is_end(lines.lines().last().unwrap_or(""), start, taken)
    }

    /// Whether a line is the end of so many bytes whose last request ends there.
    fn is_end(&self, line: &str, start: u64, taken: u64) -> bool {
        if taken >= self.bad_from {
            line == "bad head"
        } else if start >= taken {
            line == "clean"
        } else {
            match line.strip_prefix("truncated ") {
                Some(count) => count.parse::<u64>() == Ok(taken - start),
                None => false,
            }
        }
    }
}
