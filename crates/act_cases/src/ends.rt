//! What is asked of a desk after the steps of a case.
use crate::showing::{tell_counts, tell_sessions};
use desk_cases::{Answer, Case};
use desk_trials::KeptDesk;
use std::test::Fail;

/// What is told of the tables in the end, where a case has such a part.
const ASKED: [&str; 3] = ["rows", "sessions", "turn"];

/// Tells what a case asks of the tables in the end, and has the book of the first edition held.
pub fn tell_end(desk: &mut KeptDesk, case: &Case, answer: &mut Answer) -> Result<(), Fail> {
    for name in ASKED {
        if case.part(name).is_some() {
            add_asked(name, desk, answer)?;
        }
    }
    desk.hold(0)
}

fn add_asked(name: &str, desk: &KeptDesk, answer: &mut Answer) -> Result<(), Fail> {
    let mut text = String::new(answer.alloc());
    match name {
        "rows" => tell_counts(&mut text, desk.tables())?,
        "sessions" => tell_sessions(&mut text, desk.tables())?,
        _ => write!(text, "{}", desk.turn())?,
    }
    answer.text(name, text.as_str())
}
