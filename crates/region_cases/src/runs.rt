//! The first run of a record.
ghost use Rattle.fix_model.specs.States.{Fits};
ghost use Rattle.fix_engine.specs.WorkSeen.{IsRoomFor};

use crate::record::{Booked, record_of};
use crate::telling::{add_word, or_none, work_for};
use desk_base::Steps;
use desk_cases::{Answer, Case};
use fix_engine::{Work, apply, least};
use fix_model::{ListBook, Step};
use std::test::Fail;

/// The steps of the first run, and the attributes that are covered before and after they are made.
pub fn told(case: &Case, answer: &mut Answer) -> Result<(), Fail> {
    let mut given = Booked::new(record_of(answer.alloc(), case)?);
    let told = run_over(&mut given, answer);
    drop(given);
    told
}

/// The same of a record with its book.
fn run_over(given: &mut Booked, answer: &mut Answer) -> Result<(), Fail>
    requires { Fits given.old.book given.old.state }
{
    let mut work = work_for(answer.alloc(), &given.book)?;
    run(&mut work, given, answer)
}

/// The same with room for the work.
fn run(work: &mut Work, given: &mut Booked, answer: &mut Answer) -> Result<(), Fail>
    requires room { IsRoomFor work.old given.old.book }
    requires fits { Fits given.old.book given.old.state }
{
    least::<(), ListBook>(work, &given.book, &mut given.state, &mut Steps::new(()));
    add_covered("searched", given, answer)?;
    apply::<(), ListBook>(&given.book, &mut given.state, work.first());
    add_covered("made", given, answer)?;
    add_steps("first", work.first(), answer)
}

/// Adds steps as rule and row.
pub fn add_steps(name: &str, run: &[Step], answer: &mut Answer) -> Result<(), Fail> {
    let mut line = String::new(answer.alloc());
    for step in run {
        let (rule, row) = (step.rule.saturating_add(1), step.row.saturating_add(1));
        write!(line, " {rule}/{row}")?;
    }
    answer.text(name, or_none(line.as_str()))
}

/// Adds the words of the covered attributes.
fn add_covered(name: &str, given: &Booked, answer: &mut Answer) -> Result<(), Fail> {
    let mut line = String::new(answer.alloc());
    let attributes = given.attributes.as_slice();
    for attribute in 0..u16::try_from(attributes.len()).unwrap_or(u16::MAX) {
        if given.state.covers(attribute) {
            add_word(&mut line, attributes, attribute)?;
        }
    }
    answer.text(name, or_none(line.as_str()))
}
