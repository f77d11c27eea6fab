//! Why the first run of a record fixes an attribute.
ghost use Rattle.std.specs.Prelude.{◌↔◌, IfOk, IsTrue};
ghost use Rattle.fix_model.specs.Run.{end_of, IsRun};
ghost use Rattle.fix_model.specs.States.{Fits};
ghost use Rattle.fix_explain.specs.Reasons.{IsFixed};

use crate::record::{Booked, record_of};
use crate::runs::add_steps;
use crate::telling::{add_words, work_for};
use desk_base::{Duplicate, Steps, Text, place_of};
use desk_cases::{Answer, Case};
use fix_engine::{apply, least};
use fix_explain::{reason, uses};
use fix_model::{ListBook, State, Step};
use std::test::Fail;

/// The steps of the reason and the attributes that they use, or that the attribute is not fixed.
pub fn told(case: &Case, answer: &mut Answer) -> Result<(), Fail> {
    let mut given = Booked::new(record_of(answer.alloc(), case)?);
    let told = reasoned(case, &mut given, answer);
    drop(given);
    told
}

/// The same of the attribute that the case names.
fn reasoned(case: &Case, given: &mut Booked, answer: &mut Answer) -> Result<(), Fail>
    requires { Fits given.old.book given.old.state }
{
    let attribute = attribute_of(case, given.attributes.as_slice())?;
    let mut work = work_for(answer.alloc(), &given.book)?;
    least::<(), ListBook>(
        &mut work,
        &given.book,
        &mut given.state,
        &mut Steps::new(()),
    );
    explained(given, work.first(), attribute, answer)
}

/// The attribute that the case names.
fn attribute_of(case: &Case, attributes: &[Text]) -> Result<u16, Fail> {
    let Some(word) = case.text("attribute") else {
        return Err(Fail::new("a case names no attribute"));
    };
    match place_of(attributes, word) {
        Some(place) => Ok(u16::try_from(place).unwrap_or(u16::MAX)),
        None => Err(Fail::new("the attribute is none of the case's")),
    }
}

/// Why the first run from the state fixes the attribute, or that it does not.
fn explained(given: &Booked, run: &[Step], attribute: u16, answer: &mut Answer) -> Result<(), Fail>
    requires fits { Fits given.now.book given.now.state }
    requires run { IsRun given.now.book given.now.state run.now }
{
    let book = &given.book;
    let state = &given.state;
    if !is_fixed(book, state, run, attribute)? {
        return answer.text("reason", "not fixed");
    }
    let steps = reason::<(), ListBook>(answer.alloc(), book, state, run, attribute)?;
    add_steps("reason", steps.as_slice(), answer)?;
    let uses = uses::<(), ListBook>(answer.alloc(), book, state, steps.as_slice())?;
    add_words("uses", given.attributes.as_slice(), uses.as_slice(), answer)
}

/// Whether the run fixes the attribute.
fn is_fixed(book: &ListBook, state: &State, run: &[Step], attribute: u16) -> Result<bool, Fail>
    requires fits { Fits book.now state.now }
    requires run { IsRun book.now state.now run.now }
    ensures { IfOk result (λ told. IsTrue told ↔ IsFixed (end_of book.now state.now run.now) attribute) }
{
    let mut end = state.copy()?;
    apply::<(), ListBook>(book, &mut end, run);
    Ok(end.fixed_by(attribute).is_some())
}
