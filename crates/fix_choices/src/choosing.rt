//! The attributes whose texts differ at the ends of two runs.
ghost use Rattle.std.specs.Prelude.{◌≡◌, ◌<◌, IfOk};
ghost use Rattle.std.specs.Str.{bytes_eq};
ghost use Rattle.fix_model.specs.Run.{IsRun, end_of};
ghost use Rattle.fix_model.specs.States.{Fits};
ghost use Rattle.fix_engine.specs.Verdicts.{IsAnswer};
ghost use Rattle.fix_choices.specs.Choices.{choice_at, choices_between, choices_of, differs, ending_at};

use crate::choice::{Choice, Ending};
use desk_base::{Duplicate, List, NoMemory};
use fix_engine::{Verdict, apply};
use fix_model::{Book, State, Step, value, value_text};
use std::alloc::Global;

/// The choices of an answer with these two runs: at a conflict the attributes whose texts differ at the two ends, in
/// their order, with what each has at either end; at a fix none. The one refusal is want of memory for the list.
pub fn choices<L, B: Book<L>>(
    alloc: Global,
    book: &B,
    state: &State,
    first: &[Step],
    second: &[Step],
    verdict: Verdict,
) -> Result<List<Choice>, NoMemory>
    requires fits { Fits (B.kit book.now) state.now }
    requires answer { IsAnswer (B.kit book.now) state.now first.now second.now verdict }
    ensures { IfOk result (λ choices. choices ≡ choices_of (B.kit book.now) state.now first.now second.now verdict) }
{
    match verdict {
        Verdict::Fix { .. } => Ok(List::new(alloc)),
        Verdict::Conflict => {
            let first_end = end_of::<L, B>(book, state, first)?;
            let second_end = end_of::<L, B>(book, state, second)?;
            choices_between::<L, B>(alloc, book, &first_end, &second_end)
        }
    }
}

/// The end of a run.
pub(crate) fn end_of<L, B: Book<L>>(
    book: &B,
    state: &State,
    run: &[Step],
) -> Result<State, NoMemory>
    requires fits { Fits (B.kit book.now) state.now }
    requires run { IsRun (B.kit book.now) state.now run.now }
    ensures end { IfOk result (λ end. end ≡ end_of (B.kit book.now) state.now run.now) }
    ensures fits { IfOk result (Fits (B.kit book.now)) }
{
    // So that a clause knows that the kit is valid.
    let _width = book.width();
    let mut end = state.copy()?;
    apply::<L, B>(book, &mut end, run);
    Ok(end)
}

/// The choices between two ends.
fn choices_between<L, B: Book<L>>(
    alloc: Global,
    book: &B,
    first: &State,
    second: &State,
) -> Result<List<Choice>, NoMemory>
    requires first { Fits (B.kit book.now) first.now }
    requires second { Fits (B.kit book.now) second.now }
    ensures { IfOk result (λ choices. choices ≡ choices_between (B.kit book.now) first.now second.now) }
{
    let mut choices = List::new(alloc);
    'attributes: for attribute in 0..book.width() {
        if differs::<L, B>(book, first, second, attribute) {
            choices.push(choice_at::<L, B>(book, first, second, attribute)?)?;
        }
    }
    Ok(choices)
}

/// Whether the texts of an attribute, counted from 0, differ at two ends, byte by byte. It succeeds whatever memory
/// there is.
pub fn differs<L, B: Book<L>>(book: &B, first: &State, second: &State, attribute: u16) -> bool
    requires first { Fits (B.kit book.now) first.now }
    requires second { Fits (B.kit book.now) second.now }
    requires within { attribute < (B.kit book.now).width }
    ensures { result ≡ differs (B.kit book.now) first.now second.now attribute }
{
    value::<L, B>(book, first, attribute) != value::<L, B>(book, second, attribute)
}

/// The attribute with what it has at the two ends.
fn choice_at<L, B: Book<L>>(
    book: &B,
    first: &State,
    second: &State,
    attribute: u16,
) -> Result<Choice, NoMemory>
    requires first { Fits (B.kit book.now) first.now }
    requires second { Fits (B.kit book.now) second.now }
    requires within { attribute < (B.kit book.now).width }
    ensures { IfOk result (λ choice. choice ≡ choice_at (B.kit book.now) first.now second.now attribute) }
{
    Ok(Choice {
        attribute,
        first: ending_at::<L, B>(book, first, attribute)?,
        second: ending_at::<L, B>(book, second, attribute)?,
    })
}

/// What an attribute has at an end.
fn ending_at<L, B: Book<L>>(book: &B, end: &State, attribute: u16) -> Result<Ending, NoMemory>
    requires fits { Fits (B.kit book.now) end.now }
    requires within { attribute < (B.kit book.now).width }
    ensures { IfOk result (λ ending. ending ≡ ending_at (B.kit book.now) end.now attribute) }
{
    Ok(Ending {
        text: value_text::<L, B>(book, end, attribute)?,
        step: end.fixed_by(attribute),
    })
}
