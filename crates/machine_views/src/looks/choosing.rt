//! Choices: what a session's conflict, or the dissent from its fix, is about.
ghost use Rattle.std.specs.Prelude.{◌≡◌, All, IfOk, IfSome, Ok, map, option_map};
ghost use Rattle.desk_words.specs.Tables.{published_of, rows_of};
ghost use Rattle.machine_workplace.specs.Ready.{IsReady};
ghost use Rattle.fix_engine.specs.Verdicts.{IsAnswer};
ghost use Rattle.fix_model.specs.Rules.{IsStepOf};
ghost use Rattle.fix_model.specs.States.{Fits};
ghost use Rattle.fix_choices.specs.Choices.{choices_of};
ghost use Rattle.fix_choices.specs.Dissents.{dissent_of};
ghost use Rattle.machine_core.specs.Checked.{Gives};
ghost use Rattle.machine_core.specs.Look.Choices.{choices_at, choices_on, shown_choice, shown_dissent, shown_end};
ghost use Rattle.machine_core.specs.Outcomes.{Answers};
ghost use Rattle.machine_core.specs.Own.{IsOwn};
ghost use Rattle.machine_core.specs.Shelves.{IsFullRoom, bound_on};
ghost use Rattle.machine_views.specs.Answered.{IsNamedBook, Suits};
ghost use Rattle.machine_views.specs.Naming.{IsChoiceOf, IsDissentOf};

use crate::answers::{Asked, answer_to, book_for, brought_session};
use crate::views::{name_at, shown_step};
use desk_base::{Duplicate, List, NoMemory};
use desk_words::{Choices, ShownChoice, ShownDissent, ShownEnd, Tables};
use fix_choices::{Choice, Dissent, Ending, choices, dissent};
use fix_engine::{Verdict, Work};
use fix_model::State;
use machine_core::{Own, Stop, state_of};
use machine_workplace::Workplace;
use master_index::{Shelved, SortedBook};
use std::alloc::Global;

/// What the session of this number, counted from 1, is about. Its edition comes first on the shelf.
pub fn choices_at(
    tables: &Tables,
    workplace: &mut Workplace,
    own: &Own,
    number: u32,
) -> Result<Choices, Stop>
    requires ready { IsReady (rows_of tables.now) workplace.old }
    requires own { IsOwn (rows_of tables.now) own.now }
    ensures choices { Answers result (choices_at (published_of (rows_of tables.now)) own.now number) }
    ensures ready { IsReady (rows_of tables.now) workplace.new }
{
    let session = brought_session(tables, workplace, own, number)?;
    let shelved = book_for(tables, &workplace.shelf, session);
    let asked = Asked { shelved, session };
    Ok(choices_on(workplace.alloc, &asked, &mut workplace.room, number)?)
}

/// What a session is about, by the book of its edition and with its names.
fn choices_on(
    alloc: Global,
    asked: &Asked,
    work: &mut Work,
    number: u32,
) -> Result<Choices, NoMemory>
    requires suits { Suits asked.now.shelved.now asked.now.session.now }
    requires room { IsFullRoom work.old }
    ensures choices { IfOk result
        (λ told. Gives (choices_on number (bound_on asked.now.shelved.now) asked.now.session.now) (Ok told)) }
    ensures room { IsFullRoom work.new }
{
    let (shelved, session) = (asked.shelved, asked.session);
    let answered = answer_to(alloc, work, shelved, session)?;
    let state = state_of(alloc, session)?;
    let choices = choices_in(alloc, shelved, work, &state, answered.verdict)?;
    let dissent = dissent_in(shelved, work, &state, answered.verdict)?;
    Ok(Choices {
        session: number,
        choices,
        dissent,
    })
}

/// The choices of the answer whose runs the work holds, by names.
fn choices_in(
    alloc: Global,
    shelved: &Shelved,
    work: &Work,
    state: &State,
    verdict: Verdict,
) -> Result<List<ShownChoice>, NoMemory>
    requires named { IsNamedBook shelved.now }
    requires fits { Fits shelved.now.book state.now }
    requires answer { IsAnswer shelved.now.book state.now work.now.first work.now.second verdict }
    ensures { IfOk result (λ shown. shown ≡ map (shown_choice (bound_on shelved.now))
        (choices_of shelved.now.book state.now work.now.first work.now.second verdict)) }
{
    let (first, second) = (work.first(), work.second());
    let choices = choices::<(), SortedBook>(alloc, &shelved.book, state, first, second, verdict)?;
    shown_choices(alloc, shelved, choices.as_slice())
}

/// Choices by the names of their attributes and steps, in their order.
fn shown_choices(
    alloc: Global,
    shelved: &Shelved,
    choices: &[Choice],
) -> Result<List<ShownChoice>, NoMemory>
    requires named { IsNamedBook shelved.now }
    requires choices { All (IsChoiceOf shelved.now.book) choices.now }
    ensures { IfOk result (λ shown. shown ≡ map (shown_choice (bound_on shelved.now)) choices.now) }
{
    let mut shown = List::new(alloc);
    'choices: for choice in choices {
        shown.push(shown_choice(shelved, choice)?)?;
    }
    Ok(shown)
}

/// A choice by the names of its attribute and its steps.
fn shown_choice(shelved: &Shelved, choice: &Choice) -> Result<ShownChoice, NoMemory>
    requires named { IsNamedBook shelved.now }
    requires choice { IsChoiceOf shelved.now.book choice.now }
    ensures { IfOk result (λ shown. shown ≡ shown_choice (bound_on shelved.now) choice.now) }
{
    let names = shelved.names.attributes.as_slice();
    Ok(ShownChoice {
        name: name_at(names, usize::from(choice.attribute))?,
        first: shown_end(shelved, &choice.first)?,
        second: shown_end(shelved, &choice.second)?,
    })
}

/// What an attribute has at an end, by the names of the step that fixed it there.
fn shown_end(shelved: &Shelved, ending: &Ending) -> Result<ShownEnd, NoMemory>
    requires named { IsNamedBook shelved.now }
    requires step { IfSome ending.now.step (IsStepOf shelved.now.book) }
    ensures { IfOk result (λ shown. shown ≡ shown_end (bound_on shelved.now) ending.now) }
{
    let text = ending.text.copy()?;
    let step = match ending.step {
        None => None,
        Some(step) => Some(shown_step(shelved, step)?),
    };
    Ok(ShownEnd { text, step })
}

/// The dissent from the answer whose runs the work holds, by names.
fn dissent_in(
    shelved: &Shelved,
    work: &Work,
    state: &State,
    verdict: Verdict,
) -> Result<Option<ShownDissent>, NoMemory>
    requires named { IsNamedBook shelved.now }
    requires fits { Fits shelved.now.book state.now }
    requires answer { IsAnswer shelved.now.book state.now work.now.first work.now.second verdict }
    ensures { IfOk result (λ shown. shown ≡ option_map (shown_dissent (bound_on shelved.now))
        (dissent_of shelved.now.book state.now work.now.first verdict)) }
{
    let (first, second) = (work.first(), work.second());
    match dissent::<(), SortedBook>(&shelved.book, state, first, second, verdict)? {
        None => Ok(None),
        Some(dissent) => Ok(Some(shown_dissent(shelved, &dissent)?)),
    }
}

/// A dissent by the names of its attribute and its step.
fn shown_dissent(shelved: &Shelved, dissent: &Dissent) -> Result<ShownDissent, NoMemory>
    requires named { IsNamedBook shelved.now }
    requires dissent { IsDissentOf shelved.now.book dissent.now }
    ensures { IfOk result (λ shown. shown ≡ shown_dissent (bound_on shelved.now) dissent.now) }
{
    let names = shelved.names.attributes.as_slice();
    Ok(ShownDissent {
        name: name_at(names, usize::from(dissent.attribute))?,
        text: dissent.text.copy()?,
        step: shown_step(shelved, dissent.step)?,
        other: dissent.other.copy()?,
    })
}
