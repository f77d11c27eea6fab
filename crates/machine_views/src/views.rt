//! A session as it is shown.
ghost use Rattle.std.specs.Prelude.{◌≡◌, ◌<◌, All, IfOk, IfSome, OnOk, List, length, map, option_map};
ghost use Rattle.std.specs.List.{range_with_len};
ghost use Rattle.desk_words.specs.Tables.{published_of, rows_of};
ghost use Rattle.machine_workplace.specs.Ready.{IsReady};
ghost use Rattle.fix_model.specs.declared.state.Step.{Step as StepOf};
ghost use Rattle.fix_model.specs.Rules.{IsStepOf, rule_at};
ghost use Rattle.fix_model.specs.States.{Fits, IsCellOf};
ghost use Rattle.machine_core.specs.Checked.{Gives};
ghost use Rattle.machine_core.specs.Look.Choices.{shown_step};
ghost use Rattle.machine_core.specs.Sessions.{IsSessionOf};
ghost use Rattle.machine_core.specs.Shelves.{IsFirst, IsFullRoom, bound_on};
ghost use Rattle.machine_core.specs.Views.{name_at, named_step, outcome_of, shown_cell, view_cell, view_of};
ghost use Rattle.machine_views.specs.Answered.{IsBookFor, IsNamedBook, NamesSteps};
ghost use Rattle.machine_workplace.specs.Upshots.{IsUpshotOf};

use crate::answers::{Asked, answer_to, book_for};
use desk_base::{Duplicate, List, NoMemory, Text};
use desk_words::{Outcome, SessionRow, Shown, ShownStep, Tables, View, ViewCell};
use fix_engine::{Verdict, Work};
use fix_model::{Book, Cell, Rule, State, Step, value_text};
use machine_core::hold;
use machine_workplace::{Upshot, Workplace};
use master_index::{Shelved, SortedBook};
use std::alloc::Global;

/// A session as it is shown under this number. Its edition comes first on the shelf.
pub fn view_of(
    tables: &Tables,
    workplace: &mut Workplace,
    number: u32,
    session: &SessionRow,
) -> Result<View, NoMemory>
    requires ready { IsReady (rows_of tables.now) workplace.old }
    requires session { IsSessionOf (published_of (rows_of tables.now)) session.now }
    ensures view { IfOk result
        (λ view. Gives (view_of (published_of (rows_of tables.now)) number session.now) (Ok view)) }
    ensures first { OnOk result (IsFirst session.now.edition workplace.new.shelf) }
    ensures ready { IsReady (rows_of tables.now) workplace.new }
{
    let (view, _) = view_and_upshot(tables, workplace, number, session)?;
    Ok(view)
}

/// A session as it is shown under this number, and what it came to. Its edition comes first on the shelf.
pub(crate) fn view_and_upshot(
    tables: &Tables,
    workplace: &mut Workplace,
    number: u32,
    session: &SessionRow,
) -> Result<(View, Upshot), NoMemory>
    requires ready { IsReady (rows_of tables.now) workplace.old }
    requires session { IsSessionOf (published_of (rows_of tables.now)) session.now }
    ensures view { IfOk result
        (λ made. Gives (view_of (published_of (rows_of tables.now)) number session.now) (Ok made.0)) }
    ensures upshot { IfOk result (λ made. IsUpshotOf (published_of (rows_of tables.now)) session.now made.1) }
    ensures first { OnOk result (IsFirst session.now.edition workplace.new.shelf) }
    ensures ready { IsReady (rows_of tables.now) workplace.new }
{
    workplace.hold(tables, session.edition)?;
    let shelved = book_for(tables, &workplace.shelf, session);
    let asked = Asked { shelved, session };
    view_on(workplace.alloc, tables, &asked, &mut workplace.room, number)
}

/// A session as it is shown, by the book of its edition, and what it came to.
fn view_on(
    alloc: Global,
    tables: &Tables,
    asked: &Asked,
    work: &mut Work,
    number: u32,
) -> Result<(View, Upshot), NoMemory>
    requires book { IsBookFor (published_of (rows_of tables.now)) asked.now.session.now asked.now.shelved.now }
    requires edition { asked.now.session.now.edition < length tables.now.editions.items }
    requires room { IsFullRoom work.old }
    ensures view { IfOk result
        (λ made. Gives (view_of (published_of (rows_of tables.now)) number asked.now.session.now) (Ok made.0)) }
    ensures upshot { IfOk result
        (λ made. IsUpshotOf (published_of (rows_of tables.now)) asked.now.session.now made.1) }
    ensures room { IsFullRoom work.new }
{
    let (shelved, session) = (asked.shelved, asked.session);
    let answered = answer_to(alloc, work, shelved, session)?;
    let cells = view_cells(alloc, shelved, &answered.shown)?;
    let first = named_steps(alloc, shelved, work.first())?;
    let outcome = outcome_of(alloc, shelved, work.second(), answered.verdict)?;
    let edition = &tables.editions.as_slice()[session.edition as usize];
    let view = View {
        session: number,
        edition: edition.name.copy()?,
        version: edition.version,
        stage: session.stage,
        cells,
        first,
        outcome,
    };
    Ok((view, answered.upshot()))
}

/// Each attribute with its value, in their order.
fn view_cells(alloc: Global, shelved: &Shelved, state: &State) -> Result<List<ViewCell>, NoMemory>
    requires named { IsNamedBook shelved.now }
    requires fits { Fits shelved.now.book state.now }
    ensures { IfOk result (λ cells.
        cells ≡ map (view_cell (bound_on shelved.now) state.now) (range_with_len 0 shelved.now.book.width)) }
{
    let width = Book::<()>::width(&shelved.book);
    let mut cells = List::with_capacity(alloc, usize::from(width))?;
    'attributes: for attribute in 0..width {
        cells.push(view_cell(alloc, shelved, state, attribute)?)?;
    }
    Ok(cells)
}

/// An attribute, counted from 0, with its value.
fn view_cell(
    alloc: Global,
    shelved: &Shelved,
    state: &State,
    attribute: u16,
) -> Result<ViewCell, NoMemory>
    requires named { IsNamedBook shelved.now }
    requires fits { Fits shelved.now.book state.now }
    requires attribute { attribute < shelved.now.book.width }
    ensures { IfOk result (λ cell. cell ≡ view_cell (bound_on shelved.now) state.now attribute) }
{
    let place = usize::from(attribute);
    let name = name_at(shelved.names.attributes.as_slice(), place)?;
    let value = value_text::<(), SortedBook>(&shelved.book, state, attribute)?;
    let shown = shown_cell(shelved, state.cells.as_slice()[place])?;
    Ok(ViewCell { name, value, shown })
}

/// How an attribute came to its value.
fn shown_cell(shelved: &Shelved, cell: Cell) -> Result<Shown, NoMemory>
    requires named { IsNamedBook shelved.now }
    requires cell { IsCellOf shelved.now.book cell }
    ensures { IfOk result (λ shown. shown ≡ shown_cell (bound_on shelved.now) cell) }
{
    match cell {
        Cell::Uncovered => Ok(Shown::Uncovered),
        Cell::Confirmed => Ok(Shown::Confirmed),
        Cell::Fixed(step) => fixed_by(shelved, step),
    }
}

/// An attribute that a step fixed, by the rule of the step and the row of its master.
fn fixed_by(shelved: &Shelved, step: Step) -> Result<Shown, NoMemory>
    requires named { IsNamedBook shelved.now }
    requires step { IsStepOf shelved.now.book step }
    ensures { IfOk result (λ shown. shown ≡ shown_cell (bound_on shelved.now) (Cell.Fixed step)) }
{
    let ShownStep { rule, master, row } = shown_step(shelved, step)?;
    Ok(Shown::Fixed { rule, master, row })
}

/// A step by the names of its rule and of that rule's master, with the row counted from 1.
pub(crate) fn shown_step(shelved: &Shelved, step: Step) -> Result<ShownStep, NoMemory>
    requires named { IsNamedBook shelved.now }
    requires step { IsStepOf shelved.now.book step }
    ensures { IfOk result (λ shown. shown ≡ shown_step (bound_on shelved.now) step) }
{
    let (rule, row) = named_step(shelved, step)?;
    let master = master_name(shelved, step.rule)?;
    Ok(ShownStep { rule, master, row })
}

/// The name of the master of a rule, which is counted from 0.
pub(crate) fn master_name(shelved: &Shelved, rule: u16) -> Result<Text, NoMemory>
    requires named { IsNamedBook shelved.now }
    requires rule { rule < length shelved.now.book.rules }
    ensures { IfOk result (λ name. name
        ≡ name_at (bound_on shelved.now).names.masters (rule_at (bound_on shelved.now).kit rule).master) }
{
    let master = rules(&shelved.book)[usize::from(rule)].master;
    name_at(shelved.names.masters.as_slice(), usize::from(master))
}

/// The rules of a book.
pub(crate) fn rules(book: &SortedBook) -> &[Rule]
    ensures { result.now ≡ book.now.rules }
{
    Book::<()>::rules(book)
}

/// The name at a place, counted from 0.
pub fn name_at(names: &[Text], place: usize) -> Result<Text, NoMemory>
    requires { place < length names.now }
    ensures { IfOk result (λ name. name ≡ name_at names.now place) }
{
    names[place].copy()
}

/// Attributes by their names.
pub(crate) fn named_attributes(
    alloc: Global,
    names: &[Text],
    attributes: &[u16],
) -> Result<List<Text>, NoMemory>
    requires { All (λ attribute. attribute < length names.now) attributes.now }
    ensures { IfOk result (λ named. named ≡ map (name_at names.now) attributes.now) }
{
    let mut named = List::new(alloc);
    'attributes: for attribute in attributes {
        named.push(name_at(names, usize::from(*attribute))?)?;
    }
    Ok(named)
}

/// A step by the name of its rule, with the row counted from 1.
fn named_step(shelved: &Shelved, step: Step) -> Result<(Text, u32), NoMemory>
    requires named { IsNamedBook shelved.now }
    requires step { IsStepOf shelved.now.book step }
    ensures { IfOk result (λ named. named ≡ named_step (bound_on shelved.now) step) }
{
    let rule = name_at(shelved.names.rules.as_slice(), usize::from(step.rule))?;
    Ok((rule, step.row + 1))
}

/// Steps by the names of their rules, in their order.
pub(crate) fn named_steps(
    alloc: Global,
    shelved: &Shelved,
    steps: &[Step],
) -> Result<List<(Text, u32)>, NoMemory>
    requires named { IsNamedBook shelved.now }
    requires steps { All (IsStepOf shelved.now.book) steps.now }
    ensures { IfOk result (λ named. named ≡ map (named_step (bound_on shelved.now)) steps.now) }
{
    let mut named = List::with_capacity(alloc, steps.len())?;
    'steps: for step in steps {
        named.push(named_step(shelved, *step)?)?;
    }
    Ok(named)
}

/// What the rules make of a session whose second run is this.
fn outcome_of(
    alloc: Global,
    shelved: &Shelved,
    second: &[Step],
    verdict: Verdict,
) -> Result<Outcome, NoMemory>
    requires named { IsNamedBook shelved.now }
    requires steps { NamesSteps shelved.now.book second.now verdict }
    ensures { IfOk result (λ outcome. (first : List StepOf) → outcome ≡ outcome_of (bound_on shelved.now)
        (record { first = first; second = second.now; verdict = verdict }) verdict) }
{
    match verdict {
        Verdict::Fix { certain, dissent } => {
            let dissent = dissent_of(shelved, dissent)?;
            Ok(Outcome::Fix { certain, dissent })
        }
        Verdict::Conflict => {
            let second = named_steps(alloc, shelved, second)?;
            Ok(Outcome::Conflict { second })
        }
    }
}

/// The step that dissents, by the name of its rule.
fn dissent_of(shelved: &Shelved, dissent: Option<Step>) -> Result<Option<(Text, u32)>, NoMemory>
    requires named { IsNamedBook shelved.now }
    requires step { IfSome dissent (IsStepOf shelved.now.book) }
    ensures { IfOk result (λ named. named ≡ option_map (named_step (bound_on shelved.now)) dissent) }
{
    match dissent {
        None => Ok(None),
        Some(step) => Ok(Some(named_step(shelved, step)?)),
    }
}
