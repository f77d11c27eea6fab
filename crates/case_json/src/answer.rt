//! The text that answers a case.
ghost use Rattle.std.specs.Prelude.{◌≡◌, ◌+◌, ◌^◌, ◌<◌, [], length, IfOk, OnOk};
ghost use Rattle.serde_json.specs.Data.{Data};
ghost use Rattle.serde_json.specs.Written.{compact_text};
ghost use Rattle.fix_model.specs.Run.{IsRun, end_of};
ghost use Rattle.fix_model.specs.States.{Fits};
ghost use Rattle.fix_engine.specs.Verdicts as engine;
ghost use Rattle.case_json.specs.Answer.{IsAnswer, cell_shown, cells_shown, conflict_line, conflict_shown, fix_line};
ghost use Rattle.case_json.specs.Answer.{fix_shown, fixed_shown, plain_shown, run_shown, step_shown};
ghost use Rattle.desk_base.specs.Texts.{line};
ghost use Rattle.json_parts.specs.Shapes.{or_null};
ghost use Rattle.json_parts.specs.Writing.{with_value};

use desk_base::{Duplicate, List, NoMemory, Text};
use fix_engine::{Verdict, Work, apply};
use fix_model::{Book, Cell, State, Step, value};
use json_parts::JsonText;
use std::alloc::{AllocError, Global};

/// A place from 0 as it is printed, counted from 1.
fn count(place: u64) -> u64
    requires { place < 2 ^ 32 }
    ensures { result ≡ place + 1 }
{
    place + 1
}

/// Writes a step, `[rule,row]`.
fn show_step(out: &mut JsonText, step: Step) -> Result<(), AllocError>
    ensures { OnOk result (out.new ≡ with_value out.old (step_shown step)) }
{
    out.begin_array()?;
    out.number(count(u64::from(step.rule)))?;
    out.number(count(u64::from(step.row)))?;
    out.end_array()
}

/// Writes a run, as the array of its steps.
fn show_run(out: &mut JsonText, run: &[Step]) -> Result<(), AllocError>
    ensures { OnOk result (out.new ≡ with_value out.old (run_shown run.now)) }
{
    out.begin_array()?;
    'steps: for step in run {
        show_step(out, *step)?;
    }
    out.end_array()
}

/// Writes an attribute with its value, and how it came to it.
fn show_cell(out: &mut JsonText, cell: Cell, name: &str, text: &str) -> Result<(), AllocError>
    ensures { OnOk result (out.new ≡ with_value out.old (cell_shown cell name.now text.now)) }
{
    match cell {
        Cell::Uncovered => show_plain(out, name, text, "open"),
        Cell::Confirmed => show_plain(out, name, text, "confirmed"),
        Cell::Fixed(step) => show_fixed(out, name, text, step),
    }
}

/// Writes an attribute with its value, which no rule fixes.
fn show_plain(out: &mut JsonText, name: &str, text: &str, word: &str) -> Result<(), AllocError>
    ensures { OnOk result (out.new ≡ with_value out.old (plain_shown name.now text.now word.now)) }
{
    out.begin_array()?;
    out.string(name)?;
    out.string(text)?;
    out.string(word)?;
    out.end_array()
}

/// Writes an attribute with its value, which this step fixes.
fn show_fixed(out: &mut JsonText, name: &str, text: &str, step: Step) -> Result<(), AllocError>
    ensures { OnOk result (out.new ≡ with_value out.old (fixed_shown name.now text.now step)) }
{
    out.begin_array()?;
    out.string(name)?;
    out.string(text)?;
    out.string("fixed")?;
    out.number(count(u64::from(step.rule)))?;
    out.number(count(u64::from(step.row)))?;
    out.end_array()
}

/// Writes the cells of a state, in the attributes' order.
fn show_cells<B: Book<()>>(
    out: &mut JsonText,
    attributes: &[Text],
    book: &B,
    state: &State,
    width: u16,
) -> Result<(), AllocError>
    requires fits { Fits (B.kit book.now) state.now }
    requires named { length attributes.now ≡ (B.kit book.now).width }
    requires wide { width ≡ (B.kit book.now).width }
    ensures { OnOk result (out.new ≡ with_value out.old (cells_shown attributes.now (B.kit book.now) state.now)) }
{
    out.begin_array()?;
    'attributes: for attribute in 0..width {
        let place = usize::from(attribute);
        let text = value(book, state, attribute);
        let name = attributes[place].as_str();
        show_cell(out, state.cells.as_slice()[place], name, text)?;
    }
    out.end_array()
}

/// Writes the step, or null where there is none.
fn show_dissent(out: &mut JsonText, dissent: Option<Step>) -> Result<(), AllocError>
    ensures { OnOk result (out.new ≡ with_value out.old (or_null step_shown dissent)) }
{
    match dissent {
        None => out.null(),
        Some(step) => show_step(out, step),
    }
}

/// Writes a fix: the state at the end of the first run, whether it is certain, the step that dissents there, and the
/// run.
fn show_fix<B: Book<()>>(
    out: &mut JsonText,
    attributes: &[Text],
    book: &B,
    end: &State,
    first: &[Step],
    width: u16,
    outcome: (bool, Option<Step>),
) -> Result<(), AllocError>
    requires fits { Fits (B.kit book.now) end.now }
    requires named { length attributes.now ≡ (B.kit book.now).width }
    requires wide { width ≡ (B.kit book.now).width }
    ensures { OnOk result (out.new
        ≡ with_value out.old (fix_shown attributes.now (B.kit book.now) end.now first.now outcome.0 outcome.1)) }
{
    out.begin_object()?;
    out.key("answer")?;
    out.string("fix")?;
    out.key("cells")?;
    show_cells::<B>(out, attributes, book, end, width)?;
    out.key("certain")?;
    out.boolean(outcome.0)?;
    out.key("dissent")?;
    show_dissent(out, outcome.1)?;
    out.key("first")?;
    show_run(out, first)?;
    out.end_object()
}

/// Writes a conflict: two runs that end in two records.
fn show_conflict(out: &mut JsonText, first: &[Step], second: &[Step]) -> Result<(), AllocError>
    ensures { OnOk result (out.new ≡ with_value out.old (conflict_shown first.now second.now)) }
{
    out.begin_object()?;
    out.key("answer")?;
    out.string("conflict")?;
    out.key("first")?;
    show_run(out, first)?;
    out.key("second")?;
    show_run(out, second)?;
    out.end_object()
}

/// The line of a text: its bytes, and a LF.
fn line_of(out: JsonText) -> Result<List<u8>, NoMemory>
    ensures { (value : Data) → out ≡ with_value [] value → IfOk result (λ text. text ≡ line (compact_text value)) }
{
    let mut text = out.into_bytes();
    text.push(b'\n')?;
    Ok(text)
}

/// The line that shows a fix, from the state that the first run begins at.
fn fix_line<B: Book<()>>(
    alloc: Global,
    attributes: &[Text],
    book: &B,
    state: &State,
    first: &[Step],
    certain: bool,
    dissent: Option<Step>,
) -> Result<List<u8>, NoMemory>
    requires fits { Fits (B.kit book.now) state.now }
    requires named { length attributes.now ≡ (B.kit book.now).width }
    requires run { IsRun (B.kit book.now) state.now first.now }
    ensures { IfOk result (λ text.
        text ≡ fix_line attributes.now (B.kit book.now) (end_of (B.kit book.now) state.now first.now) first.now
        certain dissent) }
{
    let width = book.width();
    let mut end = state.copy()?;
    apply::<(), B>(book, &mut end, first);
    let mut out = JsonText::new(alloc)?;
    show_fix::<B>(
        &mut out,
        attributes,
        book,
        &end,
        first,
        width,
        (certain, dissent),
    )?;
    line_of(out)
}

/// The line that shows a conflict.
fn conflict_line(alloc: Global, first: &[Step], second: &[Step]) -> Result<List<u8>, NoMemory>
    ensures { IfOk result (λ text. text ≡ conflict_line first.now second.now) }
{
    let mut out = JsonText::new(alloc)?;
    show_conflict(&mut out, first, second)?;
    line_of(out)
}

/// The line that answers the case of these attributes, the book's kit and this state, from what `decide` left for them
/// (docs/formats.md, *The case of `fixdesk once`*).
pub fn case_text<B: Book<()>>(
    alloc: Global,
    attributes: &[Text],
    book: &B,
    state: &State,
    work: &Work,
    verdict: &Verdict,
) -> Result<List<u8>, NoMemory>
    requires named { length attributes.now ≡ (B.kit book.now).width }
    requires fits { Fits (B.kit book.now) state.now }
    requires decided { engine.IsAnswer (B.kit book.now) state.now work.now.first work.now.second verdict.now }
    ensures { IfOk result (λ text.
        IsAnswer (record { attributes = attributes.now; kit = B.kit book.now; state = state.now }) text) }
{
    match verdict {
        Verdict::Fix { certain, dissent } => {
            fix_line::<B>(
                alloc,
                attributes,
                book,
                state,
                work.first(),
                *certain,
                *dissent,
            )
        }
        Verdict::Conflict => conflict_line(alloc, work.first(), work.second()),
    }
}
