//! Explain: why an attribute of a session is fixed.
ghost use Rattle.std.specs.Prelude.{◌≡◌, ◌<◌, IfOk, Ok, OnOk};
ghost use Rattle.desk_words.specs.declared.look.Look.TheVariants.{Explain};
ghost use Rattle.desk_words.specs.Tables.{published_of, rows_of};
ghost use Rattle.machine_workplace.specs.Ready.{IsReady};
ghost use Rattle.fix_explain.specs.Reasons.{IsFixed};
ghost use Rattle.fix_model.specs.Run.{IsRun, end_of};
ghost use Rattle.fix_model.specs.States.{Fits};
ghost use Rattle.machine_core.specs.Checked.{Gives};
ghost use Rattle.machine_core.specs.Clerk.Commit.{not_in_conflict};
ghost use Rattle.machine_core.specs.Look.Explain.{explained_on, explanation_of, fixed_at};
ghost use Rattle.machine_core.specs.Outcomes.{Answers, Finds, WantsNone};
ghost use Rattle.machine_core.specs.Own.{IsOwn};
ghost use Rattle.machine_core.specs.Shelves.{IsFullRoom, bound_on};
ghost use Rattle.machine_views.specs.Answered.{IsNamedBook, Suits};
ghost use Rattle.machine_views.specs.Looking.{IsSessionFirst, RepliesTo};

use crate::answers::{Asked, answer_to, book_for, brought_session};
use crate::looks::replied;
use crate::views::{name_at, named_attributes, named_steps};
use desk_base::{Duplicate, NoMemory, Str};
use desk_words::{Explained, Refusal, Reply, Tables};
use fix_engine::{Verdict, Work};
use fix_explain::{reason, uses};
use fix_model::{Cell, State, Step};
use machine_core::{Own, Stop, attribute_of, state_of};
use machine_workplace::Workplace;
use master_index::{Shelved, SortedBook};
use std::alloc::Global;

/// The reply to this look, which asks why the attribute with this word is fixed in the session of this number, counted
/// from 1. The session's edition comes first on the shelf.
pub fn explain(
    tables: &Tables,
    workplace: &mut Workplace,
    own: &Own,
    number: u32,
    word: &Str,
) -> Result<Reply, Stop>
    requires ready { IsReady (rows_of tables.now) workplace.old }
    requires own { IsOwn (rows_of tables.now) own.now }
    ensures replies { RepliesTo (published_of (rows_of tables.now)) own.now (Explain number word.now) result }
    ensures first { OnOk result (IsSessionFirst own.now.sessions number workplace.new.shelf) }
    ensures ready { IsReady (rows_of tables.now) workplace.new }
{
    let session = brought_session(tables, workplace, own, number)?;
    let shelved = book_for(tables, &workplace.shelf, session);
    let asked = Asked { shelved, session };
    replied(
        explained_on(workplace.alloc, &asked, &mut workplace.room, word),
        Reply::Explained,
    )
}

/// Why the attribute with this word is fixed in a session, by the book of its edition and with its names.
fn explained_on(
    alloc: Global,
    asked: &Asked,
    work: &mut Work,
    word: &Str,
) -> Result<Explained, Stop>
    requires suits { Suits asked.now.shelved.now asked.now.session.now }
    requires room { IsFullRoom work.old }
    ensures explained { Answers result (explained_on (bound_on asked.now.shelved.now) asked.now.session.now word.now) }
    ensures room { IsFullRoom work.new }
{
    let (shelved, session) = (asked.shelved, asked.session);
    let attribute = attribute_of(shelved.names.attributes.as_slice(), word)? as u16;
    let answered = answer_to(alloc, work, shelved, session)?;
    not_in_conflict(answered.verdict)?;
    fixed_at(&answered.shown, attribute, word)?;
    let state = state_of(alloc, session)?;
    Ok(explanation_of(alloc, shelved, &state, work.first(), attribute)?)
}

/// The verdict is a fix. No want of memory is answered.
pub(crate) fn not_in_conflict(verdict: Verdict) -> Result<(), Stop>
    ensures finds { Finds result (not_in_conflict verdict) }
    ensures memory { WantsNone result }
{
    match verdict {
        Verdict::Fix { .. } => Ok(()),
        Verdict::Conflict => Err(Stop::Refused(Refusal::InConflict)),
    }
}

/// The attribute at a place, counted from 0, is fixed; refused by its word where it is not.
fn fixed_at(state: &State, attribute: u16, word: &Str) -> Result<(), Stop>
    ensures { Finds result (fixed_at state.now attribute word.now) }
{
    match state.cells.as_slice().get(usize::from(attribute)) {
        Some(Cell::Fixed(_)) => Ok(()),
        Some(Cell::Uncovered | Cell::Confirmed) | None => {
            Err(Stop::Refused(Refusal::NotFixed(word.copy()?)))
        }
    }
}

/// Why a run fixes an attribute, counted from 0, by the names of attributes and rules.
fn explanation_of(
    alloc: Global,
    shelved: &Shelved,
    state: &State,
    run: &[Step],
    attribute: u16,
) -> Result<Explained, NoMemory>
    requires named { IsNamedBook shelved.now }
    requires attribute { attribute < shelved.now.book.width }
    requires fits { Fits shelved.now.book state.now }
    requires run { IsRun shelved.now.book state.now run.now }
    requires fixed { IsFixed (end_of shelved.now.book state.now run.now) attribute }
    ensures { IfOk result
        (λ told. Gives (explanation_of (bound_on shelved.now) state.now run.now attribute) (Ok told)) }
{
    let steps = reason::<(), SortedBook>(alloc, &shelved.book, state, run, attribute)?;
    let uses = uses::<(), SortedBook>(alloc, &shelved.book, state, steps.as_slice())?;
    let names = shelved.names.attributes.as_slice();
    Ok(Explained {
        attribute: name_at(names, usize::from(attribute))?,
        steps: named_steps(alloc, shelved, steps.as_slice())?,
        uses: named_attributes(alloc, names, uses.as_slice())?,
    })
}
