//! What the rules make of a session.
ghost use Rattle.std.specs.Prelude.{◌≡◌, ◌≤◌, length, IfOk, OnOk};
ghost use Rattle.desk_base.specs.declared.limits.TheConstants.{MAX_ATTRIBUTES};
ghost use Rattle.desk_words.specs.Tables.{published_of, rows_of};
ghost use Rattle.desk_valid.specs.Valid.{AreValid};
ghost use Rattle.machine_workplace.specs.Ready.{IsReady};
ghost use Rattle.fix_engine.specs.Verdicts.{IsAnswer};
ghost use Rattle.fix_model.specs.States.{Fits};
ghost use Rattle.fix_model.specs.Valid.{IsValid};
ghost use Rattle.machine_core.specs.Answers.{shown_state, state_of};
ghost use Rattle.machine_core.specs.Outcomes.{Lends};
ghost use Rattle.machine_core.specs.Own.{IsOwn};
ghost use Rattle.machine_core.specs.Sessions.{IsSessionOf};
ghost use Rattle.machine_core.specs.Shelves.{AreHeld, IsFirst, IsFullRoom, bound_on};
ghost use Rattle.machine_core.specs.Tests.{session_of};
ghost use Rattle.machine_views.specs.Answered.{IsAnswered, IsBookFor, Suits, answer_in};
ghost use Rattle.machine_views.specs.Looking.{IsSessionFirst};
ghost use Rattle.machine_workplace.specs.Upshots.{AreCellsUpTo, cells_in};

use desk_base::{NoMemory, Steps};
use desk_words::{SessionRow, Tables};
use fix_engine::{Verdict, Work, apply, decide};
use fix_model::State;
use machine_core::{Own, Stop, hold, session_of, shelved, state_of};
use machine_workplace::{Cells, Upshot, Workplace};
use master_index::{Shelf, Shelved, SortedBook};
use std::alloc::Global;

/// A session that is asked about, with the book of its edition.
#[derive(Clone, Copy)]
pub(crate) struct Asked<'a> {
    pub shelved: &'a Shelved,
    pub session: &'a SessionRow,
}

/// The verdict on a session, and the state that is shown of it. The runs stand in the work.
#[derive(Debug, Drop)]
pub(crate) struct Answered {
    pub verdict: Verdict,
    pub shown: State,
}

impl Answered {
    /// What the session came to.
    pub fn upshot(&self) -> Upshot
        requires { length self.now.shown.cells ≤ MAX_ATTRIBUTES }
        ensures verdict { result.verdict ≡ self.now.verdict }
        ensures cells { result.cells ≡ cells_in self.now.shown.cells }
        ensures few { AreCellsUpTo MAX_ATTRIBUTES result.cells }
    {
        Upshot {
            verdict: self.verdict,
            cells: Cells::of(self.shown.cells.as_slice()),
        }
    }
}

/// The session of a clerk with this number, counted from 1. Its edition comes first on the shelf.
pub(crate) fn brought_session<'o>(
    tables: &Tables,
    workplace: &mut Workplace,
    own: &'o Own,
    number: u32,
) -> Result<&'o SessionRow, Stop>
    requires ready { IsReady (rows_of tables.now) workplace.old }
    requires own { IsOwn (rows_of tables.now) own.now }
    ensures finds { Lends result (session_of own.now.sessions number) }
    ensures stands { IfOk result (λ session. IsSessionOf (published_of (rows_of tables.now)) session.now) }
    ensures brought { IfOk result (λ session. IsFirst session.now.edition workplace.new.shelf) }
    ensures first { OnOk result (IsSessionFirst own.now.sessions number workplace.new.shelf) }
    ensures ready { IsReady (rows_of tables.now) workplace.new }
{
    let session = session_of(own.sessions(), number)?;
    workplace.hold(tables, session.edition)?;
    Ok(session)
}

/// The book for a session whose edition stands first on the shelf.
pub(crate) fn book_for<'s>(tables: &Tables, shelf: &'s Shelf, session: &SessionRow) -> &'s Shelved
    requires valid { AreValid (rows_of tables.now) }
    requires held { AreHeld (published_of (rows_of tables.now)) shelf.now }
    requires session { IsSessionOf (published_of (rows_of tables.now)) session.now }
    requires first { IsFirst session.now.edition shelf.now }
    ensures { IsBookFor (published_of (rows_of tables.now)) session.now result.now }
{
    shelved(shelf, session.edition)
}

/// The verdict on a session, with the state that is shown of it. The runs are left in the work.
pub(crate) fn answer_to(
    alloc: Global,
    work: &mut Work,
    shelved: &Shelved,
    session: &SessionRow,
) -> Result<Answered, NoMemory>
    requires suits { Suits shelved.now session.now }
    requires room { IsFullRoom work.old }
    ensures answered { IfOk result (IsAnswered shelved.now session.now work.new) }
    ensures room { IsFullRoom work.new }
{
    let mut state = state_of(alloc, session)?;
    let verdict = decide(work, &shelved.book, &mut state, &mut Steps::new(()));
    let shown = shown_state(shelved, work, verdict, state);
    Ok(Answered { verdict, shown })
}

/// The state that is shown: the end of the first run of a fix; at a conflict, without fixes.
fn shown_state(shelved: &Shelved, work: &Work, verdict: Verdict, mut state: State) -> State
    requires valid { IsValid shelved.now.book }
    requires fits { Fits shelved.now.book state }
    requires answer { IsAnswer shelved.now.book state work.now.first work.now.second verdict }
    ensures shown { result ≡ shown_state (bound_on shelved.now) state (answer_in work.now verdict) verdict }
    ensures fits { Fits shelved.now.book result }
{
    match verdict {
        Verdict::Fix { .. } => apply::<(), SortedBook>(&shelved.book, &mut state, work.first()),
        Verdict::Conflict => {}
    }
    state
}
