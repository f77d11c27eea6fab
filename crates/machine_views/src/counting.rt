//! What sessions come to, counted.
ghost use Rattle.std.specs.Prelude.{◌≡◌, ◌+◌, ◌-◌, ◌≤◌, ◌^◌, ℕ, IfOk};
ghost use Rattle.desk_words.specs.Tables.{published_of, rows_of};
ghost use Rattle.machine_workplace.specs.Ready.{IsReady};
ghost use Rattle.machine_core.specs.Sessions.{IsSessionOf};
ghost use Rattle.machine_views.specs.Counts.{AreAtMost, one_more};
ghost use Rattle.machine_workplace.specs.Upshots.{IsUpshotOf};

use crate::answers::{answer_to, book_for};
use desk_base::NoMemory;
use desk_words::{SessionRow, Tables};
use fix_engine::Verdict;
use machine_core::hold;
use machine_workplace::{SessionAt, Upshot, Workplace};

/// What the session at a place comes to: as it is known, or decided now and kept.
pub(crate) fn upshot_at(
    tables: &Tables,
    workplace: &mut Workplace,
    at: SessionAt,
    session: &SessionRow,
) -> Result<Upshot, NoMemory>
    requires ready { IsReady (rows_of tables.now) workplace.old }
    requires session { IsSessionOf (published_of (rows_of tables.now)) session.now }
    ensures upshot { IfOk result (IsUpshotOf (published_of (rows_of tables.now)) session.now) }
    ensures ready { IsReady (rows_of tables.now) workplace.new }
{
    if let Some(upshot) = workplace.upshots.known(at, session) {
        return Ok(upshot);
    }
    workplace.hold(tables, session.edition)?;
    let shelved = book_for(tables, &workplace.shelf, session);
    let answered = answer_to(workplace.alloc, &mut workplace.room, shelved, session)?;
    let upshot = answered.upshot();
    workplace.upshots.note(at, session, upshot);
    Ok(upshot)
}

/// How many have each verdict.
#[derive(Clone, Copy, Debug, PartialEq, Eq)]
pub(crate) struct Verdicts {
    pub certain: u64,
    pub partial: u64,
    pub conflict: u64,
}

impl Verdicts {
    /// None yet.
    pub fn none() -> Verdicts
        ensures { result ≡ record { certain = 0; partial = 0; conflict = 0 } }
    {
        Verdicts {
            certain: 0,
            partial: 0,
            conflict: 0,
        }
    }

    /// One more of this verdict.
    pub fn with(self, verdict: Verdict) -> Verdicts
        requires { AreAtMost (2 ^ 64 - 2) self }
        ensures more { result ≡ one_more self verdict }
        ensures most { (most : ℕ) → AreAtMost most self → AreAtMost (most + 1) result }
    {
        match verdict {
            Verdict::Fix { certain: true, .. } => Verdicts {
                certain: self.certain + 1,
                ..self
            },
            Verdict::Fix { certain: false, .. } => Verdicts {
                partial: self.partial + 1,
                ..self
            },
            Verdict::Conflict => Verdicts {
                conflict: self.conflict + 1,
                ..self
            },
        }
    }
}
