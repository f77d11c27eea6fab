//! The session that a request names.
ghost use Rattle.std.specs.Prelude.{◌≡◌, ◌-◌, ◌≤◌, OnOk, IfOk, Some, slice_get};
ghost use Rattle.std.specs.Option.{option_copied};
ghost use Rattle.machine_core.specs.Finding.{session_at};
ghost use Rattle.machine_core.specs.Outcomes.{Finds, Lends, WantsNone};
ghost use Rattle.machine_core.specs.Tests.{active, active_session, session_of};

use crate::stop::Stop;
use desk_words::{Kind, Refusal, SessionRow, Stage};

/// The session with this number, counted from 1; refused where there is none. No want of memory is answered.
pub fn session_of(sessions: &[SessionRow], number: u32) -> Result<&SessionRow, Stop>
    ensures finds { Lends result (session_of sessions.now number) }
    ensures memory { WantsNone result }
    ensures counted { OnOk result (1 ≤ number) }
    ensures stands { IfOk result (λ session. slice_get sessions.now (number - 1) ≡ Some session.now) }
{
    match session_at(sessions, number) {
        Some(session) => Ok(session),
        None => Err(Stop::Refused(Refusal::NoSuch(Kind::Session))),
    }
}

/// The session with this number, counted from 1, if there is one.
pub fn session_at(sessions: &[SessionRow], number: u32) -> Option<&SessionRow>
    ensures { option_copied result ≡ session_at sessions.now number }
{
    if number == 0 {
        None
    } else {
        sessions.get(number as usize - 1)
    }
}

/// The session is active. No want of memory is answered.
pub fn active(session: &SessionRow) -> Result<(), Stop>
    ensures finds { Finds result (active session.now) }
    ensures memory { WantsNone result }
{
    match session.stage {
        Stage::Active => Ok(()),
        stage @ (Stage::Committed | Stage::Abandoned) => Err(Stop::Refused(Refusal::Closed(stage))),
    }
}

/// The session with this number, counted from 1, which is active. No want of memory is answered.
pub fn active_session(sessions: &[SessionRow], number: u32) -> Result<&SessionRow, Stop>
    ensures finds { Lends result (active_session sessions.now number) }
    ensures memory { WantsNone result }
    ensures counted { OnOk result (1 ≤ number) }
    ensures stands { IfOk result (λ session. slice_get sessions.now (number - 1) ≡ Some session.now) }
{
    let session = session_of(sessions, number)?;
    active(session)?;
    Ok(session)
}
