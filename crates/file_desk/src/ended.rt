//! A run over files, and its end.
ghost use Rattle.std.specs.Prelude.{◌≡◌};

use crate::telling::Called;
use fixdesk_run::Said;
use keeper_sqlite::FileKeeper;
use sqlite::{FileFrom, FileStore, Start};

/// What a run leaves: the exit status, and the keeper of its files, of which `S` says what they held at first. They are
/// open, if the run opened them.
pub type Run<'r, S> = (u8, FileKeeper<'r, S, FileStore<FileFrom<S>>>);

/// Closes the files of a run, says on standard error why its exit status is another than 0, and answers the status,
/// whatever comes of the close. Where tables were loaded, it copies all from the log into the database file; where that
/// fails, it stands in the log beside it.
pub fn end<S: Start>(rt: &HostRuntime, called: Called<'_>, run: Run<'_, S>, said: &Said) -> u8
    ensures { result ≡ run.entry.0 }
{
    let (code, keeper) = run;
    let fault = keeper.fault();
    drop(keeper.close());
    called.tell(rt, code, fault, said);
    code
}
