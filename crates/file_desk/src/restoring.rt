//! A dump that is restored into the files at a path.
ghost use Rattle.std.specs.Prelude.{◌≡◌, map, string_bytes};
ghost use Rattle.sqlite.specs.WalFiles.{image_at};
ghost use Rattle.desk_links.specs.Doors.{link_seen};
ghost use Rattle.keeper_sqlite.specs.Files.{told_opened};
ghost use Rattle.restore_run.specs.Ends.{end_code};
ghost use Rattle.file_desk.specs.Over.{RestoresOver};

use crate::telling::Called;
use desk_base::{Both, Sink, Source, Str};
use keeper_sqlite::FileKeeper;
use restore_run::{RestoreEnd, restore_desk};
use sqlite::{FileFrom, FileStore, Start};
use std::fs;

/// What restoring leaves: how it ended, and the keeper of its files, of which `S` says what they held at first. They
/// are open, if it opened them.
pub type Restoring<'r, S> = (RestoreEnd, FileKeeper<'r, S, FileStore<FileFrom<S>>>);

/// Whether something stands at a path. Where that can't be told it counts as nothing, and what opens the path refuses.
pub fn is_there(rt: &HostRuntime, path: &str) -> bool {
    fs::exists(rt, path).unwrap_or(false)
}

/// Makes the desk whose dump the link has left, as `restore_desk` of `restore_run` does, in the files at a path. These
/// held at first what `S` says. Files that are refused give status 4 (docs/formats.md, *Statuses of
/// `fixdesk_restore`*).
pub fn restore_over<'r, S: Start, R: Source, W: Sink>(
    rt: &'r HostRuntime,
    words: &[String],
    path: Str,
    start: S,
    link: &mut Both<R, W>,
) -> Restoring<'r, S>
    ensures { let seen = link_seen R.Source W.Sink in
        RestoresOver (image_at S.Start) (map string_bytes words.now) (seen link.old) (seen link.new)
        (told_opened result.1.tables)
        (record { calls = result.1.calls; faults = result.1.faults }) result.0 }
{
    let mut keeper = FileKeeper::over(rt, path, start);
    let end = restore_desk(rt.alloc(), words, &mut keeper, link);
    (end, keeper)
}

/// Closes the files, says on standard error why the exit status is another than 0, and answers the status, whatever
/// comes of the close. Where tables were loaded, it copies all from the log into the database file.
pub fn end_restoring<S: Start>(
    rt: &HostRuntime,
    called: Called<'_>,
    restoring: Restoring<'_, S>,
) -> u8
    ensures { result ≡ end_code restoring.entry.0 }
{
    let (end, keeper) = restoring;
    let fault = keeper.fault();
    drop(keeper.close());
    called.tell_restoring(rt, end, fault);
    end.code()
}
