//! The desk of `fixdesk` over the files at a path.
ghost use Rattle.std.specs.Prelude.{map, string_bytes};
ghost use Rattle.sqlite.specs.WalFiles.{image_at};
ghost use Rattle.desk_links.specs.Doors.{link_seen};
ghost use Rattle.keeper_sqlite.specs.Files.{told_opened};
ghost use Rattle.file_desk.specs.Over.{RunsOver};

use crate::ended::Run;
use desk_base::{Both, Sink, Source, Str};
use fixdesk_run::{Said, run};
use keeper_sqlite::FileKeeper;
use session_machine::Desk;
use sqlite::Start;

/// Does what the words ask for, which are without the program's name, as `run` of `fixdesk_run` does, over the tables
/// in the files at a path. These held at first what `S` says. Files that are refused give status 4 (docs/formats.md,
/// *Statuses of `fixdesk`*).
pub fn run_over<'r, S: Start, R: Source, W: Sink>(
    rt: &'r HostRuntime,
    words: &[String],
    path: Str,
    start: S,
    link: &mut Both<R, W>,
    said: &mut Said,
) -> Run<'r, S>
    ensures { let seen = link_seen R.Source W.Sink in
        RunsOver (image_at S.Start) (map string_bytes words.now) (seen link.old) (seen link.new)
        (told_opened result.1.tables)
        (record { calls = result.1.calls; faults = result.1.faults }) result.0 }
{
    let mut keeper = FileKeeper::over(rt, path, start);
    let code = run::<Desk, _, _, _>(rt.alloc(), words, &mut keeper, link, said);
    (code, keeper)
}
