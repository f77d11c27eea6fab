//! The desk of `fixdeskd` over the files at a path.
ghost use Rattle.std.specs.Prelude.{◌≡◌, map, string_bytes, None};
ghost use Rattle.sqlite.specs.WalFiles.{image_at};
ghost use Rattle.keeper_sqlite.specs.Files.{told_opened};
ghost use Rattle.fixdesk_run.specs.Link.{link_with};
ghost use Rattle.file_desk.specs.Over.{ServesOver};

use crate::ended::Run;
use desk_base::{Sink, Str};
use desk_links::Listener;
use fixdesk_run::serve;
use keeper_sqlite::FileKeeper;
use session_machine::Desk;
use sqlite::Start;

/// Serves the links of a door, as the words say, which are without the program's name, as `serve` of `fixdesk_run`
/// does, over the tables in the files at a path. These held at first what `S` says. Files that are refused
/// give status 4 (docs/formats.md, *Statuses of `fixdeskd`*).
pub fn serve_over<'r, S: Start, L: Listener, W: Sink>(
    rt: &'r HostRuntime,
    words: &[String],
    path: Str,
    start: S,
    door: &mut L,
    out: &mut W,
) -> Run<'r, S>
    requires { (L.seen door.old).live ≡ 0 }
    ensures serves { let link = link_with W.Sink None 0 in
        ServesOver (image_at S.Start) (map string_bytes words.now) (link out.old) (L.seen door.old) (link out.new)
        (L.seen door.new) (told_opened result.1.tables)
        (record { calls = result.1.calls; faults = result.1.faults }) result.0 }
    ensures idle { (L.seen door.new).live ≡ 0 }
{
    let mut keeper = FileKeeper::over(rt, path, start);
    let code = serve::<Desk, _, _, _>(rt.alloc(), words, &mut keeper, door, out);
    (code, keeper)
}
