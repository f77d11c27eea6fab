//! The desk of `fixdesk_web` over the files at a path.
ghost use Rattle.std.specs.Prelude.{◌≡◌, map, string_bytes, None};
ghost use Rattle.sqlite.specs.WalFiles.{image_at};
ghost use Rattle.keeper_sqlite.specs.Files.{told_opened};
ghost use Rattle.fixdesk_run.specs.Link.{link_with};
ghost use Rattle.file_desk.specs.Over.{PagesOver};

use crate::ended::Run;
use desk_base::{Sink, Str};
use desk_links::Listener;
use keeper_sqlite::FileKeeper;
use session_machine::Desk;
use sqlite::Start;
use web_run::{PageTable, serve_pages};

/// Serves the links of a door and these pages, as the words say, which are without the program's name, as `serve_pages`
/// of `web_run` does, over the tables in the files at a path. These held at first what `S` says. Files that are refused
/// give status 4 (docs/formats.md, *Statuses of `fixdesk_web`*).
pub fn pages_over<'r, S: Start, P: PageTable, L: Listener, W: Sink>(
    rt: &'r HostRuntime,
    words: &[String],
    pages: &P,
    path: Str,
    start: S,
    door: &mut L,
    out: &mut W,
) -> Run<'r, S>
    requires { (L.seen door.old).live ≡ 0 }
    ensures serves { let link = link_with W.Sink None 0 in
        PagesOver (image_at S.Start) (P.listed pages.now) (map string_bytes words.now) (link out.old) (L.seen door.old)
        (link out.new) (L.seen door.new) (told_opened result.1.tables)
        (record { calls = result.1.calls; faults = result.1.faults }) result.0 }
    ensures idle { (L.seen door.new).live ≡ 0 }
{
    let mut keeper = FileKeeper::over(rt, path, start);
    let code = serve_pages::<Desk, _, _, _, _>(rt.alloc(), words, pages, &mut keeper, door, out);
    (code, keeper)
}
