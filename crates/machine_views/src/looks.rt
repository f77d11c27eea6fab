//! What a caller looks at, one look a file, and the reply to each look of a clerk.
ghost use Rattle.std.specs.Prelude.{◌≡◌, OnOk, is_ok};
ghost use Rattle.std.specs.Result.{ForOk};
ghost use Rattle.desk_words.specs.Tables.{published_of, rows_of};
ghost use Rattle.machine_workplace.specs.Ready.{IsReady};
ghost use Rattle.machine_core.specs.Look.{look_reply};
ghost use Rattle.machine_core.specs.Outcomes.{Answers};
ghost use Rattle.machine_core.specs.Own.{IsOwn};
ghost use Rattle.machine_views.specs.Looking.{EndsAsTold, IsLookFirst};

mod blocking;
mod body;
mod carry;
mod choosing;
mod contradictions;
mod counts;
mod derive;
mod edition;
mod explaining;
mod master_row;
mod previewing;
mod published;
mod records;
mod region;
mod report;
mod sessions;
mod suggest;
mod view;

use blocking::blocked_at;
pub use body::body_of;
use carry::carrying;
use choosing::choices_at;
pub use contradictions::contradictions_shown;
pub use derive::derived_sheet;
use desk_words::{Look, Reply, Tables};
pub use edition::edition_shown;
use explaining::explain;
use machine_core::{Own, Stop};
use machine_workplace::Workplace;
pub use master_row::row_shown;
use previewing::preview;
pub use published::catalogue;
use records::records_of;
pub use region::region_shown;
use report::clerk_report;
pub use report::desk_report;
use sessions::sessions_from;
use suggest::suggestion_of;
use view::view_at;

/// The reply to a look of the clerk at a place. Where it shows the session that it names, or advises on it, the edition
/// of that session comes first on the shelf.
pub fn look_reply(
    tables: &Tables,
    workplace: &mut Workplace,
    clerk: u32,
    own: &Own,
    look: &Look,
) -> Result<Reply, Stop>
    requires ready { IsReady (rows_of tables.now) workplace.old }
    requires own { IsOwn (rows_of tables.now) own.now }
    ensures answers { Answers result (look_reply (published_of (rows_of tables.now)) own.now look.now) }
    ensures first { OnOk result (IsLookFirst own.now.sessions look.now workplace.new.shelf) }
    ensures ready { IsReady (rows_of tables.now) workplace.new }
{
    match look {
        Look::View { session } => replied(view_at(tables, workplace, own, *session), Reply::View),
        Look::Suggest { session } => replied(
            suggestion_of(tables, workplace, own, *session),
            Reply::Suggested,
        ),
        Look::Preview { session, cells } => replied(
            preview(tables, workplace, own, *session, cells),
            Reply::View,
        ),
        Look::Report => {
            let sheet = clerk_report(tables, workplace, clerk, own)?;
            replied(Ok(sheet), Reply::Report)
        }
        Look::Records { edition, version } => replied(
            records_of(workplace.alloc, tables, own, edition, *version),
            Reply::Records,
        ),
        Look::Explain { session, name } => { explain(tables, workplace, own, *session, name) }
        Look::Carry { session, version } => replied(
            carrying(tables, workplace, own, *session, *version),
            Reply::Carried,
        ),
        Look::Sessions { from } => Ok(Reply::Sessions(sessions_from(
            workplace.alloc,
            tables,
            own,
            *from,
        )?)),
        Look::Choices { session } => replied(
            choices_at(tables, workplace, own, *session),
            Reply::Choices,
        ),
        Look::Blocked { session } => replied(
            blocked_at(tables, workplace, own, *session),
            Reply::Blocked,
        ),
    }
}

/// What was found, as a reply tells it. Where nothing was, it stops as that did.
fn replied<T, F: FnOnce(T) -> Reply>(found: Result<T, Stop>, as_reply: F) -> Result<Reply, Stop>
    requires { ForOk found (F.pre as_reply) }
    ensures told { EndsAsTold (F.post as_reply) found result }
    ensures variant { is_ok result ≡ is_ok found }
{
    found.map(as_reply)
}
