//! What a clerk writes, one command a file: the tests in their order, and the deed.
ghost use Rattle.desk_words.specs.Tables.{published_of, rows_of};
ghost use Rattle.machine_workplace.specs.Ready.{IsReady};
ghost use Rattle.machine_core.specs.Machine.{deed_of};
ghost use Rattle.machine_core.specs.Outcomes.{Answers};
ghost use Rattle.machine_core.specs.Own.{IsOwn};

mod abandon;
mod batch;
mod bytes;
mod carry;
mod commit;
mod confirm;
mod enter;
mod opening;
mod withdraw;

pub use abandon::abandon_deed;
pub use batch::batch_deed;
pub use carry::carry_deed;
pub use commit::commit_deed;
pub use confirm::{confirm_deed, confirm_row};
use desk_words::{ClerkWork, Tables};
pub use enter::enter_deed;
use machine_core::{Deed, Own, Stop};
use machine_workplace::Workplace;
pub use withdraw::withdraw_deed;

/// What an accepted write of a clerk does. The book of the session's edition is brought to the front of the shelf, or
/// put there, where a test comes that needs it.
pub fn deed_of(
    tables: &Tables,
    workplace: &mut Workplace,
    own: &Own,
    written: &ClerkWork,
) -> Result<Deed, Stop>
    requires ready { IsReady (rows_of tables.now) workplace.old }
    requires own { IsOwn (rows_of tables.now) own.now }
    ensures answers { Answers result (deed_of (published_of (rows_of tables.now)) own.now written.now) }
    ensures ready { IsReady (rows_of tables.now) workplace.new }
{
    match written {
        ClerkWork::Enter {
            edition,
            cells,
            confirmed,
        } => enter_deed(tables, workplace, own, edition, cells, confirmed),
        ClerkWork::Confirm { session, cells } => {
            confirm_deed(tables, workplace, own, *session, cells.as_slice())
        }
        ClerkWork::Withdraw { session, names } => {
            withdraw_deed(tables, workplace, own, *session, names.as_slice())
        }
        ClerkWork::Commit { session, accept } => {
            commit_deed(tables, workplace, own, *session, *accept)
        }
        ClerkWork::Abandon { session } => abandon_deed(workplace.alloc, own, *session),
        ClerkWork::Batch { edition, body } => {
            batch_deed(tables, workplace, own, edition, body.as_slice())
        }
        ClerkWork::Carry { session, version } => carry_deed(
            workplace.alloc,
            tables,
            own,
            *session,
            *version,
        ),
    }
}
