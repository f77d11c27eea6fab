//! Whether a write is a new one, or the last one again.
ghost use Rattle.std.specs.Prelude.{◌≡◌, ◌≤◌, ◌↔◌, IfOk, IsTrue};
ghost use Rattle.desk_base.specs.declared.limits.TheConstants.{MAX_REQUEST};
ghost use Rattle.machine_core.specs.Outcomes.{Finds, WantsNone};
ghost use Rattle.machine_core.specs.Ticket.{IsNumbered, ticketed, use_of};

use crate::stop::Stop;
use desk_base::{Duplicate, MAX_REQUEST, NoMemory};
use desk_words::{Act, ClerkRow, Command, Refusal, Ticket};

/// What the number of a write says.
#[derive(Clone, Copy, Debug, PartialEq, Eq)]
pub enum Use {
    /// It follows the last one.
    Fresh,
    /// It is the last one again, of the same request.
    Repeated,
}

/// Whether a write has a number that a write may have. A look has none.
pub fn is_numbered(command: &Command) -> bool
    ensures { IsTrue result ↔ IsNumbered command.now }
{
    match command {
        Command::Steward(ticket, _) | Command::Clerk(_, ticket, _) => {
            1 <= ticket.number && ticket.number <= MAX_REQUEST
        }
        Command::Look(_, _) | Command::Desk(_) => true,
    }
}

/// Whether a write of a caller is a new one, or the last one again. No want of memory is answered.
pub fn use_of(row: &ClerkRow, ticket: &Ticket) -> Result<Use, Stop>
    requires { row.now.last ≤ MAX_REQUEST }
    ensures finds { Finds result (use_of row.now ticket.now) }
    ensures memory { WantsNone result }
{
    let last = row.last;
    if ticket.number < last {
        Err(Stop::Refused(Refusal::Stale(last)))
    } else if ticket.number > last + 1 {
        Err(Stop::Refused(Refusal::Gap(last)))
    } else if ticket.number > last {
        Ok(Use::Fresh)
    } else if row.digest == ticket.digest {
        Ok(Use::Repeated)
    } else {
        Err(Stop::Refused(Refusal::Reused(last)))
    }
}

/// The row of a caller whose write was accepted.
pub fn ticketed(
    row: &ClerkRow,
    ticket: &Ticket,
    act: Act,
    target: u32,
) -> Result<ClerkRow, NoMemory>
    ensures { IfOk result (λ made. made ≡ ticketed row.now ticket.now act target) }
{
    let name = row.name.copy()?;
    Ok(ClerkRow {
        name,
        last: ticket.number,
        digest: ticket.digest,
        act,
        target,
    })
}
