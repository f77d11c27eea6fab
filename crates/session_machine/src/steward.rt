//! The steward's writes.
ghost use Rattle.std.specs.Prelude.{◌≡◌, ◌<◌, ◌≤◌, IfOk};
ghost use Rattle.desk_words.specs.Tables.{rows_of};
ghost use Rattle.desk_valid.specs.Valid.{AreValid};
ghost use Rattle.machine_workplace.specs.Ready.{IsReady};
ghost use Rattle.machine_core.specs.Machine.{machine, making_changes, steward_write};
ghost use Rattle.machine_core.specs.Outcomes.{Answers};
ghost use Rattle.machine_core.specs.Own.{own_of};
ghost use Rattle.desk_words.specs.declared.command.Command.TheVariants.{Steward};
ghost use Rattle.desk_words.specs.declared.command.Command.{Command as CommandOf};
ghost use Rattle.desk_words.specs.declared.command.Ticket.{Ticket as TicketOf};
ghost use Rattle.desk_words.specs.declared.steward_work.StewardWork.{StewardWork as WorkOf};
ghost use Rattle.machine_core.specs.declared.ticket.Use.TheVariants.{Fresh, Repeated};
ghost use Rattle.session_machine.specs.Booked.{IsBooked};

mod making;
mod regions;
mod versions;

use desk_base::{List, NoMemory};
use desk_totals::Totalled;
use desk_words::{Change, ClerkRow, Reply, StewardWork, Tables, Ticket};
use machine_core::{Making, Stop, Use, ticketed, use_of};
use machine_views::kept_made;
use machine_workplace::Workplace;
use making::made_by;
use std::alloc::Global;

/// What a write of the steward comes to: a repeat has the kept reply, a new one makes what it asks.
pub fn steward_write(
    totalled: &Totalled,
    workplace: &mut Workplace,
    ticket: &Ticket,
    work: &StewardWork,
) -> Result<(Reply, List<Change>), Stop>
    requires ready { IsReady totalled.now workplace.old }
    requires numbered { 1 ≤ ticket.now.number }
    ensures answers { Answers result (machine totalled.now (Steward ticket.now work.now)) }
    ensures booked { IfOk result
        (λ made. IsBooked totalled.now (Steward ticket.now work.now) made.0 workplace.new.shelf) }
    ensures ready { IsReady totalled.now workplace.new }
{
    let tables = totalled.tables();
    let row = steward_of(tables);
    match use_of(row, ticket)? {
        Use::Repeated => repeated(tables, workplace),
        Use::Fresh => {
            let (made, making) = made_by(totalled, workplace, work)?;
            let changes = making_changes(workplace.alloc, row, ticket, making)?;
            Ok((Reply::Made(made), changes))
        }
    }
}

/// The steward's row.
fn steward_of(tables: &Tables) -> &ClerkRow
    requires { AreValid (rows_of tables.now) }
    ensures { result.now ≡ (own_of (rows_of tables.now) 0).row }
{
    &tables.clerks.as_slice()[0]
}

/// The last write again: its kept reply, and no changes.
fn repeated(tables: &Tables, workplace: &mut Workplace) -> Result<(Reply, List<Change>), Stop>
    requires ready { IsReady (rows_of tables.now) workplace.old }
    requires started { 0 < (own_of (rows_of tables.now) 0).row.last }
    ensures answers { (ticket : TicketOf) (work : WorkOf)
        → Answers result (steward_write (rows_of tables.now) ticket work Repeated) }
    ensures booked { (command : CommandOf) → IfOk result
        (λ made. IsBooked (rows_of tables.now) command made.0 workplace.new.shelf) }
    ensures ready { IsReady (rows_of tables.now) workplace.new }
{
    let row = steward_of(tables);
    let made = kept_made(tables, workplace, row.act, row.target)?;
    Ok((Reply::Made(made), List::new(workplace.alloc)))
}

/// The changes of what was made: the steward's own row stands last.
fn making_changes(
    alloc: Global,
    row: &ClerkRow,
    ticket: &Ticket,
    making: Making,
) -> Result<List<Change>, NoMemory>
    ensures { IfOk result (λ changes. changes ≡ making_changes row.now ticket.now making) }
{
    let Making {
        change,
        act,
        target,
    } = making;
    let mut changes = List::new(alloc);
    changes.push(change)?;
    changes.push(Change::Clerk(0, ticketed(row, ticket, act, target)?))?;
    Ok(changes)
}
