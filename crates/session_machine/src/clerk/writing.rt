//! A clerk's write: a new one, or the last one again.
ghost use Rattle.std.specs.Prelude.{◌≡◌, ◌<◌, length, IfOk};
ghost use Rattle.desk_words.specs.Tables.{rows_of};
ghost use Rattle.desk_words.specs.declared.clerk_work.ClerkWork.{ClerkWork as WorkOf};
ghost use Rattle.desk_words.specs.declared.command.Command.{Command as CommandOf};
ghost use Rattle.desk_words.specs.declared.command.Ticket.{Ticket as TicketOf};
ghost use Rattle.machine_workplace.specs.Ready.{IsReady};
ghost use Rattle.machine_core.specs.Outcomes.{Answers};
ghost use Rattle.machine_core.specs.Own.{own_of};
ghost use Rattle.machine_core.specs.declared.ticket.Use.TheVariants.{Fresh, Repeated};
ghost use Rattle.session_machine.specs.Booked.{IsBooked};
ghost use Rattle.session_machine.specs.Written.{clerk_changes};

use crate::clerk::changing::changes_of;
use desk_base::List;
use desk_words::{Change, ClerkWork, Reply, Tables, Ticket};
use machine_clerk::deed_of;
use machine_core::{Own, Stop};
use machine_views::{deed_reply, kept_reply};
use machine_workplace::Workplace;

/// The last write of the clerk at a place again: its kept reply, and no changes.
pub fn repeated(
    tables: &Tables,
    workplace: &mut Workplace,
    place: u32,
    own: &Own,
) -> Result<(Reply, List<Change>), Stop>
    requires ready { IsReady (rows_of tables.now) workplace.old }
    requires place { 0 < place }
    requires within { place < length tables.now.clerks.items }
    requires own { own.now ≡ own_of (rows_of tables.now) place }
    requires started { 0 < own.now.row.last }
    ensures answers { (ticket : TicketOf) (work : WorkOf)
        → Answers result (clerk_changes (rows_of tables.now) place ticket work Repeated) }
    ensures booked { (command : CommandOf) → IfOk result
        (λ made. IsBooked (rows_of tables.now) command made.0 workplace.new.shelf) }
    ensures ready { IsReady (rows_of tables.now) workplace.new }
{
    let row = own.row();
    let reply = kept_reply(tables, workplace, place, own, row.act, row.target)?;
    Ok((reply, List::new(workplace.alloc)))
}

/// A new write of the clerk at a place: its reply over the rows after it, and the changes of what it does.
pub fn fresh(
    tables: &Tables,
    workplace: &mut Workplace,
    place: u32,
    own: &Own,
    ticket: &Ticket,
    work: &ClerkWork,
) -> Result<(Reply, List<Change>), Stop>
    requires ready { IsReady (rows_of tables.now) workplace.old }
    requires place { 0 < place }
    requires within { place < length tables.now.clerks.items }
    requires own { own.now ≡ own_of (rows_of tables.now) place }
    ensures answers { Answers result (clerk_changes (rows_of tables.now) place ticket.now work.now Fresh) }
    ensures booked { (command : CommandOf) → IfOk result
        (λ made. IsBooked (rows_of tables.now) command made.0 workplace.new.shelf) }
    ensures ready { IsReady (rows_of tables.now) workplace.new }
{
    let deed = deed_of(tables, workplace, own, work)?;
    let reply = deed_reply(tables, workplace, place, own, &deed)?;
    let changes = changes_of(workplace.alloc, place, own.row(), ticket, deed)?;
    Ok((reply, changes))
}
