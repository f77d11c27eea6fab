//! A clerk's requests: writes and looks.
ghost use Rattle.std.specs.Prelude.{◌≡◌, ◌<◌, ◌≤◌, IfOk, IfSome, length, position};
ghost use Rattle.std.specs.Str.{bytes_eq};
ghost use Rattle.desk_words.specs.Tables.{rows_of};
ghost use Rattle.desk_words.specs.declared.command.Command.TheVariants.{Clerk, Look as LookAt};
ghost use Rattle.desk_valid.specs.Valid.{AreValid};
ghost use Rattle.machine_workplace.specs.Ready.{IsReady};
ghost use Rattle.machine_core.specs.Machine.{clerk_of, machine};
ghost use Rattle.machine_core.specs.Outcomes.{Answers, Finds, WantsNone};
ghost use Rattle.machine_core.specs.Own.{own_of};
ghost use Rattle.session_machine.specs.Booked.{IsBooked};

mod changing;
mod writing;

use desk_base::{List, Str};
use desk_totals::Totalled;
use desk_words::{Change, ClerkRow, ClerkWork, Look, Refusal, Reply, Tables, Ticket};
use machine_core::{Own, Stop, Use, use_of};
use machine_views::look_reply;
use machine_workplace::Workplace;
use writing::{fresh, repeated};

/// What a write of the clerk with this name comes to: a repeat has the kept reply, a new one does what it asks.
pub fn clerk_write(
    totalled: &Totalled,
    workplace: &mut Workplace,
    name: &Str,
    ticket: &Ticket,
    work: &ClerkWork,
) -> Result<(Reply, List<Change>), Stop>
    requires ready { IsReady totalled.now workplace.old }
    requires numbered { 1 ≤ ticket.now.number }
    ensures answers { Answers result (machine totalled.now (Clerk name.now ticket.now work.now)) }
    ensures booked { IfOk result
        (λ made. IsBooked totalled.now (Clerk name.now ticket.now work.now) made.0 workplace.new.shelf) }
    ensures ready { IsReady totalled.now workplace.new }
{
    let tables = totalled.tables();
    let place = clerk_of(tables, name)?;
    let own = own_at(totalled, place);
    let used = use_of(own.row(), ticket)?;
    match used {
        Use::Repeated => repeated(tables, workplace, place, &own),
        Use::Fresh => fresh(tables, workplace, place, &own, ticket, work),
    }
}

/// What a look of the clerk with this name comes to. It changes nothing.
pub fn clerk_look(
    totalled: &Totalled,
    workplace: &mut Workplace,
    name: &Str,
    look: &Look,
) -> Result<(Reply, List<Change>), Stop>
    requires ready { IsReady totalled.now workplace.old }
    ensures answers { Answers result (machine totalled.now (LookAt name.now look.now)) }
    ensures booked { IfOk result (λ made. IsBooked totalled.now (LookAt name.now look.now) made.0 workplace.new.shelf) }
    ensures ready { IsReady totalled.now workplace.new }
{
    let tables = totalled.tables();
    let place = clerk_of(tables, name)?;
    let own = own_at(totalled, place);
    let reply = look_reply(tables, workplace, place, &own, look)?;
    Ok((reply, List::new(workplace.alloc)))
}

/// The place of the clerk with this name, counted from 0; the steward is none. No want of memory is answered.
fn clerk_of(tables: &Tables, name: &Str) -> Result<u32, Stop>
    requires { AreValid (rows_of tables.now) }
    ensures finds { Finds result (clerk_of tables.now.clerks.items name.now) }
    ensures memory { WantsNone result }
    ensures following { IfOk result (λ place. 0 < place) }
    ensures within { IfOk result (λ place. place < length tables.now.clerks.items) }
{
    let clerks = &tables.clerks.as_slice()[1..];
    match place_of(clerks, name.as_str()) {
        Some(place) => Ok(place as u32 + 1),
        None => Err(Stop::Refused(Refusal::NoClerk)),
    }
}

/// The place of the row with this name, counted from 0.
fn place_of(clerks: &[ClerkRow], name: &str) -> Option<usize>
    ensures place { result ≡ position (λ clerk. bytes_eq clerk.name name.now) clerks.now }
    ensures within { IfSome result (λ place. place < length clerks.now) }
{
    clerks.iter().position(|clerk| clerk.name.as_str() == name)
}

/// The own rows of the clerk at a place, counted from 0.
fn own_at(totalled: &Totalled, place: u32) -> Own
    requires { place < length totalled.now.clerks }
    ensures { result ≡ own_of totalled.now place }
{
    let place = place as usize;
    let active = totalled.active(place);
    let bytes = totalled.text_bytes(place);
    Own::at(totalled.tables(), place, active, bytes)
}
