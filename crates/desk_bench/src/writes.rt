//! Requests to a desk that have to be accepted.
ghost use Rattle.std.specs.Prelude.{◌≡◌, ◌≤◌};
ghost use Rattle.machine_core.specs.Ticket.{IsNumbered};

use desk_base::Str;
use desk_trials::KeptDesk;
use desk_words::{ClerkWork, Command, Digest, Reply, StewardWork, Ticket};
use std::test::Fail;

/// Makes the steward's write of this number.
pub fn publish(desk: &mut KeptDesk, number: u64, work: StewardWork) -> Result<(), Fail>
    requires first { 1 ≤ number }
    requires few { number ≤ 999999999999 }
{
    act(desk, Command::Steward(ticket(number), work))
}

/// Makes a clerk's write of this number.
pub fn write(desk: &mut KeptDesk, clerk: Str, number: u64, work: ClerkWork) -> Result<(), Fail>
    requires first { 1 ≤ number }
    requires few { number ≤ 999999999999 }
{
    act(desk, Command::Clerk(clerk, ticket(number), work))
}

/// Makes a request, and fails where it was refused. It alone owns a reply: each function that does costs a minute of
/// proof.
fn act(desk: &mut KeptDesk, command: Command) -> Result<(), Fail>
    requires { IsNumbered command }
{
    let reply = desk.act(&command);
    drop(command);
    let is_refused = is_refused(&reply);
    drop(reply);
    if is_refused {
        return Err(Fail::new("a request was refused"));
    }
    Ok(())
}

fn is_refused(reply: &Reply) -> bool {
    matches!(reply, Reply::Refused(_))
}

/// The ticket of this number. All have one digest, since no request comes again.
fn ticket(number: u64) -> Ticket
    ensures { result.number ≡ number }
{
    Ticket {
        number,
        digest: Digest { bytes: [7; 32] },
    }
}
