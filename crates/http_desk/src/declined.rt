//! Why a whole request is answered before the machine is asked.
ghost use Rattle.std.specs.Prelude.{◌≡◌};
ghost use Rattle.http_desk.specs.declared.declined.Declined.TheVariants as declined;
ghost use Rattle.http_desk.specs.declared.refusal.Refused.TheVariants as refused;
ghost use Rattle.http_desk.specs.Checked.{checks_json, declined_for, or_bad_body};

use crate::front::Page;
use crate::refusal::Refused;
use desk_base::NoMemory;
use desk_json::{JsonFault, Route};
use desk_words::Command;

/// Why a whole request is answered before the machine is asked.
#[derive(Debug, Drop)]
pub enum Declined {
    /// It fails a test of its head, or there was no memory.
    Refused(Refused),
    /// A page is shown.
    Shown(Page),
    /// Its body is not what its route wants.
    BadBody(JsonFault),
    /// Its body, which is to be checked, proposes no edition. A person is told why.
    BadProposal(JsonFault),
}

impl From<Refused> for Declined {
    ghost from_gives = { λ refusal result. result ≡ declined.Refused refusal };

    fn from(refusal: Refused) -> Declined {
        Declined::Refused(refusal)
    }
}

impl From<NoMemory> for Declined {
    ghost from_gives = { λ _ result. result ≡ declined.Refused refused.NoMemory };

    fn from(_want: NoMemory) -> Declined {
        Declined::Refused(Refused::NoMemory)
    }
}

impl Declined {
    /// Why a fault of its body declines a request with this route. Want of memory for the body is no fault of it.
    fn for_body(route: &Route, fault: JsonFault) -> Declined
        ensures { result ≡ declined_for route.now fault }
    {
        match fault {
            JsonFault::NoMemory => Declined::Refused(Refused::NoMemory),
            fault if checks_json(route) => Declined::BadProposal(fault),
            fault => Declined::BadBody(fault),
        }
    }
}

/// A command that was read, or why the fault of its body declines a request with this route.
pub fn or_bad_body(route: &Route, read: Result<Command, JsonFault>) -> Result<Command, Declined>
    ensures { result ≡ or_bad_body route.now read }
{
    match read {
        Ok(command) => Ok(command),
        Err(fault) => Err(Declined::for_body(route, fault)),
    }
}

/// Whether a route checks an edition, whose body is JSON.
fn checks_json(route: &Route) -> bool
    ensures { result ≡ checks_json route.now }
{
    match route {
        Route::CheckEdition { .. } => true,
        _ => false,
    }
}
