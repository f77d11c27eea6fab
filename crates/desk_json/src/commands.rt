//! The command that a route and a body are.
ghost use Rattle.std.specs.Prelude.{◌≡◌, ◌≢◌, Ok, Err, IfOk, IfErr};
ghost use Rattle.desk_words.specs.declared.desk_look.DeskLook.TheVariants as desk_looks;
ghost use Rattle.desk_words.specs.declared.look.Look.TheVariants as looks;
ghost use Rattle.desk_words.specs.declared.command.Command.TheVariants as commands;
ghost use Rattle.desk_words.specs.declared.steward_work.StewardWork.TheVariants.{Publish};
ghost use Rattle.desk_json.specs.Commands.{command_in};

use crate::bodies::abandon::abandon;
use crate::bodies::add_clerk::add_clerk;
use crate::bodies::add_derived::add_derived;
use crate::bodies::add_edition::proposed_edition;
use crate::bodies::add_region::add_region;
use crate::bodies::carry::carry;
use crate::bodies::commit::commit;
use crate::bodies::confirm::{confirm, preview};
use crate::bodies::desk_derive::desk_derive;
use crate::bodies::enter::enter;
use crate::bodies::passed_on::{batch, proposed_master, proposed_rulebook, proposed_schema};
use crate::bodies::withdraw::withdraw;
use crate::fault::JsonFault;
use crate::route::Route;
use desk_base::{Duplicate, NoMemory, Str};
use desk_words::{
    ClerkWork, Command, DeskLook, Digest, Look, Proposal, Publication, StewardWork, Ticket,
};
use std::alloc::Global;

/// The command that the route and the body are, or the first fault of the body (docs/api.md). A body that is TOML, CSV
/// or rule text is passed on as it stands, and a route without a body passes it over.
pub fn command_of(
    alloc: Global,
    route: &Route,
    digest: Digest,
    body: &[u8],
) -> Result<Command, JsonFault>
    ensures command { IfOk result (λ command. command_in route.now digest body.now ≡ Ok command) }
    ensures fault { IfErr result (λ fault. fault ≢ JsonFault.NoMemory
        → command_in route.now digest body.now ≡ Err fault) }
{
    match route {
        Route::AddClerk { n } => Ok(by_steward(*n, digest, add_clerk(alloc, body)?)),
        Route::AddSchema { n } => Ok(to_publish(*n, digest, proposed_schema(alloc, body)?)),
        Route::AddMaster { n, name } => {
            Ok(to_publish(*n, digest, proposed_master(alloc, name, body)?))
        }
        Route::AddRulebook {
            n,
            name,
            schema,
            version,
        } => {
            Ok(to_publish(
                *n,
                digest,
                proposed_rulebook(alloc, name, schema, *version, body)?,
            ))
        }
        Route::AddEdition { n, name } => {
            Ok(to_publish(*n, digest, proposed_edition(alloc, name, body)?))
        }
        Route::AddRegion {
            n,
            edition,
            version,
        } => { Ok(by_steward(*n, digest, add_region(alloc, edition, *version, body)?)) }
        Route::AddDerived {
            n,
            edition,
            version,
        } => { Ok(by_steward(*n, digest, add_derived(alloc, edition, *version, body)?)) }
        Route::Enter { clerk, n, edition } => {
            by_clerk(clerk, *n, digest, enter(alloc, edition, body)?)
        }
        Route::Confirm { clerk, n, session } => {
            by_clerk(clerk, *n, digest, confirm(alloc, *session, body)?)
        }
        Route::Withdraw { clerk, n, session } => {
            by_clerk(clerk, *n, digest, withdraw(alloc, *session, body)?)
        }
        Route::Commit { clerk, n, session } => {
            by_clerk(clerk, *n, digest, commit(alloc, *session, body)?)
        }
        Route::Abandon { clerk, n, session } => {
            by_clerk(clerk, *n, digest, abandon(alloc, *session, body)?)
        }
        Route::Batch { clerk, n, edition } => {
            by_clerk(clerk, *n, digest, batch(alloc, edition, body)?)
        }
        Route::Carry { clerk, n, session } => {
            by_clerk(clerk, *n, digest, carry(alloc, *session, body)?)
        }
        Route::View { clerk, session } => seen_by(clerk, Look::View { session: *session }),
        Route::Suggest { clerk, session } => seen_by(clerk, Look::Suggest { session: *session }),
        Route::Preview { clerk, session } => seen_by(clerk, preview(alloc, *session, body)?),
        Route::Report { clerk } => seen_by(clerk, Look::Report),
        Route::Records {
            clerk,
            edition,
            version,
        } => seen_by(clerk, records(edition, *version)?),
        Route::Explain {
            clerk,
            session,
            name,
        } => seen_by(clerk, explain(*session, name)?),
        Route::SeeCarry {
            clerk,
            session,
            version,
        } => seen_by(clerk, carry_seen(*session, *version)),
        Route::Sessions { clerk, from } => seen_by(clerk, Look::Sessions { from: *from }),
        Route::DeskReport => Ok(Command::Desk(DeskLook::Report)),
        Route::DeskDerive { edition, version } => {
            Ok(Command::Desk(desk_derive(alloc, edition, *version, body)?))
        }
        Route::DeskPublished => Ok(Command::Desk(DeskLook::Published)),
        Route::DeskEdition { edition, version } => {
            Ok(Command::Desk(desk_edition(edition, *version)?))
        }
        Route::DeskRow {
            master,
            version,
            row,
        } => Ok(Command::Desk(desk_row(master, *version, *row)?)),
        Route::DeskRegion {
            edition,
            version,
            region,
        } => Ok(Command::Desk(desk_region(edition, *version, *region)?)),
        Route::Choices { clerk, session } => seen_by(clerk, Look::Choices { session: *session }),
        Route::Blocked { clerk, session } => seen_by(clerk, Look::Blocked { session: *session }),
        Route::Body {
            what,
            name,
            version,
        } => Ok(Command::Desk(body_seen(*what, name, *version)?)),
        Route::DeskContradictions {
            edition,
            version,
            rule,
        } => Ok(Command::Desk(desk_contradictions(edition, *version, rule)?)),
        Route::CheckSchema => Ok(to_check(proposed_schema(alloc, body)?)),
        Route::CheckMaster { name } => Ok(to_check(proposed_master(alloc, name, body)?)),
        Route::CheckRulebook {
            name,
            schema,
            version,
        } => { Ok(to_check(proposed_rulebook(alloc, name, schema, *version, body)?)) }
        Route::CheckEdition { name } => Ok(to_check(proposed_edition(alloc, name, body)?)),
        Route::DeskDump => Ok(Command::Desk(DeskLook::Dump)),
    }
}

/// A write of the steward.
fn by_steward(n: u64, digest: Digest, work: StewardWork) -> Command
    ensures { result ≡ commands.Steward (record { number = n; digest = digest }) work }
{
    Command::Steward(Ticket { number: n, digest }, work)
}

/// The write of the steward that publishes a proposal.
fn to_publish(n: u64, digest: Digest, proposal: Proposal) -> Command
    ensures { result ≡ commands.Steward (record { number = n; digest = digest }) (Publish proposal) }
{
    by_steward(n, digest, StewardWork::Publish(proposal))
}

/// The look at what publishing a proposal would come to.
fn to_check(proposal: Proposal) -> Command
    ensures { result ≡ commands.Desk (desk_looks.Check proposal) }
{
    Command::Desk(DeskLook::Check(proposal))
}

/// A write of a clerk.
fn by_clerk(clerk: &Str, n: u64, digest: Digest, work: ClerkWork) -> Result<Command, JsonFault>
    ensures command { IfOk result (λ command.
        command ≡ commands.Clerk clerk.now (record { number = n; digest = digest }) work) }
    ensures fault { IfErr result (λ fault. fault ≡ JsonFault.NoMemory) }
{
    let clerk = clerk.copy()?;
    Ok(Command::Clerk(clerk, Ticket { number: n, digest }, work))
}

/// A look of a clerk.
fn seen_by(clerk: &Str, look: Look) -> Result<Command, JsonFault>
    ensures command { IfOk result (λ command. command ≡ commands.Look clerk.now look) }
    ensures fault { IfErr result (λ fault. fault ≡ JsonFault.NoMemory) }
{
    Ok(Command::Look(clerk.copy()?, look))
}

/// The look at a clerk's records over a version of an edition.
fn records(edition: &Str, version: u32) -> Result<Look, NoMemory>
    ensures { IfOk result (λ look. look ≡ looks.Records edition.now version) }
{
    Ok(Look::Records {
        edition: edition.copy()?,
        version,
    })
}

/// The look at why an attribute of a session is fixed.
fn explain(session: u32, name: &Str) -> Result<Look, NoMemory>
    ensures { IfOk result (λ look. look ≡ looks.Explain session name.now) }
{
    Ok(Look::Explain {
        session,
        name: name.copy()?,
    })
}

/// The look at a version of what was published as a text.
fn body_seen(what: Publication, name: &Str, version: u32) -> Result<DeskLook, NoMemory>
    ensures { IfOk result (λ look. look ≡ desk_looks.Body what name.now version) }
{
    Ok(DeskLook::Body {
        what,
        name: name.copy()?,
        version,
    })
}

/// The look at what carrying a session would change.
fn carry_seen(session: u32, version: u32) -> Look
    ensures { result ≡ looks.Carry session version }
{
    Look::Carry { session, version }
}

/// A look at an edition.
fn desk_edition(edition: &Str, version: u32) -> Result<DeskLook, NoMemory>
    ensures { IfOk result (λ look. look ≡ desk_looks.Edition edition.now version) }
{
    Ok(DeskLook::Edition {
        edition: edition.copy()?,
        version,
    })
}

/// A look at a row of a master.
fn desk_row(master: &Str, version: u32, row: u32) -> Result<DeskLook, NoMemory>
    ensures { IfOk result (λ look. look ≡ desk_looks.Row master.now version row) }
{
    Ok(DeskLook::Row {
        master: master.copy()?,
        version,
        row,
    })
}

/// A look at a region.
fn desk_region(edition: &Str, version: u32, region: u32) -> Result<DeskLook, NoMemory>
    ensures { IfOk result (λ look. look ≡ desk_looks.Region edition.now version region) }
{
    Ok(DeskLook::Region {
        edition: edition.copy()?,
        version,
        region,
    })
}

/// A look at the contradictions of a rule.
fn desk_contradictions(edition: &Str, version: u32, rule: &Str) -> Result<DeskLook, NoMemory>
    ensures { IfOk result (λ look. look ≡ desk_looks.Contradictions edition.now version rule.now) }
{
    Ok(DeskLook::Contradictions {
        edition: edition.copy()?,
        version,
        rule: rule.copy()?,
    })
}
