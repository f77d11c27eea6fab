//! The command that a whole request is.
ghost use Rattle.std.specs.Prelude.{IfOk};
ghost use Rattle.httparse.specs.Grammar.{RequestHead};
ghost use Rattle.httparse.specs.Spans.{span_bytes};
ghost use Rattle.http_cut.specs.Looks.{ShowsRequest};
ghost use Rattle.machine_core.specs.Ticket.{IsNumbered};
ghost use Rattle.http_desk.specs.Checked.{Finds};
ghost use Rattle.http_desk.specs.Commands.{command_at, command_for};
ghost use Rattle.http_desk.specs.Fronts.{command_over};

use crate::asking::asked;
use crate::declined::{Declined, or_bad_body};
use crate::digest::digest_of;
use crate::front::Front;
use crate::parameters::route_in;
use desk_json::command_of;
use desk_words::{Command, Digest};
use http_cut::{Intake, Request, RouteMatch};
use std::alloc::Global;

/// The command that a whole request is over a front, or why it is answered before the machine.
pub fn command_over(
    front: &Front<'_>,
    intake: &Intake,
    request: &Request,
) -> Result<Command, Declined>
    requires { (head : RequestHead) × ShowsRequest intake.now request.now head }
    ensures command { (head : RequestHead) → ShowsRequest intake.now request.now head
        → Finds result (command_over front.now (head, span_bytes intake.now request.now.body)) }
    ensures numbered { IfOk result (λ command. IsNumbered command) }
{
    match front.stop(intake.bytes(), request) {
        Some(why) => Err(why),
        None => command_for(intake, request),
    }
}

/// The command that a whole request is, or the first test before the machine that it fails.
fn command_for(intake: &Intake, request: &Request) -> Result<Command, Declined>
    requires { (head : RequestHead) × ShowsRequest intake.now request.now head }
    ensures command { (head : RequestHead) → ShowsRequest intake.now request.now head
        → Finds result (command_for (head, span_bytes intake.now request.now.body)) }
    ensures numbered { IfOk result (λ command. IsNumbered command) }
{
    let bytes = intake.bytes();
    let found = asked(intake.routes(), bytes, request)?;
    let target = request.target.of(bytes);
    let body = request.body.of(bytes);
    command_at(intake.allocator(), &found, digest_of(target, body), body)
}

/// The command of a target that matched a pattern.
fn command_at(
    alloc: Global,
    found: &RouteMatch<'_, '_>,
    digest: Digest,
    body: &[u8],
) -> Result<Command, Declined>
    ensures command { Finds result (command_at found.now digest body.now) }
    ensures numbered { IfOk result (λ command. IsNumbered command) }
{
    let route = route_in(alloc, found)?;
    let read = command_of(alloc, &route, digest, body);
    or_bad_body(&route, read)
}
