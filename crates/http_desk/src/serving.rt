//! Serving a stream of requests.
ghost use Rattle.std.specs.Prelude.{◌≡◌, ◌≤◌, [], true};
ghost use Rattle.keeper_core.specs.Keeping.{IfTold};
ghost use Rattle.http_desk.specs.Logs.{LogsStream, ServesLogged};
ghost use Rattle.http_desk.specs.Refusals.{refused_rest, refusal_text};
ghost use Rattle.http_desk.specs.Scenes.{scene};
ghost use Rattle.http_desk.specs.Streams.{IfShown, IsEndOf, IsFaultless, RefusesRest, Streams, bad_end, fault_end};
ghost use Rattle.http_desk.specs.Turns.{ServesPromptly};

use crate::answering::respond;
use crate::front::Front;
use crate::log::{Log, NoLog};
use crate::refusal::Refused;
use desk_base::{Both, Failed, NoMemory, Sink, Source, write_all};
use http_cut::{BadRest, Intake, IntakeFault, Step};
use keeper_core::Keeper;
use machine_core::Machine;
use std::alloc::Global;

/// How a stream ended.
#[derive(Clone, Copy, Debug, PartialEq, Eq)]
pub enum Ended {
    /// After a whole request, or at once.
    Clean,
    /// As many requests were answered as may be.
    Limit,
    /// With a bad head.
    BadHead,
    /// With a head that says chunks.
    Chunked,
    /// With a head that says too long a body.
    BodyLong,
    /// So many bytes after the last whole request.
    Truncated(u64),
    /// The source could not be read.
    ReadFault,
    /// The sink could not be written to.
    WriteFault,
    /// There was no memory.
    NoMemory,
}

/// Answers the requests that a link has left, over a front, up to a limit, in their order.
pub fn serve_stream<M: Machine, K: Keeper, S: Source, W: Sink>(
    alloc: Global,
    front: &Front<'_>,
    machine: &mut M,
    keeper: &mut K,
    link: &mut Both<S, W>,
    limit: u32,
) -> Ended
    requires limit { 1 ≤ limit }
    requires told { IfTold (K.tables keeper.old) (M.rows machine.old) }

    // The answered requests are the first of the stream's, and each reply and the tables after it are the machine's.
    ensures streams { let scene = scene S.Source W.Sink M.Machine K.Keeper in
        Streams front.now limit (scene link.old machine.old keeper.old) (scene link.new machine.new keeper.new) result }

    // Each request is answered before the source is read on, and nothing is read after the one that reaches the limit.
    ensures prompt { let scene = scene S.Source W.Sink M.Machine K.Keeper in
        ServesPromptly S.reads front.now link.old.source link.new.source limit (scene link.old machine.old keeper.old)
        (scene link.new machine.new keeper.new) result }

    // Over a source and a keeper that do not fail no fault comes, but for want of room for what is due of this stream.
    ensures complete { let scene = scene S.Source W.Sink M.Machine K.Keeper in
        S.is_steady link.old.source → K.is_steady keeper.old
        → IsFaultless front.now (W.takes link.old.sink) limit (scene link.old machine.old keeper.old)
        (scene link.new machine.new keeper.new) result }
{
    match Intake::new(alloc) {
        Ok(mut intake) => serve_link(front, &mut intake, machine, keeper, link, limit, &mut NoLog),
        Err(NoMemory) => Ended::NoMemory,
    }
}

/// The same, with an intake that serves the links of many streams, one after another, and a log.
pub fn serve_link<M: Machine, K: Keeper, S: Source, W: Sink, L: Log>(
    front: &Front<'_>,
    intake: &mut Intake,
    machine: &mut M,
    keeper: &mut K,
    link: &mut Both<S, W>,
    limit: u32,
    log: &mut L,
) -> Ended
    requires limit { 1 ≤ limit }
    requires told { IfTold (K.tables keeper.old) (M.rows machine.old) }
    ensures streams { let scene = scene S.Source W.Sink M.Machine K.Keeper in
        Streams front.now limit (scene link.old machine.old keeper.old) (scene link.new machine.new keeper.new) result }
    ensures prompt { let scene = scene S.Source W.Sink M.Machine K.Keeper in
        ServesPromptly S.reads front.now link.old.source link.new.source limit (scene link.old machine.old keeper.old)
        (scene link.new machine.new keeper.new) result }
    ensures complete { let scene = scene S.Source W.Sink M.Machine K.Keeper in
        S.is_steady link.old.source → K.is_steady keeper.old
        → IsFaultless front.now (W.takes link.old.sink) limit (scene link.old machine.old keeper.old)
        (scene link.new machine.new keeper.new) result }

    // A log that shows its line shows that of the last request that was answered, or no bytes where none was.
    ensures logged { let scene = scene S.Source W.Sink M.Machine K.Keeper in
        LogsStream front.now limit (scene link.old machine.old keeper.old)
        (scene link.new machine.new keeper.new) result (L.line log.new) }
{
    intake.clear();
    log.clear();
    serve(front, intake, machine, keeper, link, limit, log)
}

/// The same, with an intake that holds no bytes, and a log without a line.
fn serve<M: Machine, K: Keeper, S: Source, W: Sink, L: Log>(
    front: &Front<'_>,
    intake: &mut Intake,
    machine: &mut M,
    keeper: &mut K,
    link: &mut Both<S, W>,
    limit: u32,
    log: &mut L,
) -> Ended
    requires limit { 1 ≤ limit }
    requires empty { intake.old ≡ [] }
    requires unlogged { IfShown (L.line log.old) [] }
    requires told { IfTold (K.tables keeper.old) (M.rows machine.old) }
    ensures { let scene = scene S.Source W.Sink M.Machine K.Keeper in
        ServesLogged S.reads front.now link.old.source link.new.source (S.is_steady link.old.source)
        (W.takes link.old.sink) (K.is_steady keeper.old) limit (scene link.old machine.old keeper.old)
        (scene link.new machine.new keeper.new) result (L.line log.new) }
{
    let mut answered: u32 = 0;
    'requests: while answered < limit {
        let step = match intake.next_step(&mut link.source) {
            Ok(step) => step,
            Err(fault) => return fault_end(fault),
        };
        let request = match step {
            Step::Whole(request) => request,
            Step::NeedMore(_) => return end_of(intake.bytes()),
            Step::Bad(kind, asks_head) => return refuse(&mut link.sink, kind, asks_head),
        };
        answered += 1;
        let closing = answered == limit;
        match respond(
            front,
            intake,
            machine,
            keeper,
            &mut link.sink,
            &request,
            closing,
            log,
        ) {
            Ok(()) => intake.skip(request.body.end),
            Err(Failed) => return Ended::WriteFault,
        }
    }
    Ended::Limit
}

/// How a stream ends, of which no more could be taken.
fn fault_end(fault: IntakeFault) -> Ended
    ensures { result ≡ fault_end fault }
{
    match fault {
        IntakeFault::Failed => Ended::ReadFault,
        IntakeFault::NoMemory => Ended::NoMemory,
    }
}

/// How a stream ends, with these bytes after its last request.
fn end_of(rest: &[u8]) -> Ended
    ensures { IsEndOf rest.now result }
{
    if rest.is_empty() {
        Ended::Clean
    } else {
        Ended::Truncated(rest.len() as u64)
    }
}

/// Writes the response to a bad rest, which ends the stream.
fn refuse<W: Sink>(sink: &mut W, kind: BadRest, asks_head: bool) -> Ended
    ensures { RefusesRest (W.takes sink.old) (W.written sink.old) (W.written sink.new) (W.write_faults sink.old)
        (W.write_faults sink.new) kind (refusal_text (refused_rest kind) true asks_head) result }
{
    let text = Refused::of_rest(kind).text(true, asks_head);
    match write_all(sink, text.as_bytes()) {
        Ok(()) => bad_end(kind),
        Err(Failed) => Ended::WriteFault,
    }
}

fn bad_end(kind: BadRest) -> Ended
    ensures { result ≡ bad_end kind }
{
    match kind {
        BadRest::BadHead => Ended::BadHead,
        BadRest::Chunked => Ended::Chunked,
        BadRest::BodyLong => Ended::BodyLong,
    }
}
