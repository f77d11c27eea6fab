//! The command `pipe`, which answers the requests that the link has left.
ghost use Rattle.std.specs.Prelude.{◌≡◌, ◌≤◌, Some};
ghost use Rattle.once_run.specs.Status.{status_code};
ghost use Rattle.fixdesk_run.specs.Pipe.{EndsPipe, end_status};
ghost use Rattle.fixdesk_run.specs.Run.{IsFaultless, TakesText};
ghost use Rattle.fixdesk_run.specs.World.{Later, world};
ghost use Rattle.fixdesk_run.specs.declared.task.Task.TheVariants.{Pipe};

use crate::opening::begin_machine;
use desk_base::{Both, Sink, Source};
use http_desk::{Ended, Front, serve_stream};
use keeper_core::Keeper;
use machine_core::Machine;
use once_run::Status;
use std::alloc::Global;

/// Answers the requests that the link has left, up to a limit, over the keeper's tables.
pub fn pipe<M: Machine + Drop, K: Keeper, S: Source, W: Sink>(
    alloc: Global,
    limit: u32,
    keeper: &mut K,
    link: &mut Both<S, W>,
) -> Status
    requires { 1 ≤ limit }
    ensures ended { let world = world S.Source W.Sink K.Keeper in
        EndsPipe (K.holds keeper.old) limit (world link.old keeper.old) (world link.new keeper.new) result }
    ensures later { let world = world S.Source W.Sink K.Keeper in
        Later (world link.old keeper.old) (world link.new keeper.new) }
    ensures complete { let world = world S.Source W.Sink K.Keeper in
        S.is_steady link.old.source → K.is_steady keeper.old
        → TakesText (W.takes link.old.sink) (Some (Pipe limit)) (world link.old keeper.old)
        → IsFaultless (W.takes link.old.sink) (Some (Pipe limit)) (world link.old keeper.old)
        (world link.new keeper.new) (status_code result) }
{
    match begin_machine::<M, K, W>(alloc, keeper, &mut link.sink) {
        Ok(mut machine) => end_status(serve_stream(
            alloc,
            &Front::bare(),
            &mut machine,
            keeper,
            link,
            limit,
        )),
        Err(status) => status,
    }
}

/// The status by which the end of a stream is told.
fn end_status(end: Ended) -> Status
    ensures { result ≡ end_status end }
{
    match end {
        Ended::Clean => Status::Done,
        Ended::Limit => Status::Limit,
        Ended::BadHead | Ended::Chunked | Ended::BodyLong | Ended::Truncated(_) => Status::Refused,
        Ended::ReadFault => Status::ReadFault,
        Ended::WriteFault => Status::WriteFault,
        Ended::NoMemory => Status::NoMemory,
    }
}
