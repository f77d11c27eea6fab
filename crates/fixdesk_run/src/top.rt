//! The top call of the program `fixdesk`.
ghost use Rattle.std.specs.Prelude.{◌≡◌, ◌≤◌, length, map, string_bytes};
ghost use Rattle.desk_links.specs.Doors.{link_seen};
ghost use Rattle.once_run.specs.Status.{status_code};
ghost use Rattle.fixdesk_run.specs.Run.{AreSteady, Ends, IsFaultless, Leaves, TakesText};
ghost use Rattle.fixdesk_run.specs.Task.{IsLimited, task_of};
ghost use Rattle.fixdesk_run.specs.Usage.{EndsUsage, usage_line};
ghost use Rattle.fixdesk_run.specs.World.{Later, world};

use crate::make::make;
use crate::pipe::pipe;
use crate::report::report;
use crate::task::{Task, task_of};
use desk_base::{Both, Failed, Sink, Source, write_all};
use keeper_core::Keeper;
use machine_core::Machine;
use once_run::{Said, Status, once};
use std::alloc::Global;

/// The line that answers words which are no command.
const USAGE: &[u8] = b"usage: fixdesk once | pipe [--limit N] | report | make N START\n";

/// Does what the words ask for, which are without the program's name, and answers the exit status
/// (docs/formats.md, *Statuses of `fixdesk`*).
///
/// `once` takes the link's bytes, at most 1,048,577 of them, and writes the answer to the case that they
/// are, with status 0, or the line that refuses them, with status 7. `pipe` begins a machine `M` over the keeper's
/// tables and answers the requests that the link has left, at most 100,000 or as many as `--limit` says: with status 0
/// to the end of the bytes, 7 where they end otherwise than after a whole request, 8 at the limit. `report` writes the
/// report over all sessions in the keeper's tables, with status 0. `make N START` serves a stream of its own, with N
/// sessions, over an empty desk in memory, and writes how these sessions stand, with status 0; it touches neither the
/// keeper nor what the link has left. All other words are answered with the usage line, with status 1. A link that
/// fails gives 2 or 3, a keeper that fails at the beginning 4, want of memory 5, and damaged tables a line that names
/// the first damaged row, with status 6. What else is to be said of the end is left in `said`.
pub fn run<M: Machine + Drop, K: Keeper, S: Source, W: Sink>(
    alloc: Global,
    words: &[String],
    keeper: &mut K,
    link: &mut Both<S, W>,
    said: &mut Said,
) -> u8
    ensures leaves { let world = world S.Source W.Sink K.Keeper in
        Leaves (K.holds keeper.old) (map string_bytes words.now) (world link.old keeper.old)
        (world link.new keeper.new) result }
    ensures complete { let world = world S.Source W.Sink K.Keeper in
        let task = task_of (map string_bytes words.now) in
        AreSteady (S.is_steady link.old.source) (K.is_steady keeper.old) task
        → TakesText (W.takes link.old.sink) task (world link.old keeper.old)
        → IsFaultless (W.takes link.old.sink) task (world link.old keeper.old) (world link.new keeper.new) result }
{
    perform::<M, K, S, W>(alloc, task_of(words), keeper, link, said).code()
}

/// Performs a task, or tells the usage where there is none.
fn perform<M: Machine + Drop, K: Keeper, S: Source, W: Sink>(
    alloc: Global,
    task: Option<Task>,
    keeper: &mut K,
    link: &mut Both<S, W>,
    said: &mut Said,
) -> Status
    requires { IsLimited task }
    ensures ended { let world = world S.Source W.Sink K.Keeper in
        Ends (K.holds keeper.old) task (world link.old keeper.old) (world link.new keeper.new) result }
    ensures later { let world = world S.Source W.Sink K.Keeper in
        Later (world link.old keeper.old) (world link.new keeper.new) }
    ensures complete { let world = world S.Source W.Sink K.Keeper in
        AreSteady (S.is_steady link.old.source) (K.is_steady keeper.old) task
        → TakesText (W.takes link.old.sink) task (world link.old keeper.old)
        → IsFaultless (W.takes link.old.sink) task (world link.old keeper.old) (world link.new keeper.new)
        (status_code result) }
{
    match task {
        Some(Task::Once) => once(alloc, link, said),
        Some(Task::Pipe(limit)) => pipe::<M, K, S, W>(alloc, limit, keeper, link),
        Some(Task::Report) => report::<M, K, S, W>(alloc, keeper, link),
        Some(Task::Make { sessions, start }) => make::<M, S, W>(alloc, sessions, start, link),
        None => tell_usage(link),
    }
}

/// Writes the usage line.
fn tell_usage<S: Source, W: Sink>(link: &mut Both<S, W>) -> Status
    ensures ended { let seen = link_seen S.Source W.Sink in
        EndsUsage (seen link.old) (seen link.new) result }
    ensures read_faults { S.read_faults link.old.source ≤ S.read_faults link.new.source }
    ensures write_faults { W.write_faults link.old.sink ≤ W.write_faults link.new.sink }
    ensures complete { W.takes link.old.sink (length usage_line) → status_code result ≡ 1 }
{
    match write_all(&mut link.sink, USAGE) {
        Ok(()) => Status::NoCommand,
        Err(Failed) => Status::WriteFault,
    }
}
