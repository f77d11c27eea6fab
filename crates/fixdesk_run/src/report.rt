//! The command `report`, which writes the desk's report.
ghost use Rattle.std.specs.Prelude.{◌≡◌, IfOk, Some};
ghost use Rattle.once_run.specs.Status.{status_code};
ghost use Rattle.fixdesk_run.specs.Report.{EndsReport, IsReport, TellsReply};
ghost use Rattle.fixdesk_run.specs.Run.{IsFaultless, TakesText};
ghost use Rattle.fixdesk_run.specs.World.{Later, world};
ghost use Rattle.fixdesk_run.specs.declared.task.Task.TheVariants.{Report};

use crate::opening::begin_machine;
use desk_base::{Both, Failed, List, NoMemory, Sink, Source, write_all};
use desk_sheets::report_text;
use desk_words::{Command, DeskLook, Reply};
use keeper_core::Keeper;
use machine_core::Machine;
use once_run::Status;
use std::alloc::Global;

/// Writes the report over the sessions of all clerks in the keeper's tables.
pub fn report<M: Machine + Drop, K: Keeper, S: Source, W: Sink>(
    alloc: Global,
    keeper: &mut K,
    link: &mut Both<S, W>,
) -> Status
    ensures ended { let world = world S.Source W.Sink K.Keeper in
        EndsReport (K.holds keeper.old) (world link.old keeper.old) (world link.new keeper.new) result }
    ensures later { let world = world S.Source W.Sink K.Keeper in
        Later (world link.old keeper.old) (world link.new keeper.new) }
    ensures complete { let world = world S.Source W.Sink K.Keeper in
        K.is_steady keeper.old
        → TakesText (W.takes link.old.sink) (Some Report) (world link.old keeper.old)
        → IsFaultless (W.takes link.old.sink) (Some Report) (world link.old keeper.old) (world link.new keeper.new)
        (status_code result) }
{
    let mut machine = match begin_machine::<M, K, W>(alloc, keeper, &mut link.sink) {
        Ok(machine) => machine,
        Err(status) => return status,
    };
    let text = match report_of(alloc, &mut machine) {
        Ok(text) => text,
        Err(NoMemory) => return Status::NoMemory,
    };
    match write_all(&mut link.sink, text.as_slice()) {
        Ok(()) => Status::Done,
        Err(Failed) => Status::WriteFault,
    }
}

/// The text of the desk's report, which is refused for want of memory alone.
fn report_of<M: Machine>(alloc: Global, machine: &mut M) -> Result<List<u8>, NoMemory>
    ensures { IfOk result (IsReport (M.rows machine.old)) }
{
    let weighed = machine.weigh(&Command::Desk(DeskLook::Report));
    let text = reported(alloc, &weighed.reply);
    drop(weighed);
    text
}

/// The text of a report that is replied.
fn reported(alloc: Global, reply: &Reply) -> Result<List<u8>, NoMemory>
    ensures { IfOk result (TellsReply reply.now) }
{
    match reply {
        Reply::Report(sheet) => report_text(alloc, sheet),
        _ => Err(NoMemory),
    }
}
