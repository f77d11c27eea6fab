//! Answering one request.
ghost use Rattle.std.specs.Prelude.{◌≡◌, ◌≢◌};
ghost use Rattle.httparse.specs.Grammar.{RequestHead};
ghost use Rattle.httparse.specs.Spans.{span_bytes};
ghost use Rattle.http_cut.specs.Looks.{ShowsRequest};
ghost use Rattle.desk_words.specs.declared.command.Command.{Command as CommandOf};
ghost use Rattle.keeper_core.specs.Keeping.{IfTold, TellsNoMore, uses};
ghost use Rattle.machine_core.specs.Ticket.{IsNumbered};
ghost use Rattle.machine_core.specs.Weighing.{IsSettleable};
ghost use Rattle.desk_base.specs.Faults.{HasCause};
ghost use Rattle.http_desk.specs.Answered.{IsAnswered, IsAsked, Responds, asks_head, text_bytes};
ghost use Rattle.http_desk.specs.Checked.{Checked};
ghost use Rattle.http_desk.specs.Fronts.{command_over};
ghost use Rattle.http_desk.specs.Logs.{logged};
ghost use Rattle.http_desk.specs.Replies.{reply_text};
ghost use Rattle.http_desk.specs.Streams.{IfShown};

use crate::commanding::command_over;
use crate::front::Front;
use crate::log::Log;
use crate::refusal::Refused;
use crate::replying::{declined_text, reply_text};
use crate::text::Text;
use desk_base::{Failed, NoMemory, Sink, write_all};
use desk_words::Command;
use http_cut::{Intake, Request};
use keeper_core::Keeper;
use machine_core::{Machine, SettleFail, Weighed};
use std::alloc::Global;

/// Answers a request that stands in the intake, over a front, tells of it in a log and writes the response.
pub fn respond<M: Machine, K: Keeper, W: Sink, L: Log>(
    front: &Front<'_>,
    intake: &Intake,
    machine: &mut M,
    keeper: &mut K,
    sink: &mut W,
    request: &Request,
    closing: bool,
    log: &mut L,
) -> Result<(), Failed>
    requires told { IfTold (K.tables keeper.old) (M.rows machine.old) }
    requires shows { (head : RequestHead) × ShowsRequest intake.now request.now head }
    ensures responds { (head : RequestHead) → ShowsRequest intake.now request.now head
        → (responds : Responds front.now (K.is_steady keeper.old) (W.takes sink.old) (W.takes sink.new)
        (M.rows machine.old) closing (head, span_bytes intake.now request.now.body) (M.rows machine.new)
        (uses K.calls K.faults keeper.old) (uses K.calls K.faults keeper.new) (W.written sink.old)
        (W.written sink.new) result)
        × IfShown (L.line log.new) (logged (head, span_bytes intake.now request.now.body) responds.text) }
    ensures told { IfTold (K.tables keeper.new) (M.rows machine.new) }
    ensures no_more { TellsNoMore (K.tables keeper.old) (K.tables keeper.new) }
    ensures steady { K.is_steady keeper.old → K.is_steady keeper.new }
    ensures cause { HasCause (W.write_faults sink.old) (W.write_faults sink.new) result }
{
    let text = answer(front, intake, machine, keeper, request, closing);
    let bytes = intake.bytes();
    log.tell(
        request.method.of(bytes),
        request.target.of(bytes),
        text.bytes(),
    );
    write_all(sink, text.bytes())
}

/// What is answered to a request that stands in the intake, as its text. What it changes is kept.
fn answer<M: Machine, K: Keeper>(
    front: &Front<'_>,
    intake: &Intake,
    machine: &mut M,
    keeper: &mut K,
    request: &Request,
    closing: bool,
) -> Text
    requires told { IfTold (K.tables keeper.old) (M.rows machine.old) }
    requires shows { (head : RequestHead) × ShowsRequest intake.now request.now head }
    ensures answered { (head : RequestHead) → ShowsRequest intake.now request.now head
        → IsAnswered (K.is_steady keeper.old) (M.rows machine.old)
        (command_over front.now (head, span_bytes intake.now request.now.body)) closing
        (asks_head (head, span_bytes intake.now request.now.body)) (M.rows machine.new) (text_bytes result)
        (uses K.calls K.faults keeper.old) (uses K.calls K.faults keeper.new) }
    ensures told { IfTold (K.tables keeper.new) (M.rows machine.new) }
    ensures no_more { TellsNoMore (K.tables keeper.old) (K.tables keeper.new) }
    ensures steady { K.is_steady keeper.old → K.is_steady keeper.new }
{
    let alloc = intake.allocator();
    let asks_head = request.method.of(intake.bytes()) == b"HEAD".as_slice();
    match command_over(front, intake, request) {
        Ok(command) => perform(alloc, machine, keeper, &command, closing, asks_head),
        Err(why) => declined_text(alloc, &why, closing, asks_head),
    }
}

/// What the machine replies to a command, as its text, which is made before anything is kept.
fn perform<M: Machine, K: Keeper>(
    alloc: Global,
    machine: &mut M,
    keeper: &mut K,
    command: &Command,
    closing: bool,
    asks_head: bool,
) -> Text
    requires told { IfTold (K.tables keeper.old) (M.rows machine.old) }
    requires numbered { IsNumbered command.now }
    ensures answered { IsAnswered (K.is_steady keeper.old) (M.rows machine.old) (Ok command.now) closing asks_head
        (M.rows machine.new) (text_bytes result) (uses K.calls K.faults keeper.old)
        (uses K.calls K.faults keeper.new) }
    ensures told { IfTold (K.tables keeper.new) (M.rows machine.new) }
    ensures no_more { TellsNoMore (K.tables keeper.old) (K.tables keeper.new) }
    ensures steady { K.is_steady keeper.old → K.is_steady keeper.new }
{
    let weighed = machine.weigh(command);
    match reply_text(alloc, &weighed.reply, closing, asks_head) {
        Ok(text) => settle(machine, keeper, weighed, text, closing, asks_head),
        Err(NoMemory) => Text::Fixed(Refused::NoMemory.text(closing, asks_head)),
    }
}

/// Keeps what was weighed, and hands out its text, or why it was not kept.
fn settle<M: Machine, K: Keeper>(
    machine: &mut M,
    keeper: &mut K,
    weighed: Weighed,
    text: Vec<u8>,
    closing: bool,
    asks_head: bool,
) -> Text
    requires told { IfTold (K.tables keeper.old) (M.rows machine.old) }
    requires settleable { IsSettleable (M.rows machine.old) weighed }
    ensures answered { (asks : Checked CommandOf) → IsAsked (M.rows machine.old) asks weighed.reply weighed.changes
        → text.items ≡ reply_text weighed.reply closing asks_head
        → IsAnswered (K.is_steady keeper.old) (M.rows machine.old) asks closing asks_head
        (M.rows machine.new) (text_bytes result) (uses K.calls K.faults keeper.old)
        (uses K.calls K.faults keeper.new) }
    ensures told { IfTold (K.tables keeper.new) (M.rows machine.new) }
    ensures no_more { TellsNoMore (K.tables keeper.old) (K.tables keeper.new) }
    ensures steady { K.is_steady keeper.old → K.is_steady keeper.new }
{
    match machine.settle(keeper, weighed) {
        Ok(_) => Text::Made(text),
        Err(SettleFail::Unavailable) => Text::Fixed(Refused::Unavailable.text(closing, asks_head)),
        Err(SettleFail::NoMemory) => Text::Fixed(Refused::NoMemory.text(closing, asks_head)),
    }
}
