//! The command `make`, which serves the stream of the generator over an empty desk, and tells how its sessions stand.
ghost use Rattle.std.specs.Prelude.{◌≡◌, ◌++◌, ◌⊎◌, ◌^◌, ◌<◌, ◌≤◌, ℕ, List as ListOf, Some, codes, decimal, length};
ghost use Rattle.std.specs.Prelude.{option_copied, IfOk, OnOk};
ghost use Rattle.std.specs.List.{find};
ghost use Rattle.std.specs.Str.{bytes_eq};
ghost use Rattle.desk_links.specs.Doors.{link_seen};
ghost use Rattle.desk_made.specs.Made.{made_requests};
ghost use Rattle.desk_made.specs.Requests.{stream_of};
ghost use Rattle.desk_words.specs.Tables.{empty_rows};
ghost use Rattle.machine_core.specs.Starting.{AreStarted};
ghost use Rattle.once_run.specs.Status.{status_code};
ghost use Rattle.fixdesk_run.specs.Make.{AllAnswered, AllServed, EndsMake, IsSummary, IsTold, TellsReport, TellsSheet};
ghost use Rattle.fixdesk_run.specs.Make.{summary_line};

use desk_base::{Both, Failed, List, MemSource, NoMemory, Sink, Source, write_all};
use desk_links::DropSink;
use desk_made::made;
use desk_words::{Command, DeskLook, Reply, ReportLine, ReportSheet, Tables};
use http_cut::PIECE;
use http_desk::{Ended, Front, serve_stream};
use keeper_core::MemKeeper;
use machine_core::{Machine, Weighed};
use once_run::Status;
use std::alloc::Global;

/// How many requests the generator makes before those that open sessions.
const PUBLISHING: u32 = 5;

/// Serves the stream that opens so many sessions, by draws from a start, and writes how they stand.
pub fn make<M: Machine + Drop, S: Source, W: Sink>(
    alloc: Global,
    sessions: u32,
    start: u32,
    link: &mut Both<S, W>,
) -> Status
    requires most { sessions ≤ 5000 }
    requires start { start < 2 ^ 31 }
    ensures ended { let seen = link_seen S.Source W.Sink in
        EndsMake sessions start (seen link.old) (seen link.new) result }
    ensures read_faults { S.read_faults link.old.source ≤ S.read_faults link.new.source }
    ensures write_faults { W.write_faults link.old.sink ≤ W.write_faults link.new.sink }
    ensures complete { ((text : ListOf ℕ) → IsSummary sessions start text → W.takes link.old.sink (length text))
        → (status_code result ≡ 0) ⊎ (status_code result ≡ 5) }
{
    let text = match summary::<M>(alloc, sessions, start) {
        Ok(text) => text,
        Err(NoMemory) => return Status::NoMemory,
    };
    match write_all(&mut link.sink, text.as_slice()) {
        Ok(()) => Status::Done,
        Err(Failed) => Status::WriteFault,
    }
}

/// The summary of the desk that accepts all requests of the stream; where want of memory keeps it from that, there is
/// none.
fn summary<M: Machine + Drop>(
    alloc: Global,
    sessions: u32,
    start: u32,
) -> Result<List<u8>, NoMemory>
    requires most { sessions ≤ 5000 }
    requires start { start < 2 ^ 31 }
    ensures { IfOk result (IsSummary sessions start) }
{
    let mut machine = serve_made::<M>(alloc, sessions, start)?;
    told(alloc, &mut machine, sessions)
}

// ---- the desk

/// A machine that has answered all requests of the stream over an empty desk.
fn serve_made<M: Machine + Drop>(alloc: Global, sessions: u32, start: u32) -> Result<M, NoMemory>
    requires most { sessions ≤ 5000 }
    requires start { start < 2 ^ 31 }
    ensures { IfOk result (λ machine. AllAnswered sessions start (M.rows machine)) }
{
    let mut link = link_over(alloc, sessions, start)?;
    let mut keeper = empty_keeper(alloc)?;
    let limit = sessions + PUBLISHING + 1;
    serve_over(alloc, limit, &mut keeper, &mut link)
}

/// A machine over the keeper's tables that has answered all requests that the link has left, which are fewer than the
/// limit.
fn serve_over<M: Machine + Drop>(
    alloc: Global,
    limit: u32,
    keeper: &mut MemKeeper,
    link: &mut Both<MemSource, DropSink>,
) -> Result<M, NoMemory>
    requires { 1 ≤ limit }
    ensures { IfOk result (λ machine.
        AllServed limit link.old.source.left keeper.old.rows (M.rows machine)) }
{
    let mut machine = begin::<M>(alloc, keeper)?;
    match serve_stream(alloc, &Front::bare(), &mut machine, keeper, link, limit) {
        Ended::Clean => Ok(machine),
        _ => Err(NoMemory),
    }
}

/// A link over the stream, which drops what is written.
fn link_over(
    alloc: Global,
    sessions: u32,
    start: u32,
) -> Result<Both<MemSource, DropSink>, NoMemory>
    requires most { sessions ≤ 5000 }
    requires start { start < 2 ^ 31 }
    ensures { IfOk result (λ link. link.source.left ≡ stream_of (made_requests sessions start)) }
{
    let stream = made(alloc, sessions, start)?;
    Ok(Both {
        source: MemSource::new(stream, PIECE, List::new(alloc)),
        sink: DropSink,
    })
}

/// A keeper in memory of an empty desk, none of whose calls fails.
fn empty_keeper(alloc: Global) -> Result<MemKeeper, NoMemory>
    ensures { IfOk result (λ keeper. keeper.rows ≡ empty_rows) }
{
    Ok(MemKeeper::new(Tables::empty(alloc)?, List::new(alloc)))
}

/// A machine over the keeper's tables.
fn begin<M: Machine>(alloc: Global, keeper: &mut MemKeeper) -> Result<M, NoMemory>
    ensures { IfOk result (λ machine. AreStarted (Some keeper.old.rows) (Some keeper.new.rows) (M.rows machine)) }
{
    match M::start(alloc, keeper) {
        Ok(machine) => Ok(machine),
        // An empty desk has no damaged row, and this keeper fails no call.
        Err(_) => Err(NoMemory),
    }
}

// ---- the summary

/// The summary of the machine's tables, where as many requests were accepted as the generator makes.
fn told<M: Machine>(alloc: Global, machine: &mut M, sessions: u32) -> Result<List<u8>, NoMemory>
    requires { sessions ≤ 5000 }
    ensures { IfOk result (IsTold sessions (M.rows machine.old)) }
{
    let weighed = machine.weigh(&Command::Desk(DeskLook::Report));
    let text = told_by(alloc, &weighed, sessions);
    drop(weighed);
    text
}

/// The summary of a report that was weighed when as many requests were accepted as the generator makes.
fn told_by(alloc: Global, weighed: &Weighed, sessions: u32) -> Result<List<u8>, NoMemory>
    requires { sessions ≤ 5000 }
    ensures { IfOk result (TellsReport sessions weighed.now) }
{
    match &weighed.reply {
        Reply::Report(sheet) if weighed.turn == u64::from(sessions + PUBLISHING) => {
            summary_of(alloc, sheet)
        }
        _ => Err(NoMemory),
    }
}

/// The summary of a report.
fn summary_of(alloc: Global, sheet: &ReportSheet) -> Result<List<u8>, NoMemory>
    ensures { IfOk result (TellsSheet sheet.now) }
{
    match line_of_e(sheet.lines.as_slice()) {
        Some(counted) => summary_line(alloc, counted),
        None => Err(NoMemory),
    }
}

/// The line of the edition `e`.
fn line_of_e(lines: &[ReportLine]) -> Option<&ReportLine>
    ensures { option_copied result ≡ find (λ line. bytes_eq line.edition (codes "e")) lines.now }
{
    lines.iter().find(|line| line.edition.as_str() == "e")
}

/// The line that tells how the sessions of an edition stand.
fn summary_line(alloc: Global, counted: &ReportLine) -> Result<List<u8>, NoMemory>
    ensures { IfOk result (λ text. text ≡ summary_line counted.now) }
{
    let mut text = Vec::new(alloc);
    push_count(&mut text, "sessions ", counted.sessions)?;
    push_count(&mut text, " certain ", counted.certain)?;
    push_count(&mut text, " partial ", counted.partial)?;
    push_count(&mut text, " conflict ", counted.conflict)?;
    push_count(&mut text, " confirmed ", counted.confirmed)?;
    push_count(&mut text, " fixed ", counted.fixed)?;
    push_count(&mut text, " uncovered ", counted.uncovered)?;
    text.push(b'\n')?;
    Ok(List::from_vec(text))
}

/// Puts a word and a number after a text.
fn push_count(text: &mut Vec<u8>, word: &str, number: u64) -> Result<(), NoMemory>
    ensures { OnOk result (text.new.items ≡ text.old.items ++ word.now ++ decimal number) }
{
    let digits = number.to_string(*text.allocator())?;
    text.extend_from_slice(word.as_bytes())?;
    text.extend_from_slice(digits.as_bytes())?;
    Ok(())
}
