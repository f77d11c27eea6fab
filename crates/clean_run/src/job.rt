//! What the words ask for, and how it is done.
ghost use Rattle.std.specs.Prelude.{◌≡◌, ◌≢◌, ◌⊎◌, IfErr, IfOk};
ghost use Rattle.std.specs.Io.KnownBytes.{Appends};
ghost use Rattle.desk_base.specs.Faults.{AppendsPart, Rose};
ghost use Rattle.sheet_filter.specs.Ends.{HaveRoomForAll, NoneFell, world_seen};
ghost use Rattle.sheet_filter.specs.Outputs.{HaveRoom};
ghost use Rattle.clean_run.specs.Cleaned.{EndsAs, IsFaultless, IsRefused, IsTask};
ghost use Rattle.clean_run.specs.Prepared.{IsPrepared};
ghost use Rattle.clean_run.specs.Statuses.{end_status, end_summary};

use crate::ended::{Ended, Status};
use crate::files::Files;
use crate::prepared::{Prepared, prepare};
use crate::sentences::sheet_sentence;
use crate::words::{Wanted, asked};
use desk_base::{Failed, Sink, Source, write_all};
use sheet_clean::Summary;
use sheet_filter::{End, Outputs, clean};
use std::alloc::{AllocError, Global};

const WRITE_FAILED: &str = "a write failed";

/// What the words ask for.
#[derive(Drop)]
pub enum Task<'a> {
    /// To show this text.
    Show(String),
    /// To clean a sheet.
    Clean(Job<'a>),
}

/// A sheet that is to be cleaned.
#[derive(Drop)]
pub struct Job<'a> {
    /// By what.
    pub prepared: Prepared,
    /// The name of the file for the sheet of changes, where one is wanted.
    pub changes: Option<&'a str>,
}

/// What these words ask for, which are without the program's name. Words that do not fit are refused before a file is
/// read, and each file is read and tested before the next; the first fault is told.
pub fn task_of<'a, F: Files>(
    alloc: Global,
    files: &F,
    words: &'a [&'a str],
) -> Result<Task<'a>, Ended>
    ensures fits { IfOk result (IsTask (F.tells files.now)) }
    ensures fault { IfErr result (IsRefused (F.tells files.now)) }
{
    match asked(alloc, words)? {
        Wanted::Show(text) => Ok(Task::Show(text)),
        Wanted::Clean(words) => Ok(Task::Clean(Job {
            prepared: prepare(alloc, files, &words)?,
            changes: words.changes,
        })),
    }
}

impl<'a> Job<'a> {
    /// Cleans the sheet that the source has left. Nothing is written before its header fits.
    pub fn clean<S: Source, W: Sink, C: Sink>(
        &self,
        alloc: Global,
        source: &mut S,
        outputs: &mut Outputs<W, C>,
    ) -> Ended
        requires { IsPrepared self.now.prepared }
        ensures ended { let seen = world_seen S.left S.read_faults W.written W.write_faults C.written C.write_faults in
            EndsAs self.now.prepared (seen source.old outputs.old) (seen source.new outputs.new) result }
        ensures later { let seen = world_seen S.left S.read_faults W.written W.write_faults C.written C.write_faults in
            NoneFell (seen source.old outputs.old) (seen source.new outputs.new) }
        ensures complete { S.is_steady source.old
            → HaveRoomForAll (HaveRoom W.takes C.takes outputs.old) self.now.prepared.book self.now.prepared.setting
            (S.left source.old)
            → IsFaultless result.status }
    {
        let prepared = &self.prepared;
        let end = clean(alloc, &prepared.setting, &prepared.book, source, outputs);
        told(alloc, prepared, end)
    }
}

/// Writes a text that was asked for.
pub fn show<W: Sink>(alloc: Global, text: &str, out: &mut W) -> Ended
    ensures shown { result.status ≡ Status.Done → Appends (W.written out.old) (W.written out.new) text.now }
    ensures part { result.status ≢ Status.Done → AppendsPart (W.written out.old) (W.written out.new) text.now }
    ensures status { (result.status ≡ Status.Done) ⊎ (result.status ≡ Status.WriteFault) }
    ensures cause { result.status ≡ Status.WriteFault → Rose (W.write_faults out.old) (W.write_faults out.new) }
{
    match write_all(out, text.as_bytes()) {
        Ok(()) => Ended {
            status: Status::Done,
            why: None,
            summary: None,
        },
        Err(Failed) => Ended {
            status: Status::WriteFault,
            why: String::from_str(alloc, WRITE_FAILED).ok(),
            summary: None,
        },
    }
}

/// How an end is told.
fn told(alloc: Global, prepared: &Prepared, end: End) -> Ended
    ensures status { result.status ≡ end_status end }
    ensures summary { result.summary ≡ end_summary end }
{
    Ended {
        status: status_of(end),
        why: reason(alloc, prepared, end).unwrap_or(None),
        summary: summary_of(end),
    }
}

/// Its status.
fn status_of(end: End) -> Status
    ensures { result ≡ end_status end }
{
    match end {
        End::Done(_) => Status::Done,
        End::Refused(_, _) => Status::Refused,
        End::ReadFault(_) => Status::ReadFault,
        End::WriteFault => Status::WriteFault,
        End::NoMemory => Status::NoMemory,
    }
}

/// The summary that is told with it.
fn summary_of(end: End) -> Option<Summary>
    ensures { result ≡ end_summary end }
{
    match end {
        End::Done(summary) => Some(summary),
        End::Refused(_, summary) => summary,
        End::ReadFault(summary) => summary,
        End::WriteFault => None,
        End::NoMemory => None,
    }
}

/// The line that says why it ended.
fn reason(alloc: Global, prepared: &Prepared, end: End) -> Result<Option<String>, AllocError> {
    match end {
        End::Done(_) => Ok(None),
        End::Refused(fault, _) => Ok(Some(sheet_sentence(alloc, &prepared.setting, fault)?)),
        End::ReadFault(_) => Ok(Some(String::from_str(alloc, "a read of the sheet failed")?)),
        End::WriteFault => Ok(Some(String::from_str(alloc, WRITE_FAILED)?)),
        End::NoMemory => Ok(None),
    }
}
