//! The command `once`, which answers the case that it is given.
ghost use Rattle.std.specs.Prelude.{◌≡◌, ◌≤◌, length, IfOk};
ghost use Rattle.fix_model.specs.States.{Fits};
ghost use Rattle.fix_model.specs.Valid.{IsValid};
ghost use Rattle.desk_links.specs.Doors.{link_seen};
ghost use Rattle.case_json.specs.Answer.{IsAnswer};
ghost use Rattle.case_json.specs.Cases.{PartsFit};
ghost use Rattle.once_run.specs.Input.{most};
ghost use Rattle.once_run.specs.Once.{EndsOnce, IsOnceCode, IsReplyTo, TakesTold};
ghost use Rattle.once_run.specs.Status.{status_code};

use crate::input::{InputFault, input_of};
use crate::reply::{CaseReply, InputRefusal};
use crate::status::Status;
use crate::telling::Said;
use case_json::{Case, CaseFault, case_of, case_text};
use desk_base::{Both, Failed, List, MAX_INPUT, NoMemory, Sink, Source, Steps, Text, write_all};
use fix_engine::{Work, decide};
use fix_model::{Book, ListBook, State};
use std::alloc::Global;

/// The most bytes that are taken of an input: one more than it may have.
const MOST: usize = MAX_INPUT + 1;

/// What the bytes that were taken are answered with.
pub fn reply_to(alloc: Global, bytes: &[u8]) -> Result<CaseReply, NoMemory>
    requires { length bytes.now ≤ most }
    ensures { IfOk result (λ reply. IsReplyTo bytes.now reply) }
{
    if bytes.len() >= MOST {
        return Ok(CaseReply::Refused(InputRefusal::TooLong));
    }
    match case_of(alloc, bytes) {
        Ok(case) => Ok(CaseReply::Answered(answer_to(alloc, case)?)),
        Err(CaseFault::NotJson) => Ok(CaseReply::Refused(InputRefusal::NotJson)),
        Err(CaseFault::NotACase) => Ok(CaseReply::Refused(InputRefusal::NotACase)),
        Err(CaseFault::NoMemory) => Err(NoMemory),
    }
}

/// The text that answers a case.
fn answer_to(alloc: Global, case: Case) -> Result<List<u8>, NoMemory>
    requires valid { IsValid case.kit }
    requires fits { PartsFit case }
    ensures { IfOk result (λ text. IsAnswer case text) }
{
    let Case {
        attributes,
        kit,
        state,
    } = case;
    let book = ListBook::new(kit);
    answer_over::<ListBook>(alloc, attributes.as_slice(), &book, state)
}

/// The text that answers the case of these attributes, the book's kit and this state.
pub fn answer_over<B: Book<()>>(
    alloc: Global,
    attributes: &[Text],
    book: &B,
    mut state: State,
) -> Result<List<u8>, NoMemory>
    requires named { length attributes.now ≡ (B.kit book.now).width }
    requires fits { Fits (B.kit book.now) state }
    ensures { IfOk result (λ text.
        IsAnswer (record { attributes = attributes.now; kit = B.kit book.now; state = state }) text) }
{
    let mut work = Work::new(alloc, book.width(), book.rules().len() as u16)?;
    let mut steps = Steps::new(());
    let verdict = decide(&mut work, book, &mut state, &mut steps);
    case_text::<B>(alloc, attributes, book, &state, &work, &verdict)
}

/// Answers the case that the link has left, and points to what keeps another JSON text from being one.
pub fn once<S: Source, W: Sink>(alloc: Global, link: &mut Both<S, W>, said: &mut Said) -> Status
    ensures ended { let seen = link_seen S.Source W.Sink in
        EndsOnce (seen link.old) (seen link.new) result }
    ensures read_faults { S.read_faults link.old.source ≤ S.read_faults link.new.source }
    ensures write_faults { W.write_faults link.old.sink ≤ W.write_faults link.new.sink }
    ensures complete { S.is_steady link.old.source
        → TakesTold (W.takes link.old.sink) (S.left link.old.source) → IsOnceCode (status_code result) }
{
    let bytes = match input_of(alloc, MOST, &mut link.source) {
        Ok(bytes) => bytes,
        Err(InputFault::Failed) => return Status::ReadFault,
        Err(InputFault::NoMemory) => return Status::NoMemory,
    };
    let reply = match reply_to(alloc, bytes.as_slice()) {
        Ok(reply) => reply,
        Err(NoMemory) => return Status::NoMemory,
    };
    if let CaseReply::Refused(InputRefusal::NotACase) = &reply {
        said.point(alloc, bytes.as_slice());
    }
    match write_all(&mut link.sink, reply.text()) {
        Ok(()) => reply.status(),
        Err(Failed) => Status::WriteFault,
    }
}
