//! The responses to the machine's replies, and to what is declined before it.
ghost use Rattle.std.specs.Prelude.{◌≡◌, ◌≢◌, ◌⊎◌, ℕ, List, IfOk};
ghost use Rattle.serde_json.specs.Written.{compact_text};
ghost use Rattle.desk_words.specs.declared.desk_look.Publication.{Publication as PublicationOf};
ghost use Rattle.desk_words.specs.declared.refusal.Refusal.TheVariants as refusal;
ghost use Rattle.desk_words.specs.declared.reply.Reply.TheVariants as reply_variants;
ghost use Rattle.desk_words.specs.declared.reply.DerivedSheet.{DerivedSheet};
ghost use Rattle.desk_words.specs.declared.report.RecordSheet.{RecordSheet};
ghost use Rattle.desk_sheets.specs.Derived.{IsFull as IsWide};
ghost use Rattle.desk_sheets.specs.Records.{IsFull};
ghost use Rattle.http_desk.specs.declared.refusal.Refused.TheVariants as refused;
ghost use Rattle.http_desk.specs.Answered.{text_bytes};
ghost use Rattle.http_desk.specs.Refusals.{refusal_text};
ghost use Rattle.http_desk.specs.Replies.{declined_text, refusal_status, reply_body, reply_status, reply_text};
ghost use Rattle.desk_json.specs.Refusals.{sentence_of};
ghost use Rattle.http_desk.specs.Replies.{published_type, reply_type, unread_text};
ghost use Rattle.http_desk.specs.Responses.{response};

use crate::declined::Declined;
use crate::front::Page;
use crate::refusal::Refused;
use crate::responses::response;
use crate::says::fault_sentence;
use crate::status::{ContentType, Status};
use crate::text::Text;
use desk_base::{List, NoMemory};
use desk_dump::dump_text;
use desk_json::{JsonFault, fault_text, text_of};
use desk_sheets::{contradictions_text, derived_text, records_text, report_text};
use desk_words::{Publication, Refusal, Reply};
use std::alloc::Global;

/// The response to a request that the machine replies to. A reply that there was no memory is want of memory here.
pub fn reply_text(
    alloc: Global,
    reply: &Reply,
    closing: bool,
    asks_head: bool,
) -> Result<Vec<u8>, NoMemory>
    requires records { (sheet : RecordSheet) → reply.now ≡ reply_variants.Records sheet → IsFull sheet }
    requires derived { (sheet : DerivedSheet) → reply.now ≡ reply_variants.Derived sheet → IsWide sheet }
    ensures text { IfOk result (λ text. text.items ≡ reply_text reply.now closing asks_head) }
    ensures weighed { IfOk result (λ _. reply.now ≢ reply_variants.Refused refusal.NoMemory) }
{
    match reply {
        Reply::Refused(Refusal::NoMemory) => Err(NoMemory),
        Reply::Body(_, body) => reply_with(alloc, reply, body.as_slice(), closing, asks_head),
        _ => {
            let body = reply_body(alloc, reply)?;
            reply_with(alloc, reply, body.as_slice(), closing, asks_head)
        }
    }
}

/// The response to a reply, with this body.
fn reply_with(
    alloc: Global,
    reply: &Reply,
    body: &[u8],
    closing: bool,
    asks_head: bool,
) -> Result<Vec<u8>, NoMemory>
    ensures { IfOk result (λ text.
        text.items ≡ response (reply_status reply.now) (reply_type reply.now) body.now closing asks_head) }
{
    let (status, kind) = (reply_status(reply), reply_type(reply));
    response(alloc, status, kind, body, closing, asks_head)
}

/// The body of a reply that is none by itself, as what was published is.
fn reply_body(alloc: Global, reply: &Reply) -> Result<List<u8>, NoMemory>
    requires made { (what : PublicationOf) (body : List ℕ) → reply.now ≢ reply_variants.Body what body }
    requires records { (sheet : RecordSheet) → reply.now ≡ reply_variants.Records sheet → IsFull sheet }
    requires derived { (sheet : DerivedSheet) → reply.now ≡ reply_variants.Derived sheet → IsWide sheet }
    ensures { IfOk result (λ text. text ≡ reply_body reply.now) }
{
    match reply {
        Reply::Report(sheet) => report_text(alloc, sheet),
        Reply::Records(sheet) => records_text(alloc, sheet),
        Reply::Derived(sheet) => derived_text(alloc, sheet),
        Reply::Body(_, _) => unreachable!(),
        Reply::Contradictions(sheet) => contradictions_text(alloc, sheet),
        Reply::Dump(tables) => dump_text(alloc, tables),
        _ => text_of(alloc, reply),
    }
}

fn published_type(what: Publication) -> ContentType
    ensures { result ≡ published_type what }
{
    match what {
        Publication::Schema => ContentType::Toml,
        Publication::Master => ContentType::Csv,
        Publication::Rulebook => ContentType::Text,
    }
}

fn reply_type(reply: &Reply) -> ContentType
    ensures { result ≡ reply_type reply.now }
{
    match reply {
        Reply::Report(_) => ContentType::Text,
        Reply::Records(_) | Reply::Derived(_) | Reply::Contradictions(_) => ContentType::Csv,
        Reply::Body(what, _) => published_type(*what),
        Reply::Dump(_) => ContentType::Lines,
        _ => ContentType::Json,
    }
}

fn reply_status(reply: &Reply) -> Status
    ensures { result ≡ reply_status reply.now }
{
    match reply {
        Reply::Made(_) | Reply::Opened(_) | Reply::Batched(_) => Status::Created,
        Reply::Committed { .. } => Status::Created,
        Reply::Unfit { refusal, .. } | Reply::Refused(refusal) => refusal_status(refusal),
        _ => Status::Ok,
    }
}

fn refusal_status(refusal: &Refusal) -> Status
    ensures { result ≡ refusal_status refusal.now }
{
    match refusal {
        Refusal::NoClerk | Refusal::NoSuch(_) => Status::NotFound,
        Refusal::Stale(_) | Refusal::Gap(_) | Refusal::Reused(_) => Status::Conflict,
        Refusal::Closed(_) | Refusal::Taken(_) | Refusal::NotNewer(_) => Status::Conflict,
        Refusal::Limit(_, _) => Status::ContentTooLarge,
        Refusal::Unavailable => Status::ServiceUnavailable,
        Refusal::NoMemory => Status::InsufficientStorage,
        _ => Status::UnprocessableContent,
    }
}

/// The response to a request that the machine is not asked about, or to one for which there was no memory.
pub fn declined_text(alloc: Global, why: &Declined, closing: bool, asks_head: bool) -> Text
    ensures { (text_bytes result ≡ declined_text why.now closing asks_head)
        ⊎ (text_bytes result ≡ refusal_text refused.NoMemory closing asks_head) }
{
    match why {
        Declined::Refused(refusal) => Text::Fixed(refusal.text(closing, asks_head)),
        Declined::Shown(page) => or_no_memory(
            page_text(alloc, page, closing, asks_head),
            closing,
            asks_head,
        ),
        Declined::BadBody(fault) => or_no_memory(
            unread_text(alloc, fault, None, closing, asks_head),
            closing,
            asks_head,
        ),
        Declined::BadProposal(fault) => or_no_memory(
            bad_proposal_text(alloc, fault, closing, asks_head),
            closing,
            asks_head,
        ),
    }
}

/// A text that was made, or the response to what there was no memory for.
fn or_no_memory(text: Result<Vec<u8>, NoMemory>, closing: bool, asks_head: bool) -> Text
    ensures made { (bytes : List ℕ) → IfOk text (λ made. made.items ≡ bytes)
        → (text_bytes result ≡ bytes) ⊎ (text_bytes result ≡ refusal_text refused.NoMemory closing asks_head) }
{
    match text {
        Ok(text) => Text::Made(text),
        Err(NoMemory) => Text::Fixed(Refused::NoMemory.text(closing, asks_head)),
    }
}

/// The response that shows a page.
fn page_text(
    alloc: Global,
    page: &Page,
    closing: bool,
    asks_head: bool,
) -> Result<Vec<u8>, NoMemory>
    ensures { IfOk result (λ text. text.items ≡ declined_text (Declined.Shown page.now) closing asks_head) }
{
    response(
        alloc,
        Status::Ok,
        page.kind,
        page.text.as_bytes(),
        closing,
        asks_head,
    )
}

/// The response to a body that proposes no edition, with a sentence for a person.
fn bad_proposal_text(
    alloc: Global,
    fault: &JsonFault,
    closing: bool,
    asks_head: bool,
) -> Result<Vec<u8>, NoMemory>
    ensures { IfOk result (λ text. text.items ≡ declined_text (Declined.BadProposal fault.now) closing asks_head) }
{
    let sentence = fault_sentence(alloc, fault)?;
    unread_text(alloc, fault, Some(sentence.as_str()), closing, asks_head)
}

/// The response to a body that is not what its route wants, with a sentence for a person where there is one.
fn unread_text(
    alloc: Global,
    fault: &JsonFault,
    says: Option<&str>,
    closing: bool,
    asks_head: bool,
) -> Result<Vec<u8>, NoMemory>
    ensures { IfOk result (λ text. text.items ≡ unread_text fault.now (sentence_of says.entry) closing asks_head) }
{
    let body = fault_text(alloc, fault, says)?;
    response(
        alloc,
        Status::BadRequest,
        ContentType::Json,
        body.as_slice(),
        closing,
        asks_head,
    )
}
