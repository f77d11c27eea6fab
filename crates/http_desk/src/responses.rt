//! The bytes of a response.
ghost use Rattle.std.specs.Prelude.{◌≡◌, ◌++◌, IfOk, OnOk};
ghost use Rattle.http_desk.specs.Responses.{response, shown, head_text};
ghost use Rattle.http_desk.specs.Responses.{status_line, type_line, length_line, closing_lines};

use crate::status::{ContentType, Status};
use desk_base::NoMemory;
use std::alloc::Global;

/// The response with this body (`docs/formats.md`, *Responses*). A closing one says that the stream is closed after
/// it; one to HEAD has no body.
pub fn response(
    alloc: Global,
    status: Status,
    kind: ContentType,
    body: &[u8],
    closing: bool,
    asks_head: bool,
) -> Result<Vec<u8>, NoMemory>
    ensures { IfOk result (λ bytes. bytes.items ≡ response status kind body.now closing asks_head) }
{
    let body = shown(body, asks_head);
    let mut bytes = head_text(alloc, status, kind, body.len(), closing)?;
    bytes.extend_from_slice(body)?;
    Ok(bytes)
}

/// What is sent of a body.
fn shown(body: &[u8], asks_head: bool) -> &[u8]
    ensures { result.now ≡ shown asks_head body.now }
{
    if asks_head { &[] } else { body }
}

/// The head of a response whose body has so many bytes.
fn head_text(
    alloc: Global,
    status: Status,
    kind: ContentType,
    count: usize,
    closing: bool,
) -> Result<Vec<u8>, NoMemory>
    ensures { IfOk result (λ text. text.items ≡ head_text status kind count closing) }
{
    let mut text = Vec::new(alloc);
    add_status(alloc, &mut text, status)?;
    add_type(&mut text, kind)?;
    add_length(alloc, &mut text, count)?;
    text.extend_from_slice(closing_lines(closing).as_bytes())?;
    text.extend_from_slice(b"\r\n")?;
    Ok(text)
}

fn add_status(alloc: Global, text: &mut Vec<u8>, status: Status) -> Result<(), NoMemory>
    ensures { OnOk result (text.new.items ≡ text.old.items ++ status_line status) }
{
    let code = status.code().to_string(alloc)?;
    text.extend_from_slice(b"HTTP/1.1 ")?;
    text.extend_from_slice(code.as_bytes())?;
    text.extend_from_slice(b" ")?;
    text.extend_from_slice(status.reason().as_bytes())?;
    text.extend_from_slice(b"\r\n")?;
    Ok(())
}

fn add_type(text: &mut Vec<u8>, kind: ContentType) -> Result<(), NoMemory>
    ensures { OnOk result (text.new.items ≡ text.old.items ++ type_line kind) }
{
    text.extend_from_slice(b"Content-Type: ")?;
    text.extend_from_slice(kind.name().as_bytes())?;
    text.extend_from_slice(b"\r\n")?;
    Ok(())
}

fn add_length(alloc: Global, text: &mut Vec<u8>, count: usize) -> Result<(), NoMemory>
    ensures { OnOk result (text.new.items ≡ text.old.items ++ length_line count) }
{
    let count = count.to_string(alloc)?;
    text.extend_from_slice(b"Content-Length: ")?;
    text.extend_from_slice(count.as_bytes())?;
    text.extend_from_slice(b"\r\n")?;
    Ok(())
}

fn closing_lines(closing: bool) -> &'static str
    ensures { result.now ≡ closing_lines closing }
{
    if closing { "Connection: close\r\n" } else { "" }
}
