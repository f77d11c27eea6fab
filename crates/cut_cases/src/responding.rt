//! The bytes of responses.
use desk_cases::{Answer, Case};
use http_desk::{ContentType, Refused, Status, response};
use std::test::Fail;

/// The response with a status, a type and a body, closing or not, to HEAD or not.
pub fn responded(case: &Case, answer: &mut Answer) -> Result<(), Fail> {
    let status = status(case.number("status"))?;
    let kind = kind(case.text("type"))?;
    let closing = case.part("closing").is_some();
    let asks_head = case.part("head").is_some();
    let body = case.bytes("body")?;
    let bytes = response(answer.alloc(), status, kind, body, closing, asks_head)?;
    answer.bytes("wanted", bytes.as_slice())
}

/// The response of a refusal before the machine.
pub fn refused(case: &Case, answer: &mut Answer) -> Result<(), Fail> {
    let refusal = match case.text("refusal") {
        Some("Origin") => Refused::Origin,
        Some("NoRoute") => Refused::NoRoute,
        Some("OtherMethod") => Refused::OtherMethod,
        Some("NoLength") => Refused::NoLength,
        Some("BadHead") => Refused::BadHead,
        Some("Chunked") => Refused::Chunked,
        Some("BodyLong") => Refused::BodyLong,
        Some("Unavailable") => Refused::Unavailable,
        Some("NoMemory") => Refused::NoMemory,
        _ => return Err(Fail::new("a case has no refusal that is known")),
    };
    let closing = case.part("closing").is_some();
    let asks_head = case.part("head").is_some();
    answer.text("wanted", refusal.text(closing, asks_head))
}

fn status(code: Option<u64>) -> Result<Status, Fail> {
    match code {
        Some(200) => Ok(Status::Ok),
        Some(201) => Ok(Status::Created),
        Some(403) => Ok(Status::Forbidden),
        Some(409) => Ok(Status::Conflict),
        Some(422) => Ok(Status::UnprocessableContent),
        _ => Err(Fail::new("a case has no status that is known")),
    }
}

fn kind(name: Option<&str>) -> Result<ContentType, Fail> {
    match name {
        Some("json") => Ok(ContentType::Json),
        Some("text") => Ok(ContentType::Text),
        Some("csv") => Ok(ContentType::Csv),
        Some("toml") => Ok(ContentType::Toml),
        Some("html") => Ok(ContentType::Html),
        Some("css") => Ok(ContentType::Css),
        Some("script") => Ok(ContentType::Script),
        Some("lines") => Ok(ContentType::Lines),
        _ => Err(Fail::new("a case has no type that is known")),
    }
}
