//! What the generator makes: its draws, and the requests of its stream.
ghost use Rattle.std.specs.Prelude.{◌^◌, ◌<◌, IfOk};
ghost use Rattle.http_cut.specs.declared.step.Step.TheVariants as steps;
ghost use Rattle.http_cut.specs.Looks.{IsStep};

use crate::streams::text_of;
use desk_cases::{Answer, Case};
use desk_made::{Draws, made};
use http_cut::{Request, Routes, Step, first_step};
use std::alloc::AllocError;
use std::test::Fail;

/// So many draws from a start.
pub fn draws(case: &Case, answer: &mut Answer) -> Result<(), Fail> {
    let mut line = String::new(answer.alloc());
    tell_draws(&mut line, start(case)?, case.number("count").unwrap_or(0))?;
    answer.text("wanted", line.as_str())
}

fn tell_draws(line: &mut String, start: u32, count: u64) -> Result<(), AllocError>
    requires { start < 2 ^ 31 }
{
    let mut draws = Draws::new(start);
    for place in 0..count {
        let draw = draws.draw();
        let between = if place > 0 { " " } else { "" };
        write!(line, "{between}{draw}")?;
    }
    Ok(())
}

/// The request at a place of the stream, counted from 1: its head, and its body, or the lines of it that are listed.
/// Or `clean`, where the stream has ended.
pub fn request(routes: &Routes, case: &Case, answer: &mut Answer) -> Result<(), Fail> {
    let bytes = made(answer.alloc(), count(case)?, start(case)?)?;
    add_request(routes, bytes.as_slice(), case, answer)
}

fn add_request(
    routes: &Routes,
    bytes: &[u8],
    case: &Case,
    answer: &mut Answer,
) -> Result<(), Fail> {
    let mut rest = bytes;
    for _ in 1..case.number("place").unwrap_or(1) {
        rest = following(routes, rest)?;
    }
    match first_step(routes, rest) {
        Step::Whole(request) => add_whole(rest, &request, case, answer),
        Step::NeedMore(_) if rest.is_empty() => answer.text("wanted", "clean"),
        _ => Err(Fail::new("a stream is not cut into requests")),
    }
}

/// How many sessions are opened.
fn count(case: &Case) -> Result<u32, Fail> {
    match case.number("count") {
        Some(count) if (1..=5_000).contains(&count) => Ok(count as u32),
        _ => Err(Fail::new("a case has no number of sessions that is allowed")),
    }
}

/// The number after which draws begin.
fn start(case: &Case) -> Result<u32, Fail>
    ensures { IfOk result (λ start. start < 2 ^ 31) }
{
    match case.number("start") {
        Some(start) if start < 1 << 31 => Ok(start as u32),
        _ => Err(Fail::new("a case has no start that is allowed")),
    }
}

/// What stands after the first request.
fn following<'a>(routes: &Routes, bytes: &'a [u8]) -> Result<&'a [u8], Fail> {
    match first_step(routes, bytes) {
        Step::Whole(request) => Ok(&bytes[request.body.end..]),
        _ => Err(Fail::new("a stream has fewer requests")),
    }
}

fn add_whole(bytes: &[u8], request: &Request, case: &Case, answer: &mut Answer) -> Result<(), Fail>
    requires { IsStep bytes.now (steps.Whole request.now) }
{
    let head = text_of(&bytes[..request.body.start])?;
    let body = text_of(request.body.of(bytes))?;
    let listed = case.numbers(answer.alloc(), "lines")?;
    let is_all = case.part("lines").is_none();
    let mut text = String::new(answer.alloc());
    text.push_str(head)?;
    tell_lines(&mut text, body, is_all, listed.as_slice())?;
    answer.text("wanted", text.as_str())
}

/// All lines of a body, or those that are listed.
fn tell_lines(
    text: &mut String,
    body: &str,
    is_all: bool,
    listed: &[u64],
) -> Result<(), AllocError> {
    for (place, line) in body.split_inclusive('\n').enumerate() {
        if is_all || listed.contains(&(place as u64).saturating_add(1)) {
            text.push_str(line)?;
        }
    }
    Ok(())
}
