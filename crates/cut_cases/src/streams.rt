//! Streams, cut into requests.
ghost use Rattle.std.specs.Prelude.{◌≡◌, length};
ghost use Rattle.http_cut.specs.declared.step.Step.TheVariants as steps;
ghost use Rattle.http_cut.specs.Looks.{IsStep};

use desk_base::{List, MemSource};
use desk_cases::{Answer, Case};
use http_cut::{BadRest, PIECE, Request, Routes, Step, Window, next_step};
use std::alloc::Global;
use std::test::Fail;

/// The most bytes that a read gives, one number for each time that a stream is cut.
const CUTS: [u64; 5] = [1, 2, 7, 64, 65_536];

/// The longest body that is shown.
const SHOWN: usize = 40;

/// Each request of a stream in a line, and how the stream ends. The stream is cut by reads of several lengths, which
/// have to say the same.
pub fn told(routes: &Routes, case: &Case, answer: &mut Answer) -> Result<(), Fail> {
    let bytes = case.bytes("bytes")?;
    let lines = lines_of(answer.alloc(), routes, bytes, PIECE)?;
    if is_told_by_all(answer.alloc(), routes, case, bytes, lines.as_str())? {
        answer.text("wanted", lines.as_str())
    } else {
        answer.text("wanted", "it depends on the reads")
    }
}

/// Whether reads of each length of a case tell these lines.
fn is_told_by_all(
    alloc: Global,
    routes: &Routes,
    case: &Case,
    bytes: &[u8],
    wanted: &str,
) -> Result<bool, Fail> {
    for cut in &cuts(alloc, case)? {
        if !is_told(alloc, routes, bytes, *cut as usize, wanted)? {
            return Ok(false);
        }
    }
    Ok(true)
}

fn is_told(
    alloc: Global,
    routes: &Routes,
    bytes: &[u8],
    cut: usize,
    wanted: &str,
) -> Result<bool, Fail> {
    let lines = lines_of(alloc, routes, bytes, cut)?;
    Ok(lines.as_str() == wanted)
}

fn cuts(alloc: Global, case: &Case) -> Result<Vec<u64>, Fail> {
    match case.part("cuts") {
        Some(_) => case.numbers(alloc, "cuts"),
        None => Ok(Vec::from_slice(alloc, &CUTS)?),
    }
}

/// The same, where a read gives at most so many bytes.
pub fn lines_of(alloc: Global, routes: &Routes, bytes: &[u8], cut: usize) -> Result<String, Fail> {
    let bytes = List::from_vec(Vec::from_slice(alloc, bytes)?);
    let mut source = MemSource::new(bytes, cut.max(1), List::new(alloc));
    let mut lines = String::new(alloc);
    tell_stream(&mut lines, alloc, routes, &mut source)?;
    Ok(lines)
}

fn tell_stream(
    lines: &mut String,
    alloc: Global,
    routes: &Routes,
    source: &mut MemSource,
) -> Result<(), Fail> {
    let mut piece = vec![in alloc; 0u8; PIECE]?;
    let mut window = Window::new(alloc);
    tell_requests(lines, routes, &mut window, source, piece.as_mut_slice())
}

fn tell_requests(
    lines: &mut String,
    routes: &Routes,
    window: &mut Window,
    source: &mut MemSource,
    piece: &mut [u8],
) -> Result<(), Fail>
    requires { length piece.old ≡ 65536 }
{
    for _ in 0..u64::MAX {
        if window.bytes().len() >= PIECE {
            return Err(Fail::new("too many bytes were taken"));
        }
        match next_step(routes, window, source, piece) {
            Ok(Step::Whole(request)) => {
                add_request(lines, window.bytes(), &request)?;
                window.skip(request.body.end);
            }
            Ok(Step::NeedMore(_)) => return add_end(lines, window.bytes().len()),
            Ok(Step::Bad(kind, asks_head)) => {
                return Ok(lines.push_str(bad_end(kind, asks_head))?);
            }
            Err(_) => return Err(Fail::new("a source in memory failed, or there was no memory")),
        }
    }
    Ok(())
}

/// Method, target, whether a length is said, how many bytes the body has, and the body where it is a short line.
fn add_request(lines: &mut String, bytes: &[u8], request: &Request) -> Result<(), Fail>
    requires { IsStep bytes.now (steps.Whole request.now) }
{
    let method = text_of(request.method.of(bytes))?;
    let target = text_of(request.target.of(bytes))?;
    let body = request.body.of(bytes);
    let said = if request.has_length { "said" } else { "unsaid" };
    let count = body.len();
    write!(lines, "{method} {target} {said} {count}")?;
    if count > 0 && count <= SHOWN && body.iter().all(|byte| *byte != b'\n') {
        lines.push_str(" ")?;
        lines.push_str(text_of(body)?)?;
    }
    lines.push_str("\n")?;
    Ok(())
}

/// The text that a part of a request is.
pub fn text_of(bytes: &[u8]) -> Result<&str, Fail> {
    match std::str::from_utf8(bytes) {
        Ok(text) => Ok(text),
        Err(_) => Err(Fail::new("a part of a request is no text")),
    }
}

/// How a stream ends whose source has ended with so many bytes after the last request.
fn add_end(lines: &mut String, count: usize) -> Result<(), Fail> {
    if count == 0 {
        lines.push_str("clean\n")?;
    } else {
        writeln!(lines, "truncated {count}")?;
    }
    Ok(())
}

fn bad_end(kind: BadRest, asks_head: bool) -> &'static str {
    match (kind, asks_head) {
        (BadRest::BadHead, false) => "bad head\n",
        (BadRest::BadHead, true) => "bad head, to HEAD\n",
        (BadRest::Chunked, false) => "chunked\n",
        (BadRest::Chunked, true) => "chunked, to HEAD\n",
        (BadRest::BodyLong, false) => "body long\n",
        (BadRest::BodyLong, true) => "body long, to HEAD\n",
    }
}
