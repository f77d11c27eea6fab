//! Calls of `run` as cases state them, in turn over one keeper.
ghost use Rattle.std.specs.Prelude.{◌≡◌, length};

use desk_base::{MemLink, MemSource, Source};
use desk_cases::{Answer, Case, Part};
use desk_trials::{Call, Script, Told, fresh, keeper_of, serve, shown, words_of};
use keeper_core::MemKeeper;
use std::alloc::Global;
use std::test::Fail;

/// The names of the parts of a call.
struct Names {
    words: &'static str,
    sent: &'static str,
    status: &'static str,
    answered: &'static str,
    left: &'static str,
}

/// Those of a case's first, second and third call.
const CALLS: [Names; 3] = [
    Names {
        words: "words",
        sent: "sent",
        status: "status",
        answered: "answered",
        left: "left",
    },
    Names {
        words: "words 2",
        sent: "sent 2",
        status: "status 2",
        answered: "answered 2",
        left: "left 2",
    },
    Names {
        words: "words 3",
        sent: "sent 3",
        status: "status 3",
        answered: "answered 3",
        left: "left 3",
    },
];

/// How many bytes are read at once of what a call has left.
const PIECE: usize = 65_536;

/// The parts whose words name other parts.
const NAMING: [&str; 7] = [
    "sent",
    "sent 2",
    "sent 3",
    "answered",
    "answered 2",
    "answered 3",
    "tables",
];

/// Whether a part of a case of streams is read: it says how calls are made, or is named by one that does or that is
/// wanted.
pub fn reads(case: &Case, name: &str) -> bool {
    matches!(
        name,
        "words" | "words 2" | "words 3" | "sent" | "sent 2" | "sent 3" | "cut" | "fails" | "steward"
    ) || case.has_word(&NAMING, name)
}

/// What the request of a case is answered in a stream of its own, over the tables that the script left so far.
pub fn next(script: &Script, case: &Case, answer: &mut Answer) -> Result<(), Fail> {
    let request = case.bytes("request")?;
    let mut keeper = fresh(answer.alloc())?;
    let told = told_next(answer.alloc(), script, &mut keeper, request);
    drop(keeper);
    told?.add_response(answer)
}

/// What a request is answered over a keeper to which the requests of the script were sent.
fn told_next(
    alloc: Global,
    script: &Script,
    keeper: &mut MemKeeper,
    request: &[u8],
) -> Result<Told, Fail> {
    send(alloc, script, keeper)?;
    serve(alloc, keeper, request)
}

/// Sends the requests of the script to a keeper.
fn send(alloc: Global, script: &Script, keeper: &mut MemKeeper) -> Result<(), Fail> {
    let requests = script.first(alloc, script.len())?;
    let _told = serve(alloc, keeper, requests.as_slice())?;
    Ok(())
}

/// What each part `request` of a case is answered in a stream of its own by an empty desk, and what the words of each
/// part `words` are, told once where it is the same. What is not answered as is wanted is a part besides.
pub fn each(case: &Case, answer: &mut Answer) -> Result<(), Fail> {
    for part in &case.parts {
        match part.name.as_str() {
            "request" => add_one(case, part, b"pipe", part.content.as_slice(), answer)?,
            "words" => add_one(case, part, part.content.as_slice(), &[], answer)?,
            _ => {}
        }
    }
    Ok(())
}

/// Adds what the words of a part are answered, or what is answered to the bytes that it sends.
fn add_one(
    case: &Case,
    part: &Part,
    words: &[u8],
    input: &[u8],
    answer: &mut Answer,
) -> Result<(), Fail> {
    let told = alone(answer.alloc(), words, input)?;
    add_told(case, part, &told, answer)
}

/// What these words over this input are told by an empty desk.
pub fn alone(alloc: Global, words: &[u8], input: &[u8]) -> Result<Told, Fail> {
    let words = words_of(alloc, words)?;
    Call::new(words.as_slice(), input).make_alone(alloc)
}

/// Adds what was told, unless another part was answered so before, and the part where it is answered otherwise than is
/// wanted.
fn add_told(case: &Case, part: &Part, told: &Told, answer: &mut Answer) -> Result<(), Fail> {
    let output = told.output.as_slice();
    if case.part("response") != Some(output) {
        answer.bytes("answered otherwise", part.content.as_slice())?;
    }
    answer.number_once("status", u64::from(told.status))?;
    answer.bytes_once("response", output)
}

/// What the calls of a case were answered, and whether its keeper is left with the tables that are wanted.
pub fn told(script: &Script, case: &Case, answer: &mut Answer) -> Result<(), Fail> {
    let mut keeper = keeper_of(answer.alloc(), case)?;
    told_over(script, case, &mut keeper, answer)
}

/// The same over the keeper of the case.
fn told_over(
    script: &Script,
    case: &Case,
    keeper: &mut MemKeeper,
    answer: &mut Answer,
) -> Result<(), Fail> {
    for names in &CALLS {
        if is_made(case, names) {
            add_call(script, case, keeper, names, answer)?;
        }
    }
    script.add_tables(case, keeper, answer)?;
    if case.part("rows").is_some() {
        add_rows(keeper, answer)?;
    }
    Ok(())
}

/// What the tables show, row by row.
fn add_rows(keeper: &mut MemKeeper, answer: &mut Answer) -> Result<(), Fail> {
    let found = shown(answer.alloc(), keeper)?;
    answer.text("rows", found.as_str())
}

/// Whether a case has a call: it says its words, what is sent or what is wanted.
fn is_made(case: &Case, names: &Names) -> bool {
    case.part(names.words).is_some()
        || case.part(names.sent).is_some()
        || case.part(names.status).is_some()
}

/// Makes a call, and adds what it was answered.
fn add_call(
    script: &Script,
    case: &Case,
    keeper: &mut MemKeeper,
    names: &Names,
    answer: &mut Answer,
) -> Result<(), Fail> {
    let words = words_of(answer.alloc(), case.part(names.words).unwrap_or(b"pipe"))?;
    let sent = case.text(names.sent).unwrap_or("");
    let sent = script.named(answer.alloc(), case, sent)?;
    let mut call = Call::new(words.as_slice(), sent.as_slice());
    call.cut = case.cut();
    make_call(script, case, keeper, names, &call, answer)
}

fn make_call(
    script: &Script,
    case: &Case,
    keeper: &mut MemKeeper,
    names: &Names,
    call: &Call<'_>,
    answer: &mut Answer,
) -> Result<(), Fail> {
    let mut link = call.link(answer.alloc())?;
    let status = call.make_over(answer.alloc(), keeper, &mut link);
    tell_call(script, case, names, status, &mut link, answer)
}

fn tell_call(
    script: &Script,
    case: &Case,
    names: &Names,
    status: u8,
    link: &mut MemLink,
    answer: &mut Answer,
) -> Result<(), Fail> {
    answer.number(names.status, u64::from(status))?;
    add_answered(script, case, names, link.sink.bytes(), answer)?;
    if case.part(names.left).is_some() {
        let left = left(answer.alloc(), &mut link.source)? as u64;
        answer.number(names.left, left)?;
    }
    Ok(())
}

fn add_answered(
    script: &Script,
    case: &Case,
    names: &Names,
    output: &[u8],
    answer: &mut Answer,
) -> Result<(), Fail> {
    let words = case.text(names.answered).unwrap_or("");
    let answered = script.answered(answer.alloc(), case, words, output)?;
    answer.bytes(names.answered, answered.as_slice())
}

/// How many bytes a source has left.
fn left(alloc: Global, source: &mut MemSource) -> Result<usize, Fail> {
    let mut piece = vec![in alloc; 0u8; PIECE]?;
    count_left(source, piece.as_mut_slice())
}

fn count_left(source: &mut MemSource, piece: &mut [u8]) -> Result<usize, Fail>
    requires { length piece.old ≡ 65536 }
{
    let mut count: usize = 0;
    for _ in 0..u64::MAX {
        match source.read(piece) {
            Ok(0) => return Ok(count),
            Ok(more) => count = count.saturating_add(more),
            Err(_) => return Err(Fail::new("a source in memory failed")),
        }
    }
    Ok(count)
}
