//! The steps of a case: each part that is a request, in their order.
use crate::ends::tell_end;
use crate::numbering::tell_numbered;
use crate::requests::{Step, tell_reply};
use crate::trace::Trace;
use desk_cases::{Answer, Case, Part};
use desk_trials::KeptDesk;
use http_cut::Routes;
use std::alloc::Global;
use std::test::Fail;

/// Makes the steps of a case in their order, and tells the reply to each, and what is asked in the end.
pub fn make_steps(
    routes: &Routes,
    desk: &mut KeptDesk,
    case: &Case,
    answer: &mut Answer,
) -> Result<(), Fail> {
    for part in &case.parts {
        if is_step(part) {
            make_step(routes, desk, part, answer)?;
        }
    }
    tell_end(desk, case, answer)
}

/// Whether a part is a step: it begins with a target.
pub fn is_step(part: &Part) -> bool {
    part.content.as_slice().starts_with(b"/")
}

/// The reply to a step: what it `does` where it changes the tables, and else what it `says`.
fn make_step(
    routes: &Routes,
    desk: &mut KeptDesk,
    part: &Part,
    answer: &mut Answer,
) -> Result<(), Fail> {
    let name = part.name.as_str();
    let before = Trace::of(desk.tables());
    let mut reply = String::new(answer.alloc());
    let step = Step {
        routes,
        name,
        request: part.content.as_slice(),
    };
    tell_last(&mut reply, answer.alloc(), desk, step)?;
    let is_same = Trace::of(desk.tables()) == before;
    add_reply(name, is_same, reply.as_str(), answer)
}

fn add_reply(name: &str, is_same: bool, reply: &str, answer: &mut Answer) -> Result<(), Fail> {
    let verb = if is_same { "says" } else { "does" };
    let name = format!(in answer.alloc(); "{name} {verb}")?;
    answer.text(name.as_str(), reply)
}

/// The reply to a step, or the last one to a step that is made so many times, as `32 times a`.
fn tell_last(
    reply: &mut String,
    alloc: Global,
    desk: &mut KeptDesk,
    step: Step<'_>,
) -> Result<(), Fail> {
    let Some((count, word)) = step.name.split_once(" times ") else {
        return tell_reply(reply, alloc, desk, step);
    };
    let Ok(count) = count.parse::<u64>() else {
        return Err(Fail::new("a step is not made a number of times"));
    };
    let repeated = Step {
        routes: step.routes,
        name: word,
        request: step.request,
    };
    for turn in 0..count {
        reply.clear();
        tell_turn(reply, alloc, desk, repeated, turn)?;
    }
    Ok(())
}

/// The reply to a step that is made many times, in this turn.
fn tell_turn(
    reply: &mut String,
    alloc: Global,
    desk: &mut KeptDesk,
    step: Step<'_>,
    turn: u64,
) -> Result<(), Fail> {
    let mut numbered = String::new(alloc);
    tell_numbered(&mut numbered, step.request, turn)?;
    let made = Step {
        routes: step.routes,
        name: step.name,
        request: numbered.as_bytes(),
    };
    tell_reply(reply, alloc, desk, made)
}
