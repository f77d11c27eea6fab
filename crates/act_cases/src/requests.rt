//! The request of a step, and the reply to it.
use crate::replies::{tell, tell_unread};
use desk_json::{Route, command_of};
use desk_trials::KeptDesk;
use desk_words::{Command, Digest};
use http_cut::Routes;
use http_desk::route_in;
use machine_core::is_numbered;
use std::alloc::Global;
use std::test::Fail;

/// A step: its name and its request, and the table in which its route is found.
#[derive(Clone, Copy)]
pub struct Step<'s> {
    pub routes: &'s Routes,
    pub name: &'s str,
    pub request: &'s [u8],
}

/// The reply to the request of a step: its target, and after a space or the end of the line its body. The first word of
/// the step's name stands for the digest.
pub fn tell_reply(
    text: &mut String,
    alloc: Global,
    desk: &mut KeptDesk,
    step: Step<'_>,
) -> Result<(), Fail> {
    let (target, body) = target_and_body(step.request);
    let Some(found) = step.routes.find(target) else {
        return Err(Fail::new("a step has a target without a route"));
    };
    let Ok(route) = route_in(alloc, &found) else {
        return Err(Fail::new("a step has a target whose parameters are none"));
    };
    let told = tell_reply_to(text, alloc, desk, &route, digest_of(step.name), body);
    drop(route);
    told
}

/// The reply to a body on a route.
fn tell_reply_to(
    text: &mut String,
    alloc: Global,
    desk: &mut KeptDesk,
    route: &Route,
    digest: Digest,
    body: &[u8],
) -> Result<(), Fail> {
    match command_of(alloc, route, digest, body) {
        Ok(command) => {
            let told = act(text, alloc, desk, &command);
            drop(command);
            told
        }
        Err(fault) => tell_unread(text, alloc, &fault),
    }
}

/// The reply to a command.
fn act(
    text: &mut String,
    alloc: Global,
    desk: &mut KeptDesk,
    command: &Command,
) -> Result<(), Fail> {
    if !is_numbered(command) {
        return Err(Fail::new("a step has a number that no write may have"));
    }
    let reply = desk.act(command);
    let told = tell(text, alloc, &reply);
    drop(reply);
    told
}

/// The target stands up to the first space or line feed, and the body after that.
fn target_and_body(request: &[u8]) -> (&[u8], &[u8]) {
    let end = request
        .iter()
        .position(|byte| *byte == b' ' || *byte == b'\n');
    match end {
        Some(place) => (&request[..place], &request[place + 1..]),
        None => (request, b""),
    }
}

/// The digest that the first word of a name stands for: the word's bytes, and zeros after them.
fn digest_of(name: &str) -> Digest {
    let word = name.split(" ").next().unwrap_or(name);
    let mut bytes = [0u8; 32];
    for (slot, byte) in bytes.iter_mut().zip(word.as_bytes()) {
        *slot = *byte;
    }
    Digest { bytes }
}
