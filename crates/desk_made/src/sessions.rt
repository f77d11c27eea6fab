//! The requests that open sessions.
ghost use Rattle.std.specs.Prelude.{◌≡◌, ◌^◌, ◌<◌, ◌∷◌, ◌++◌, [], codes, map, IfOk, OnOk};
ghost use Rattle.std.specs.List.{range_with_len};
ghost use Rattle.serde_json.specs.View.{view};
ghost use Rattle.desk_made.specs.Made.{enter, enter_at};
ghost use Rattle.desk_made.specs.Requests.{request_bytes, stream_of};
ghost use Rattle.desk_made.specs.Sessions.{given, session_shown, session_text};

use crate::draws::Draws;
use crate::kind::{Kind, kind_of};
use crate::master::{ROWS, numbered};
use crate::requests::push_post;
use desk_base::NoMemory;
use serde_json::{Value, json};
use std::alloc::{AllocError, Global};

/// Puts the requests that open so many sessions, by draws from a start, after these bytes.
pub fn push_sessions(bytes: &mut Vec<u8>, count: u32, start: u32) -> Result<(), NoMemory>
    requires { start < 2 ^ 31 }
    ensures { OnOk result (bytes.new.items
        ≡ bytes.old.items ++ stream_of (map (enter_at start) (range_with_len 1 count))) }
{
    let mut draws = Draws::new(start);
    'sessions: for place in 0..count {
        let first = draws.draw();
        let second = draws.draw();
        push_session(bytes, place + 1, first, second)?;
    }
    Ok(())
}

/// Puts the request that opens the session with a number, by two draws, after these bytes.
fn push_session(bytes: &mut Vec<u8>, number: u32, first: u32, second: u32) -> Result<(), NoMemory>
    ensures { OnOk result (bytes.new.items ≡ bytes.old.items ++ request_bytes (enter number first second)) }
{
    let alloc = *bytes.allocator();
    let key = numbered(alloc, "k", second % ROWS)?;
    let target = format!(in alloc; "/do/amy/{number}/open/e")?;
    let body = session_text(alloc, kind_of(first), key.as_str())?;
    push_post(bytes, target.as_str(), body.as_slice())
}

/// The body that opens a session of a kind, by a key.
#[tactic(auto, unfolding(crate::specs::Sessions::session_text))]
fn session_text(alloc: Global, kind: Kind, key: &str) -> Result<Vec<u8>, AllocError>
    ensures { IfOk result (λ text. text.items ≡ session_text kind key.now) }
{
    session_value(alloc, kind, key)?.to_vec(alloc)
}

fn session_value(alloc: Global, kind: Kind, key: &str) -> Result<Value, AllocError>
    ensures { IfOk result (λ value. view value ≡ session_shown (given kind key.now)) }
{
    match kind {
        Kind::Certain => ends_value(alloc, key, "off"),
        Kind::Partial => json!(in alloc; {"cells": {"a24": key}, "confirmed": ["a24"]}),
        Kind::Conflict => ends_value(alloc, key, "on"),
        Kind::Empty => json!(in alloc; {"cells": {}, "confirmed": []}),
    }
}

/// A session that gives and confirms the first attribute and the last.
fn ends_value(alloc: Global, first: &str, last: &str) -> Result<Value, AllocError>
    ensures { IfOk result (λ value.
        view value ≡ session_shown ((codes "a01", first.now) ∷ (codes "a48", last.now) ∷ [])) }
{
    json!(in alloc; {"cells": {"a01": first, "a48": last}, "confirmed": ["a01", "a48"]})
}
