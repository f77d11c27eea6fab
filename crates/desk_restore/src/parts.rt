//! What the values of a line state: numbers, words, texts and bytes.
ghost use Rattle.std.specs.Prelude.{◌≡◌, ◌<◌, Some, None, IfOk, IsErrOf};
ghost use Rattle.serde_json.specs.Find.{as_bool};
ghost use Rattle.serde_json.specs.View.{view};
ghost use Rattle.desk_restore.specs.Parts.{act_in, act_of, body_in, byte_in, digest_in, digest_of};
ghost use Rattle.desk_restore.specs.Parts.{long_in, number_in, short_in, stage_in, stage_of, whole_in};

use desk_base::{List, NoMemory};
use desk_words::{Act, Digest, Stage};
use json_parts::{Part, PartFault};
use serde_json::Value;
use std::alloc::Global;

/// The context in which the parts of a line are read: it says nothing of them.
#[derive(Clone, Copy, Debug)]
pub struct InDump;

/// A whole number below the limit.
fn whole(limit: u64, value: &Value) -> Result<u64, PartFault>
    ensures number { IfOk result (λ number. whole_in limit (view value.now) ≡ Some number) }
    ensures below { IfOk result (λ number. number < limit) }
    ensures none { IsErrOf result PartFault.WrongForm → whole_in limit (view value.now) ≡ None }
{
    match value.as_u64() {
        Some(number) if number < limit => Ok(number),
        _ => Err(PartFault::WrongForm),
    }
}

impl Part<InDump> for u8 {
    ghost part_in = { λ _. byte_in };

    fn read(_alloc: Global, _context: &InDump, value: &Value) -> Result<u8, PartFault> {
        Ok(whole(1 << 8, value)? as u8)
    }
}

impl Part<InDump> for u16 {
    ghost part_in = { λ _. short_in };

    fn read(_alloc: Global, _context: &InDump, value: &Value) -> Result<u16, PartFault> {
        Ok(whole(1 << 16, value)? as u16)
    }
}

impl Part<InDump> for u32 {
    ghost part_in = { λ _. number_in };

    fn read(_alloc: Global, _context: &InDump, value: &Value) -> Result<u32, PartFault> {
        Ok(whole(1 << 32, value)? as u32)
    }
}

impl Part<InDump> for u64 {
    ghost part_in = { λ _. long_in };

    fn read(_alloc: Global, _context: &InDump, value: &Value) -> Result<u64, PartFault> {
        match value.as_u64() {
            Some(number) => Ok(number),
            None => Err(PartFault::WrongForm),
        }
    }
}

impl Part<InDump> for bool {
    ghost part_in = { λ _. as_bool };

    fn read(_alloc: Global, _context: &InDump, value: &Value) -> Result<bool, PartFault> {
        match value.as_bool() {
            Some(flag) => Ok(flag),
            None => Err(PartFault::WrongForm),
        }
    }
}

impl Part<InDump> for Act {
    ghost part_in = { λ _. act_in };

    fn read(_alloc: Global, _context: &InDump, value: &Value) -> Result<Act, PartFault> {
        let Some(word) = value.as_str() else {
            return Err(PartFault::WrongForm);
        };
        match act_of(word) {
            Some(act) => Ok(act),
            None => Err(PartFault::WrongForm),
        }
    }
}

fn act_of(word: &str) -> Option<Act>
    ensures { result ≡ act_of word.now }
{
    match word {
        "nothing" => Some(Act::Nothing),
        "clerk" => Some(Act::Clerk),
        "schema" => Some(Act::Schema),
        "master" => Some(Act::Master),
        "rulebook" => Some(Act::Rulebook),
        "edition" => Some(Act::Edition),
        "region" => Some(Act::Region),
        "opened" => Some(Act::Opened),
        "changed" => Some(Act::Changed),
        "committed" => Some(Act::Committed),
        "batched" => Some(Act::Batched),
        _ => None,
    }
}

impl Part<InDump> for Stage {
    ghost part_in = { λ _. stage_in };

    fn read(_alloc: Global, _context: &InDump, value: &Value) -> Result<Stage, PartFault> {
        let Some(word) = value.as_str() else {
            return Err(PartFault::WrongForm);
        };
        match stage_of(word) {
            Some(stage) => Ok(stage),
            None => Err(PartFault::WrongForm),
        }
    }
}

fn stage_of(word: &str) -> Option<Stage>
    ensures { result ≡ stage_of word.now }
{
    match word {
        "active" => Some(Stage::Active),
        "committed" => Some(Stage::Committed),
        "abandoned" => Some(Stage::Abandoned),
        _ => None,
    }
}

impl Part<InDump> for Digest {
    ghost part_in = { λ _. digest_in };

    fn read(alloc: Global, context: &InDump, value: &Value) -> Result<Digest, PartFault> {
        let bytes = List::<u8>::read(alloc, context, value)?;
        match digest_of(bytes.as_slice()) {
            Some(digest) => Ok(digest),
            None => Err(PartFault::WrongForm),
        }
    }
}

/// The digest of these bytes, where they are 32.
fn digest_of(bytes: &[u8]) -> Option<Digest>
    ensures { result ≡ digest_of bytes.now }
{
    if bytes.len() != 32 {
        return None;
    }
    let mut found = [0; 32];
    found.copy_from_slice(bytes);
    Some(Digest { bytes: found })
}

/// What was published: the bytes of a string, or bytes as numbers.
pub fn body(alloc: Global, value: &Value) -> Result<List<u8>, PartFault>
    ensures body { IfOk result (λ body. body_in (view value.now) ≡ Some body) }
    ensures none { IsErrOf result PartFault.WrongForm → body_in (view value.now) ≡ None }
{
    match value.as_str() {
        Some(text) => Ok(bytes_of(alloc, text)?),
        None => List::<u8>::read(alloc, &InDump, value),
    }
}

fn bytes_of(alloc: Global, text: &str) -> Result<List<u8>, NoMemory>
    ensures { IfOk result (λ bytes. bytes ≡ text.now) }
{
    let mut bytes = Vec::new(alloc);
    bytes.extend_from_slice(text.as_bytes())?;
    Ok(List::from_vec(bytes))
}
