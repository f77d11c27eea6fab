//! Whether a stream ends inside a request target.
ghost use Rattle.std.specs.Prelude.{◌≡◌, ℕ, ◌↔◌, List, IsTrue, MatchOption};
ghost use Rattle.std.specs.List.{list_all};
ghost use Rattle.httparse.specs.Grammar.{EndsInTarget, is_token_byte, is_uri_byte};
ghost use Rattle.httparse.specs.Pieces.{IsRunAt};
ghost use Rattle.http_cut.specs.Lines.{BeginsMethod, EndsAfterMethod};

use crate::lines::without_empty_lines;

/// Whether the bytes end inside a target: empty lines, a method, a space, and bytes of a target.
pub fn ends_in_target(bytes: &[u8]) -> bool
    ensures { IsTrue result ↔ EndsInTarget bytes.now }
{
    ends_after_method(without_empty_lines(bytes))
}

fn ends_after_method(text: &[u8]) -> bool
    ensures { IsTrue result ↔ EndsAfterMethod text.now }
{
    match following_method(text) {
        Some(target) => are_target_bytes(target),
        None => false,
    }
}

/// The bytes after a method and a space.
fn following_method(text: &[u8]) -> Option<&[u8]>
    ensures { MatchOption result ((target : List ℕ) → ¬ (BeginsMethod text.now target))
        (λ target. BeginsMethod text.now target.now) }
{
    let end = token_end(text);
    if end == 0 || end == text.len() || text[end] != b' ' {
        return None;
    }
    Some(&text[end + 1..])
}

/// Where the token at the front ends.
fn token_end(text: &[u8]) -> usize
    ensures { IsRunAt is_token_byte text.now 0 result }
{
    for (i, byte) in text.iter().enumerate() {
        if !httparse::is_method_token(*byte) {
            return i;
        }
    }
    text.len()
}

fn are_target_bytes(target: &[u8]) -> bool
    ensures { result ≡ list_all is_uri_byte target.now }
{
    target.iter().all(|byte| httparse::is_uri_token(*byte))
}
