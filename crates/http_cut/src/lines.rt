//! Lines at the front of a stream: the empty ones before a head, and those of a head with the most fields.
ghost use Rattle.std.specs.Prelude.{◌≡◌, ◌↔◌, ◌++◌, None, Some, MatchOption, IsTrue};
ghost use Rattle.httparse.specs.Grammar.{LineEnd, print_end};
ghost use Rattle.http_cut.specs.Lines.{BeginsNoLine, SkipsLines, following_line, following_lines, GoesOn, HasManyLines};

use desk_base::MAX_FIELDS;

/// The bytes after the empty lines.
pub fn without_empty_lines(bytes: &[u8]) -> &[u8]
    ensures { SkipsLines bytes.now result.now }
{
    let mut text = bytes;
    'lines: while let Some(rest) = following_empty_line(text) {
        text = rest;
    }
    text
}

/// The bytes after one empty line.
fn following_empty_line(text: &[u8]) -> Option<&[u8]>
    ensures { MatchOption result (BeginsNoLine text.now)
        (λ rest. (end : LineEnd) × (text.now ≡ print_end end ++ rest.now)) }
{
    match text {
        [b'\n', rest @ ..] => Some(rest),
        [b'\r', b'\n', rest @ ..] => Some(rest),
        _ => None,
    }
}

/// Whether the bytes go on after the most lines that a head may have before its empty line.
pub fn has_many_lines(bytes: &[u8]) -> bool
    ensures { IsTrue result ↔ HasManyLines bytes.now }
{
    goes_on(without_empty_lines(bytes))
}

/// Whether a byte that ends no head stands after a request line and the most fields.
fn goes_on(text: &[u8]) -> bool
    ensures { IsTrue result ↔ GoesOn text.now }
{
    match following_lines(text, MAX_FIELDS + 1) {
        Some([first, ..]) => *first != b'\r' && *first != b'\n',
        _ => false,
    }
}

/// The bytes after so many lines.
#[tactic(auto, unfolding(crate::specs::Lines::following_lines))]
fn following_lines(text: &[u8], count: usize) -> Option<&[u8]>
    ensures { MatchOption result (following_lines count text.now ≡ None)
        (λ rest. following_lines count text.now ≡ Some rest.now) }
{
    let mut rest = text;
    let mut left = count;
    'lines: while left > 0 {
        rest = following_line(rest)?;
        left -= 1;
    }
    Some(rest)
}

/// The bytes after the first line feed.
fn following_line(text: &[u8]) -> Option<&[u8]>
    ensures { MatchOption result (following_line text.now ≡ None) (λ rest. following_line text.now ≡ Some rest.now) }
{
    let mut rest = text;
    'bytes: while let [first, following @ ..] = rest {
        if *first == b'\n' {
            return Some(following);
        }
        rest = following;
    }
    None
}
