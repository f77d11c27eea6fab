//! The tokens of a text, and how they are spelled.
ghost use Rattle.std.specs.Prelude.{◌≡◌, ◌+◌, ◌≤◌, ◌∷◌, length, Some, None, IfOk};
ghost use Rattle.rule_text.specs.Tokens.{is_keyword, is_name, is_quoted, is_column, is_sign, piece_at, mark_at};
ghost use Rattle.rule_text.specs.Tokens.{word_at, quoted, string_of, is_blank, is_in_line, comment_length};
ghost use Rattle.rule_text.specs.Tokens.{word_length};

use desk_base::{List, NoMemory, is_utf8, is_word, is_word_byte, starts_word};
use std::alloc::Global;

/// A mark.
#[derive(Clone, Copy, Debug, PartialEq, Eq)]
pub enum Mark {
    Colon,
    Comma,
    Equals,
    Arrow,
    Semicolon,
    Opening,
    Closing,
}

/// A token.
#[derive(Debug, Drop)]
pub enum Token {
    /// A word, of any length.
    Word(List<u8>),
    /// The content of a string, which is UTF-8.
    Quoted(List<u8>),
    /// A mark.
    Sign(Mark),
}

impl Token {
    /// Whether it is this word.
    pub fn is_keyword(&self, word: &[u8]) -> bool
        ensures { result ≡ is_keyword word.now self.now }
    {
        match self {
            Token::Word(bytes) => bytes.as_slice() == word,
            Token::Quoted(_) | Token::Sign(_) => false,
        }
    }

    /// Whether it is a word of at most 32 bytes.
    pub fn is_name(&self) -> bool
        ensures { result ≡ is_name self.now }
    {
        match self {
            Token::Word(bytes) => is_word(bytes.as_slice()),
            Token::Quoted(_) | Token::Sign(_) => false,
        }
    }

    /// Whether it is a string.
    pub fn is_quoted(&self) -> bool
        ensures { result ≡ is_quoted self.now }
    {
        match self {
            Token::Quoted(_) => true,
            Token::Word(_) | Token::Sign(_) => false,
        }
    }

    /// Whether it may stand for a column: a word of any length, or a string.
    pub fn is_column(&self) -> bool
        ensures { result ≡ is_column self.now }
    {
        match self {
            Token::Word(_) | Token::Quoted(_) => true,
            Token::Sign(_) => false,
        }
    }

    /// Whether it is this mark.
    pub fn is_sign(&self, mark: Mark) -> bool
        ensures { result ≡ is_sign mark self.now }
    {
        match self {
            Token::Sign(own) => *own as u8 == mark as u8,
            Token::Word(_) | Token::Quoted(_) => false,
        }
    }
}

/// What stands at the front of some bytes, with the number of its bytes after the first.
#[derive(Debug, Drop)]
pub enum Piece {
    /// A blank or a comment.
    Gap(usize),
    /// A token.
    Spelled(Token, usize),
    /// A byte that begins no token.
    Stray,
}

/// What some bytes begin with.
#[tactic(auto, unfolding(crate::specs::Tokens::piece_at))]
pub fn piece_at(alloc: Global, bytes: &[u8]) -> Result<Piece, NoMemory>
    ensures { IfOk result (λ piece. piece ≡ piece_at bytes.now) }
{
    let Some((first, rest)) = bytes.split_first() else {
        return Ok(Piece::Stray);
    };
    let first = *first;
    if is_blank(first) {
        Ok(Piece::Gap(0))
    } else if first == b'#' {
        Ok(Piece::Gap(comment_length(rest)))
    } else if starts_word(first) {
        word_at(alloc, first, rest)
    } else if first == b'"' {
        string_at(alloc, rest)
    } else {
        Ok(mark_at(first, rest))
    }
}

fn is_blank(byte: u8) -> bool
    ensures { result ≡ is_blank byte }
{
    byte == b' ' || byte == b'\t' || byte == b'\r' || byte == b'\n'
}

/// How many bytes there are up to the end of the line.
fn comment_length(bytes: &[u8]) -> usize
    ensures { result ≡ comment_length bytes.now }
{
    bytes.iter().take_while(|byte| **byte != b'\n').count()
}

/// How many bytes at the front go on a word.
fn word_length(bytes: &[u8]) -> usize
    ensures { result ≡ word_length bytes.now }
{
    bytes.iter().take_while(|byte| is_word_byte(**byte)).count()
}

/// The word that begins with a byte.
fn word_at(alloc: Global, first: u8, rest: &[u8]) -> Result<Piece, NoMemory>
    ensures { IfOk result (λ piece. piece ≡ word_at first rest.now) }
{
    let more = word_length(rest);
    let mut word = List::new(alloc);
    word.push(first)?;
    'bytes: for byte in &rest[..more] {
        word.push(*byte)?;
    }
    Ok(Piece::Spelled(Token::Word(word), more))
}

/// The mark that begins with a byte.
fn mark_at(first: u8, rest: &[u8]) -> Piece
    ensures { result ≡ mark_at first rest.now }
{
    match (first, rest) {
        (b':', _) => Piece::Spelled(Token::Sign(Mark::Colon), 0),
        (b',', _) => Piece::Spelled(Token::Sign(Mark::Comma), 0),
        (b'=', _) => Piece::Spelled(Token::Sign(Mark::Equals), 0),
        (b';', _) => Piece::Spelled(Token::Sign(Mark::Semicolon), 0),
        (b'(', _) => Piece::Spelled(Token::Sign(Mark::Opening), 0),
        (b')', _) => Piece::Spelled(Token::Sign(Mark::Closing), 0),
        (b'-', [b'>', ..]) => Piece::Spelled(Token::Sign(Mark::Arrow), 1),
        _ => Piece::Stray,
    }
}

/// The string that begins after an opening quote.
fn string_at(alloc: Global, bytes: &[u8]) -> Result<Piece, NoMemory>
    ensures { IfOk result (λ piece. piece ≡ string_of (quoted bytes.now)) }
{
    match quoted(alloc, bytes)? {
        Some((content, more)) => {
            if is_utf8(content.as_slice()) {
                Ok(Piece::Spelled(Token::Quoted(content), more))
            } else {
                Ok(Piece::Stray)
            }
        }
        None => Ok(Piece::Stray),
    }
}

/// The content of a string after its opening quote, and how many bytes it takes up to its closing quote.
fn quoted(alloc: Global, bytes: &[u8]) -> Result<Option<(List<u8>, usize)>, NoMemory>
    ensures { IfOk result (λ string. string ≡ quoted bytes.now) }
{
    let mut content = List::new(alloc);
    let mut rest = bytes;
    while !rest.is_empty() {
        match rest {
            [b'"', b'"', after @ ..] => {
                content.push(b'"')?;
                rest = after;
            }
            [b'"', after @ ..] => return Ok(Some((content, bytes.len() - after.len()))),
            [byte, after @ ..] if *byte >= b' ' => {
                content.push(*byte)?;
                rest = after;
            }
            _ => return Ok(None),
        }
    }
    Ok(None)
}
