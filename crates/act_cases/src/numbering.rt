//! The numbers of a request that is made many times.
use std::test::Fail;

/// The request with each `#4` turned into a number: 4 the first time, 5 the next, and so on.
pub fn tell_numbered(text: &mut String, request: &[u8], turn: u64) -> Result<(), Fail> {
    let Ok(request) = std::str::from_utf8(request) else {
        return Err(Fail::new("a request that is made many times is no text"));
    };
    let (front, rest) = request.split_once("#").unwrap_or((request, ""));
    text.push_str(front)?;
    for piece in rest.split("#") {
        tell_piece(text, piece, turn)?;
    }
    Ok(())
}

/// What stands after a mark: the number, and what follows its digits.
fn tell_piece(text: &mut String, piece: &str, turn: u64) -> Result<(), Fail> {
    let rest = piece.trim_start_matches(|letter: char| letter.is_ascii_digit());
    if let Some(digits) = piece.strip_suffix(rest) {
        if let Ok(number) = digits.parse::<u64>() {
            let number = number.saturating_add(turn);
            write!(text, "{number}")?;
        }
    }
    Ok(text.push_str(rest)?)
}
