//! Numbers in decimal digits, as they stand in heads and targets.
ghost use Rattle.std.specs.Prelude.{◌≡◌, ◌≤◌, IsTrue, length};
ghost use Rattle.std.specs.List.{list_all};
ghost use Rattle.std.specs.Char.{is_ascii_digit};
ghost use Rattle.std.specs.Str.Parse.{digits_value};
ghost use Rattle.http_cut.specs.Numbers.{number, positive};

/// The most digits of the number of a write.
pub const WRITE_DIGITS: usize = 12;

/// The most digits of a version, of the number of a session, and of other numbers that targets name.
pub const NUMBER_DIGITS: usize = 9;

/// The number that 1 to `most` decimal digits write, and nothing for other bytes.
pub fn number(bytes: &[u8], most: usize) -> Option<u64>
    requires { most ≤ 19 }
    ensures { result ≡ number most bytes.now }
{
    if bytes.is_empty() || bytes.len() > most || !are_digits(bytes) {
        return None;
    }
    Some(digits_value(bytes))
}

/// The number that 1 to `most` decimal digits write, the first of them not 0.
pub fn positive(bytes: &[u8], most: usize) -> Option<u64>
    requires { most ≤ 19 }
    ensures { result ≡ positive most bytes.now }
{
    match bytes {
        [b'0', ..] => None,
        _ => number(bytes, most),
    }
}

fn are_digits(bytes: &[u8]) -> bool
    ensures { result ≡ list_all is_ascii_digit bytes.now }
{
    bytes.iter().all(|byte| byte.is_ascii_digit())
}

fn digits_value(bytes: &[u8]) -> u64
    requires few { length bytes.now ≤ 19 }
    requires digits { IsTrue (list_all is_ascii_digit bytes.now) }
    ensures { result ≡ digits_value 10 bytes.now }
{
    let mut value: u64 = 0;
    'digits: for byte in bytes {
        value = value * 10 + u64::from(*byte - b'0');
    }
    value
}
