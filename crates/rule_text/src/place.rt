//! Places in a text, by which a refusal is told.
ghost use Rattle.std.specs.Prelude.{◌≡◌, ◌+◌, ◌<◌, ◌≤◌, ◌^◌, length, take};
ghost use Rattle.rule_text.specs.Tokens.{place_after, place_following};

/// A line and a column, both from 1. Lines are counted by LF, columns by bytes.
#[derive(Clone, Copy, Debug, PartialEq, Eq)]
pub struct Place {
    pub line: u64,
    pub column: u64,
}

impl Place {
    /// The place after these bytes, which begin at this place.
    pub fn following(self, bytes: &[u8]) -> Place
        requires counted { 1 ≤ self.column }
        requires line_fits { self.line + length bytes.now < 2 ^ 64 }
        requires column_fits { self.column + length bytes.now < 2 ^ 64 }
        ensures place { result ≡ place_following self bytes.now }
        ensures counted { 1 ≤ result.column }
        ensures line { result.line ≤ self.line + length bytes.now }
        ensures column { result.column ≤ self.column + length bytes.now }
    {
        let mut place = self;
        'bytes: for byte in bytes {
            if *byte == b'\n' {
                place.line += 1;
                place.column = 1;
            } else {
                place.column += 1;
            }
        }
        place
    }
}
