//! The byte order mark, U+FEFF in UTF-8, at the front of a text.
ghost use Rattle.std.specs.Prelude.{◌≡◌};
ghost use Rattle.master_rows.specs.Mark.{begins_with_mark, begins_with_two_marks};

const MARK: [u8; 3] = [0xEF, 0xBB, 0xBF];

const TWO_MARKS: [u8; 6] = [0xEF, 0xBB, 0xBF, 0xEF, 0xBB, 0xBF];

/// Whether a text begins with a byte order mark.
pub fn begins_with_mark(text: &[u8]) -> bool
    ensures { result ≡ begins_with_mark text.now }
{
    text.starts_with(&MARK)
}

/// Whether a sheet begins with two byte order marks.
pub fn begins_with_two_marks(sheet: &[u8]) -> bool
    ensures { result ≡ begins_with_two_marks sheet.now }
{
    sheet.starts_with(&TWO_MARKS)
}
