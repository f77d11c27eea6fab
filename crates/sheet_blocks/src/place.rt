//! Where a reader of a sheet stands, as far as line ends go.
ghost use Rattle.std.specs.Prelude.{◌≡◌};
ghost use Rattle.sheet_blocks.specs.Places.{ends_line, is_line_end, next_place, place_outside};

/// Where a reader stands after a byte.
#[derive(Clone, Copy, Debug, PartialEq, Eq)]
pub(crate) enum Place {
    /// Before a field.
    Start,
    /// In a field, outside of quotes.
    Plain,
    /// Between quotes.
    Quoted,
    /// After a quote that closes, unless another follows.
    Closed,
}

impl Place {
    /// The place after one byte more.
    pub(crate) fn next(self, delimiter: u8, byte: u8) -> Place
        ensures { result ≡ next_place delimiter self byte }
    {
        match self {
            Place::Start | Place::Closed => {
                if byte == b'"' {
                    Place::Quoted
                } else {
                    outside(delimiter, byte)
                }
            }
            Place::Plain => outside(delimiter, byte),
            Place::Quoted => {
                if byte == b'"' {
                    Place::Closed
                } else {
                    Place::Quoted
                }
            }
        }
    }

    /// Whether the byte ends a line there.
    pub(crate) fn ends_line(self, byte: u8) -> bool
        ensures { result ≡ ends_line self byte }
    {
        match self {
            Place::Start | Place::Plain | Place::Closed => is_line_end(byte),
            Place::Quoted => false,
        }
    }
}

/// The place after a byte outside of quotes.
fn outside(delimiter: u8, byte: u8) -> Place
    ensures { result ≡ place_outside delimiter byte }
{
    if byte == delimiter || is_line_end(byte) {
        Place::Start
    } else {
        Place::Plain
    }
}

fn is_line_end(byte: u8) -> bool
    ensures { result ≡ is_line_end byte }
{
    byte == b'\r' || byte == b'\n'
}
