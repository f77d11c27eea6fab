//! How many bytes texts have.
ghost use Rattle.std.specs.Prelude.{◌≡◌, All};
ghost use Rattle.desk_words.specs.Tables.{IsShort};
ghost use Rattle.desk_valid.specs.Tallies.{bytes_in, record_bytes, typed_bytes};
ghost use Rattle.desk_totals.specs.Totals.{AreTexts};

use desk_base::Text;
use desk_words::{RecordRow, SessionRow};

/// The bytes of some texts.
pub(crate) fn bytes_in(texts: &[Text]) -> u128
    ensures bytes { result ≡ bytes_in texts.now }
    ensures texts { AreTexts texts.now }
{
    let mut bytes = 0;
    'texts: for text in texts {
        bytes += text.as_str().len() as u128;
    }
    bytes
}

/// The bytes that are typed in sessions.
pub(crate) fn typed_bytes(sessions: &[SessionRow]) -> u128
    requires { IsShort sessions.now }
    ensures bytes { result ≡ typed_bytes sessions.now }
    ensures texts { All (λ session. AreTexts session.typed) sessions.now }
{
    let mut bytes = 0;
    'sessions: for session in sessions {
        bytes += bytes_in(session.typed.as_slice());
    }
    bytes
}

/// The bytes of records.
pub(crate) fn record_bytes(records: &[RecordRow]) -> u128
    requires { IsShort records.now }
    ensures bytes { result ≡ record_bytes records.now }
    ensures texts { All (λ row. AreTexts row.texts) records.now }
{
    let mut bytes = 0;
    'records: for row in records {
        bytes += bytes_in(row.texts.as_slice());
    }
    bytes
}
