//! What an input of `once` is answered with.
ghost use Rattle.std.specs.Prelude.{◌≡◌};
ghost use Rattle.once_run.specs.Once.{refusal_line, reply_text, reply_status};

use crate::status::Status;
use desk_base::List;

/// Why an input is refused.
#[derive(Clone, Copy, Debug, PartialEq, Eq)]
pub enum InputRefusal {
    /// It has more than 1,048,576 bytes.
    TooLong,
    /// It is no JSON.
    NotJson,
    /// It is JSON, and no case.
    NotACase,
}

impl InputRefusal {
    /// The line that tells it.
    pub fn line(self) -> &'static [u8]
        ensures { result.now ≡ refusal_line self }
    {
        match self {
            InputRefusal::TooLong => b"too long\n",
            InputRefusal::NotJson => b"not json\n",
            InputRefusal::NotACase => b"not a case\n",
        }
    }
}

/// What an input is answered with.
#[derive(Debug, Drop)]
pub enum CaseReply {
    /// The answer to the case that it is.
    Answered(List<u8>),
    /// It is refused.
    Refused(InputRefusal),
}

impl CaseReply {
    /// The text, with its LF.
    pub fn text(&self) -> &[u8]
        ensures { result.now ≡ reply_text self.now }
    {
        match self {
            CaseReply::Answered(text) => text.as_slice(),
            CaseReply::Refused(refusal) => refusal.line(),
        }
    }

    /// The status that it is told with.
    pub fn status(&self) -> Status
        ensures { result ≡ reply_status self.now }
    {
        match self {
            CaseReply::Answered(_) => Status::Done,
            CaseReply::Refused(_) => Status::Refused,
        }
    }
}
