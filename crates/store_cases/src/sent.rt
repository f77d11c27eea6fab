//! The requests of the script, sent in streams to keepers over a database in memory.
use crate::stored::Stored;
use desk_cases::{Answer, Case};
use desk_trials::{Script, Told};
use std::alloc::Global;
use std::test::Fail;

/// A stream of a case: one of up to three, or the one that is sent to a second keeper beside the first.
#[derive(Clone, Copy, PartialEq, Eq)]
pub enum Stream {
    First,
    Second,
    Third,
    Beside,
}

/// Those that follow one another.
pub const IN_TURN: [Stream; 3] = [Stream::First, Stream::Second, Stream::Third];

impl Stream {
    /// The part with the requests that are sent.
    fn sent(self) -> &'static str {
        match self {
            Stream::First => "sent",
            Stream::Second => "sent 2",
            Stream::Third => "sent 3",
            Stream::Beside => "sent beside",
        }
    }

    /// The part with the status.
    fn status(self) -> &'static str {
        match self {
            Stream::First => "status",
            Stream::Second => "status 2",
            Stream::Third => "status 3",
            Stream::Beside => "status beside",
        }
    }

    /// The part with what is answered.
    fn answered(self) -> &'static str {
        match self {
            Stream::First => "answered",
            Stream::Second => "answered 2",
            Stream::Third => "answered 3",
            Stream::Beside => "answered beside",
        }
    }

    /// Whether the case has such a stream.
    pub fn is_in(self, case: &Case) -> bool {
        case.part(self.status()).is_some()
    }
}

/// The script, and a case that sends requests of it.
#[derive(Clone, Copy)]
pub struct Sending<'c> {
    pub script: &'c Script,
    pub case: &'c Case,
}

impl<'c> Sending<'c> {
    /// Adds what the request of the case is answered in a stream of its own, by a keeper over the database that the
    /// script so far leaves there. The keeper was not called yet.
    pub fn add_next(self, stored: &mut Stored, answer: &mut Answer) -> Result<(), Fail> {
        self.send_script(answer.alloc(), stored)?;
        stored.renew(answer.alloc())?;
        let told = stored.serve(answer.alloc(), self.case.bytes("request")?)?;
        told.add_response(answer)
    }

    /// Sends the requests of the script to a keeper.
    fn send_script(self, alloc: Global, stored: &mut Stored) -> Result<(), Fail> {
        let requests = self.script.first(alloc, self.script.len())?;
        let _told = stored.serve(alloc, requests.as_slice())?;
        Ok(())
    }

    /// Adds what the streams of the case are answered, each by a keeper over the database that those before it left,
    /// and whether that database has the tables that are wanted then.
    pub fn add_streams(self, stored: &mut Stored, answer: &mut Answer) -> Result<(), Fail> {
        for stream in IN_TURN {
            if stream.is_in(self.case) {
                self.add_stream(stored, stream, answer)?;
            }
        }
        stored.add_tables(self, answer)
    }

    /// Sends a stream to a keeper of its own, and adds what it was answered.
    fn add_stream(
        self,
        stored: &mut Stored,
        stream: Stream,
        answer: &mut Answer,
    ) -> Result<(), Fail> {
        stored.renew(answer.alloc())?;
        let requests = self.requests(answer.alloc(), stream)?;
        let told = stored.serve(answer.alloc(), requests.as_slice())?;
        self.add_told(stream, &told, answer)
    }

    /// The requests of a stream.
    pub fn requests(self, alloc: Global, stream: Stream) -> Result<Vec<u8>, Fail> {
        let numbers = self.case.text(stream.sent()).unwrap_or("");
        self.script.named(alloc, self.case, numbers)
    }

    /// Adds what a stream was answered.
    pub fn add_told(self, stream: Stream, told: &Told, answer: &mut Answer) -> Result<(), Fail> {
        answer.number(stream.status(), u64::from(told.status))?;
        let words = self.case.text(stream.answered()).unwrap_or("");
        let output = told.output.as_slice();
        let answered = self
            .script
            .answered(answer.alloc(), self.case, words, output)?;
        answer.bytes(stream.answered(), answered.as_slice())
    }
}
