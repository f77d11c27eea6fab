//! Calls of `run` over links in memory.
use crate::keeping::fresh;
use crate::words::words_of;
use desk_base::{Both, List, MemLink, MemSink, MemSource};
use desk_cases::{Answer, USUAL_CUT};
use fixdesk_run::{Said, run};
use keeper_core::Keeper;
use session_machine::Desk;
use std::alloc::Global;
use std::test::Fail;

/// How many bytes a sink has room for, where a call does not say.
const USUAL_ROOM: usize = 100_000;

/// An end of a link.
#[derive(Clone, Copy, PartialEq, Eq)]
pub enum End {
    Source,
    Sink,
}

/// A call of `run`: its words, the bytes that the source has, how many bytes a call of an end of the link moves at
/// most, how many the sink has room for, and which call of which end, counted from 1, fails.
#[derive(Clone, Copy)]
pub struct Call<'a> {
    pub words: &'a [String],
    pub input: &'a [u8],
    pub cut: usize,
    pub room: usize,
    pub fails: Option<(End, u64)>,
}

/// What a call told: its status, and what was written.
#[derive(Drop)]
pub struct Told {
    pub status: u8,
    pub output: Vec<u8>,
}

impl<'a> Call<'a> {
    /// The call with these words over this input, in which no call of the link fails.
    pub fn new(words: &'a [String], input: &'a [u8]) -> Call<'a> {
        Call {
            words,
            input,
            cut: USUAL_CUT,
            room: USUAL_ROOM,
            fails: None,
        }
    }

    /// Makes the call over the tables of an empty desk.
    pub fn make_alone(&self, alloc: Global) -> Result<Told, Fail> {
        let mut keeper = fresh(alloc)?;
        self.make(alloc, &mut keeper)
    }

    /// Makes the call over a keeper.
    pub fn make<K: Keeper>(&self, alloc: Global, keeper: &mut K) -> Result<Told, Fail> {
        let mut link = self.link(alloc)?;
        let status = self.make_over(alloc, keeper, &mut link);
        let output = Vec::from_slice(alloc, link.sink.bytes())?;
        Ok(Told { status, output })
    }

    /// Makes the call over a keeper and its link, and tells the status.
    pub fn make_over<K: Keeper>(&self, alloc: Global, keeper: &mut K, link: &mut MemLink) -> u8 {
        run::<Desk, _, _, _>(alloc, self.words, keeper, link, &mut Said::nothing())
    }

    /// The link of the call.
    pub fn link(&self, alloc: Global) -> Result<MemLink, Fail> {
        let source = self.source(alloc)?;
        let sink = self.sink(alloc)?;
        Ok(Both { source, sink })
    }

    fn source(&self, alloc: Global) -> Result<MemSource, Fail> {
        let fails = self.fails_of(alloc, End::Source)?;
        let input = List::from_vec(Vec::from_slice(alloc, self.input)?);
        Ok(MemSource::new(input, self.cut.max(1), fails))
    }

    fn sink(&self, alloc: Global) -> Result<MemSink, Fail> {
        let fails = self.fails_of(alloc, End::Sink)?;
        Ok(MemSink::new(alloc, self.cut.max(1), self.room, fails)?)
    }

    /// Which calls of an end fail.
    fn fails_of(&self, alloc: Global, end: End) -> Result<List<u64>, Fail> {
        let mut fails = List::new(alloc);
        match self.fails {
            Some((failing, number)) if failing == end => fails.push(number)?,
            _ => {}
        }
        Ok(fails)
    }
}

impl Told {
    /// Adds the response, and a status that is not 0.
    pub fn add_response(&self, answer: &mut Answer) -> Result<(), Fail> {
        if self.status != 0 {
            answer.number("status", u64::from(self.status))?;
        }
        answer.bytes("response", self.output.as_slice())
    }
}

/// What the words of a text tell over a keeper, where the source has this input.
pub fn call_words<K: Keeper>(
    alloc: Global,
    keeper: &mut K,
    words: &[u8],
    input: &[u8],
) -> Result<Told, Fail> {
    let words = words_of(alloc, words)?;
    Call::new(words.as_slice(), input).make(alloc, keeper)
}

/// What a stream of these bytes is answered over a keeper.
pub fn serve<K: Keeper>(alloc: Global, keeper: &mut K, input: &[u8]) -> Result<Told, Fail> {
    call_words(alloc, keeper, b"pipe", input)
}
