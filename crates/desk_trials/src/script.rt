//! The script: requests to an empty desk, each with its response. Other cases name both by the request's number.
use crate::words::add_word;
use desk_cases::Case;
use std::alloc::Global;
use std::test::Fail;

/// A request and its response.
#[derive(Drop)]
struct Exchange {
    request: Vec<u8>,
    response: Vec<u8>,
}

/// The requests of the script in their order, with their responses.
#[derive(Drop)]
pub struct Script {
    exchanges: Vec<Exchange>,
}

impl Script {
    /// A script without requests.
    pub fn new(alloc: Global) -> Script {
        Script {
            exchanges: Vec::new(alloc),
        }
    }

    /// Adds the request and the response of a case.
    pub fn add(&mut self, alloc: Global, case: &Case) -> Result<(), Fail> {
        let request = Vec::from_slice(alloc, case.bytes("request")?)?;
        let response = Vec::from_slice(alloc, case.bytes("response")?)?;
        self.exchanges.push(Exchange { request, response })?;
        Ok(())
    }

    /// How many requests there are.
    pub fn len(&self) -> usize {
        self.exchanges.len()
    }

    /// The bytes of the first so many requests.
    pub fn first(&self, alloc: Global, count: usize) -> Result<Vec<u8>, Fail> {
        self.requests(alloc, 0, count)
    }

    /// The bytes of the requests from this place on, counted from 0, up to that one.
    pub fn requests(&self, alloc: Global, from: usize, to: usize) -> Result<Vec<u8>, Fail> {
        let mut bytes = Vec::new(alloc);
        for exchange in self.exchanges.iter().take(to).skip(from) {
            bytes.extend_from_slice(exchange.request.as_slice())?;
        }
        Ok(bytes)
    }

    /// The bytes of the responses to them.
    pub fn responses(&self, alloc: Global, from: usize, to: usize) -> Result<Vec<u8>, Fail> {
        let mut bytes = Vec::new(alloc);
        for exchange in self.exchanges.iter().take(to).skip(from) {
            bytes.extend_from_slice(exchange.response.as_slice())?;
        }
        Ok(bytes)
    }

    /// The bytes of what the words name: a number is a request of the script, another word a part of the case.
    pub fn named(&self, alloc: Global, case: &Case, words: &str) -> Result<Vec<u8>, Fail> {
        let mut bytes = Vec::new(alloc);
        for word in words.split_whitespace() {
            bytes.extend_from_slice(self.request(case, word)?)?;
        }
        Ok(bytes)
    }

    /// The words, as far as the output is the responses that they name, and then the rest of the output.
    pub fn answered(
        &self,
        alloc: Global,
        case: &Case,
        words: &str,
        output: &[u8],
    ) -> Result<Vec<u8>, Fail> {
        let mut told = Vec::new(alloc);
        let mut rest = output;
        for word in words.split_whitespace() {
            match following(rest, self.response(case, word)?) {
                Some(next) => rest = next,
                None => break,
            }
            add_word(&mut told, word.as_bytes())?;
        }
        add_word(&mut told, rest)?;
        Ok(told)
    }

    /// How many of the script's responses an output begins with.
    pub fn accepted(&self, output: &[u8]) -> usize {
        self.taken(output).0
    }

    /// How many of the script's responses an output begins with, and how many bytes of the next one it has after them;
    /// nothing where something else stands there.
    pub fn progress(&self, output: &[u8]) -> Option<(usize, usize)> {
        let (count, rest) = self.taken(output);
        match self.exchanges.get(count) {
            Some(exchange) => {
                let response = exchange.response.as_slice();
                response.starts_with(rest).then_some((count, rest.len()))
            }
            None => rest.is_empty().then_some((count, 0)),
        }
    }

    /// How many of the script's responses an output begins with, and what stands after them.
    fn taken<'o>(&self, output: &'o [u8]) -> (usize, &'o [u8]) {
        let mut rest = output;
        for (count, exchange) in self.exchanges.iter().enumerate() {
            match following(rest, exchange.response.as_slice()) {
                Some(next) => rest = next,
                None => return (count, rest),
            }
        }
        (self.exchanges.len(), rest)
    }

    /// The request at a place, counted from 0, and its response.
    pub fn at(&self, place: usize) -> Option<(&[u8], &[u8])> {
        let exchange = self.exchanges.get(place)?;
        Some((exchange.request.as_slice(), exchange.response.as_slice()))
    }

    fn request<'a>(&'a self, case: &'a Case, word: &str) -> Result<&'a [u8], Fail> {
        match self.numbered(word) {
            Some((request, _)) => Ok(request),
            None => case.bytes(word),
        }
    }

    fn response<'a>(&'a self, case: &'a Case, word: &str) -> Result<&'a [u8], Fail> {
        match self.numbered(word) {
            Some((_, response)) => Ok(response),
            None => case.bytes(word),
        }
    }

    /// The request with this number, counted from 1, and its response.
    fn numbered(&self, word: &str) -> Option<(&[u8], &[u8])> {
        let number: usize = word.parse().ok()?;
        self.at(number.checked_sub(1)?)
    }
}

/// What stands after the front of these bytes, where that is their front.
fn following<'b>(bytes: &'b [u8], front: &[u8]) -> Option<&'b [u8]> {
    if bytes.starts_with(front) {
        bytes.get(front.len()..)
    } else {
        None
    }
}
