//! What is answered without the machine.
ghost use Rattle.std.specs.Prelude.{◌≡◌, false, true};
ghost use Rattle.http_desk.specs.Refusals.{refusal_text, refused_rest};

use http_cut::BadRest;

/// Why a request, or the rest of a stream, is answered without the machine's reply.
#[derive(Clone, Copy, Debug, PartialEq, Eq)]
pub enum Refused {
    /// It is foreign to the port that is guarded.
    Origin,
    /// The target has no route.
    NoRoute,
    /// The route has another method.
    OtherMethod,
    /// The method is POST, and no field says the length of the body.
    NoLength,
    /// The rest is a bad head.
    BadHead,
    /// The rest begins with a head that says chunks.
    Chunked,
    /// The rest begins with a head that says too long a body.
    BodyLong,
    /// The keeper failed.
    Unavailable,
    /// There was no memory.
    NoMemory,
}

/// The responses of one refusal.
#[derive(Clone, Copy)]
struct Texts {
    staying: &'static str,
    closing: &'static str,
    staying_to_head: &'static str,
    closing_to_head: &'static str,
}

/// The responses with this status, and a body that names the error and has so many bytes, as they are sent.
macro_rules! texts_of {
    ($status:literal, $length:literal, $error:literal) => {
        Texts {
            staying: concat!(
                "HTTP/1.1 ", $status, "\r\nContent-Type: application/json\r\nContent-Length: ", $length,
                "\r\n\r\n{\"error\":\"", $error, "\"}"
            ),
            closing: concat!(
                "HTTP/1.1 ", $status, "\r\nContent-Type: application/json\r\nContent-Length: ", $length,
                "\r\nConnection: close\r\n\r\n{\"error\":\"", $error, "\"}"
            ),
            staying_to_head: concat!(
                "HTTP/1.1 ", $status, "\r\nContent-Type: application/json\r\nContent-Length: 0\r\n\r\n"
            ),
            closing_to_head: concat!(
                "HTTP/1.1 ", $status, "\r\nContent-Type: application/json\r\nContent-Length: 0",
                "\r\nConnection: close\r\n\r\n"
            ),
        }
    };
}

impl Refused {
    /// The refusal of a bad rest.
    pub fn of_rest(kind: BadRest) -> Refused
        ensures { result ≡ refused_rest kind }
    {
        match kind {
            BadRest::BadHead => Refused::BadHead,
            BadRest::Chunked => Refused::Chunked,
            BadRest::BodyLong => Refused::BodyLong,
        }
    }

    /// Its response, which takes no memory. A closing one says that the stream is closed after it; one to HEAD has no
    /// body.
    pub fn text(self, closing: bool, asks_head: bool) -> &'static str
        ensures { result.now ≡ refusal_text self closing asks_head }
    {
        let texts = self.texts();
        match (closing, asks_head) {
            (false, false) => texts.staying,
            (true, false) => texts.closing,
            (false, true) => texts.staying_to_head,
            (true, true) => texts.closing_to_head,
        }
    }

    fn texts(self) -> Texts
        ensures staying { result.staying.now ≡ refusal_text self false false }
        ensures closing { result.closing.now ≡ refusal_text self true false }
        ensures staying_to_head { result.staying_to_head.now ≡ refusal_text self false true }
        ensures closing_to_head { result.closing_to_head.now ≡ refusal_text self true true }
    {
        match self {
            Refused::Origin => texts_of!("403 Forbidden", "18", "origin"),
            Refused::NoRoute => texts_of!("404 Not Found", "20", "no_route"),
            Refused::OtherMethod => texts_of!("405 Method Not Allowed", "18", "method"),
            Refused::NoLength => texts_of!("411 Length Required", "18", "length"),
            Refused::BadHead => texts_of!("400 Bad Request", "16", "head"),
            Refused::Chunked => texts_of!("501 Not Implemented", "19", "chunked"),
            Refused::BodyLong => texts_of!("413 Content Too Large", "16", "body"),
            Refused::Unavailable => texts_of!("503 Service Unavailable", "23", "unavailable"),
            Refused::NoMemory => texts_of!("507 Insufficient Storage", "21", "no_memory"),
        }
    }
}
