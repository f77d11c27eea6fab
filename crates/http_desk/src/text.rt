//! The text of a response.
ghost use Rattle.std.specs.Prelude.{◌≡◌};
ghost use Rattle.http_desk.specs.Answered.{text_bytes};

/// What is written for a request.
#[derive(Debug, Drop)]
pub enum Text {
    /// A text that was made.
    Made(Vec<u8>),
    /// A text that is always there.
    Fixed(&'static str),
}

impl Text {
    /// Its bytes.
    pub fn bytes(&self) -> &[u8]
        ensures { result.now ≡ text_bytes self.now }
    {
        match self {
            Text::Made(bytes) => bytes.as_slice(),
            Text::Fixed(text) => text.as_bytes(),
        }
    }
}
