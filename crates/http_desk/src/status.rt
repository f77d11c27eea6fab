//! The statuses of responses, and what their bodies are.
ghost use Rattle.std.specs.Prelude.{◌≡◌};
ghost use Rattle.http_desk.specs.Responses.{code_of, reason_of, type_of};

/// The status of a response (RFC 9110, section 15).
#[derive(Clone, Copy, Debug, PartialEq, Eq)]
pub enum Status {
    Ok,
    Created,
    BadRequest,
    Forbidden,
    NotFound,
    MethodNotAllowed,
    Conflict,
    LengthRequired,
    ContentTooLarge,
    UnprocessableContent,
    NotImplemented,
    ServiceUnavailable,
    InsufficientStorage,
}

impl Status {
    /// Its number.
    pub fn code(self) -> u16
        ensures { result ≡ code_of self }
    {
        match self {
            Status::Ok => 200,
            Status::Created => 201,
            Status::BadRequest => 400,
            Status::Forbidden => 403,
            Status::NotFound => 404,
            Status::MethodNotAllowed => 405,
            Status::Conflict => 409,
            Status::LengthRequired => 411,
            Status::ContentTooLarge => 413,
            Status::UnprocessableContent => 422,
            Status::NotImplemented => 501,
            Status::ServiceUnavailable => 503,
            Status::InsufficientStorage => 507,
        }
    }

    /// Its reason phrase.
    pub fn reason(self) -> &'static str
        ensures { result.now ≡ reason_of self }
    {
        match self {
            Status::Ok => "OK",
            Status::Created => "Created",
            Status::BadRequest => "Bad Request",
            Status::Forbidden => "Forbidden",
            Status::NotFound => "Not Found",
            Status::MethodNotAllowed => "Method Not Allowed",
            Status::Conflict => "Conflict",
            Status::LengthRequired => "Length Required",
            Status::ContentTooLarge => "Content Too Large",
            Status::UnprocessableContent => "Unprocessable Content",
            Status::NotImplemented => "Not Implemented",
            Status::ServiceUnavailable => "Service Unavailable",
            Status::InsufficientStorage => "Insufficient Storage",
        }
    }
}

/// What the body of a response is.
#[derive(Clone, Copy, Debug, PartialEq, Eq)]
pub enum ContentType {
    Json,
    Text,
    Csv,
    Toml,
    Html,
    Css,
    Script,
    /// JSON, a value a line.
    Lines,
}

impl ContentType {
    /// Its media type.
    pub fn name(self) -> &'static str
        ensures { result.now ≡ type_of self }
    {
        match self {
            ContentType::Json => "application/json",
            ContentType::Text => "text/plain",
            ContentType::Csv => "text/csv",
            ContentType::Toml => "application/toml",
            ContentType::Html => "text/html",
            ContentType::Css => "text/css",
            ContentType::Script => "text/javascript",
            ContentType::Lines => "application/jsonl",
        }
    }
}
